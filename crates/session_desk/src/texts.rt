ghost use Rattle.std.specs.Prelude.{◌<◌, ◌++◌, All, codes, decimal, length};
ghost use Rattle.jass_base.specs.declared.answer.Hit.{Hit};
ghost use Rattle.session_desk.specs.Replies.{answer_lines, closed_text, end_text, opened_line, refusal_line};
ghost use Rattle.gathered_text.specs.Gathering.{Gathers};

use crate::refusal::DeskRefusal;
use gathered_text::{Buffer, gather_all};
use index_file::NamedSource;
use itoa::Buffer as Digits;
use jass_base::{Hit, Sink, WriteFault};
use trec_run::gather_answer;

/// The tag of the run lines of an answer.
const TAG: &str = "jass";

/// Gathers the reply to a refused line.
#[tactic(auto, unfolding(crate::specs::Replies::refusal_line))]
pub fn gather_refusal<O: Sink>(
    out: &mut O,
    buffer: &mut Buffer,
    refusal: DeskRefusal,
) -> Result<(), WriteFault>
    ensures { Gathers O.written O.faults O.rest out.old out.new buffer.old buffer.new (refusal_line refusal) result }
{
    match refusal {
        DeskRefusal::BadLine => gather_text(out, buffer, "refused 70 bad line\n"),
        DeskRefusal::UnknownSession => gather_text(out, buffer, "refused 71 unknown session\n"),
        DeskRefusal::NameInUse => gather_text(out, buffer, "refused 72 name in use\n"),
        DeskRefusal::DeskFull => gather_text(out, buffer, "refused 73 desk full\n"),
        DeskRefusal::TooManyTerms => gather_text(out, buffer, "refused 52 too many terms\n"),
        DeskRefusal::NamedTooOften => gather_text(out, buffer, "refused 53 named too often\n"),
        DeskRefusal::PoolFull { need, free } => gather_pool_full(out, buffer, need, free),
    }
}

/// Gathers the reply to a line that needs more frames than are spare.
fn gather_pool_full<O: Sink>(
    out: &mut O,
    buffer: &mut Buffer,
    need: u32,
    free: u32,
) -> Result<(), WriteFault>
    ensures { Gathers O.written O.faults O.rest out.old out.new buffer.old buffer.new
        (codes "refused 74 pool " ++ (decimal need ++ (codes " " ++ (decimal free ++ codes "\n")))) result }
{
    let mut need_digits = Digits::new();
    let mut free_digits = Digits::new();
    let need = need_digits.format(need).as_bytes();
    let free = free_digits.format(free).as_bytes();
    gather_all(out, buffer, &[b"refused 74 pool ", need, b" ", free, b"\n"])
}

/// Gathers the reply to a line that opened a session.
#[tactic(auto, unfolding(crate::specs::Replies::opened_line))]
pub fn gather_opened<O: Sink>(
    out: &mut O,
    buffer: &mut Buffer,
    name: &str,
    need: u32,
    unknown: u32,
) -> Result<(), WriteFault>
    ensures { Gathers O.written O.faults O.rest out.old out.new buffer.old buffer.new
        (opened_line name.now need unknown) result }
{
    let mut need_digits = Digits::new();
    let mut unknown_digits = Digits::new();
    gather_opened_columns(
        out,
        buffer,
        name.as_bytes(),
        need_digits.format(need).as_bytes(),
        unknown_digits.format(unknown).as_bytes(),
    )
}

/// Gathers the columns of this reply, which have one lifetime so that they lie in one array.
fn gather_opened_columns<'x, O: Sink>(
    out: &mut O,
    buffer: &mut Buffer,
    name: &'x [u8],
    need: &'x [u8],
    unknown: &'x [u8],
) -> Result<(), WriteFault>
    ensures { Gathers O.written O.faults O.rest out.old out.new buffer.old buffer.new
        (codes "opened " ++ (name.now ++ (codes " need " ++ (need.now
        ++ (codes " unknown " ++ (unknown.now ++ codes "\n")))))) result }
{
    gather_all(
        out,
        buffer,
        &[
            b"opened ",
            name,
            b" need ",
            need,
            b" unknown ",
            unknown,
            b"\n",
        ],
    )
}

/// Gathers the reply to a line that closed a session.
#[tactic(auto, unfolding(crate::specs::Replies::closed_text))]
pub fn gather_closed<O: Sink>(
    out: &mut O,
    buffer: &mut Buffer,
    name: &str,
) -> Result<(), WriteFault>
    ensures { Gathers O.written O.faults O.rest out.old out.new buffer.old buffer.new (closed_text name.now) result }
{
    gather_all(out, buffer, &[b"closed ", name.as_bytes(), b"\n"])
}

/// Gathers the reply to the last line.
#[tactic(auto, unfolding(crate::specs::Replies::end_text))]
pub fn gather_end<O: Sink>(out: &mut O, buffer: &mut Buffer) -> Result<(), WriteFault>
    ensures { Gathers O.written O.faults O.rest out.old out.new buffer.old buffer.new end_text result }
{
    gather_text(out, buffer, "bye\n")
}

/// Gathers an answer: how many documents it has, and a run line for each.
#[tactic(auto, unfolding(crate::specs::Replies::answer_lines))]
pub fn gather_hits<S: NamedSource, O: Sink>(
    out: &mut O,
    buffer: &mut Buffer,
    name: &str,
    source: &S,
    hits: &[Hit],
) -> Result<(), WriteFault>
    requires { All (λ (hit : Hit). hit.doc < length (S.index source.now).names) hits.now }
    ensures { Gathers O.written O.faults O.rest out.old out.new buffer.old buffer.new
        (answer_lines (S.index source.now).names name.now hits.now) result }
{
    source.tells_its_index();
    gather_count(out, buffer, hits.len())?;
    gather_answer(out, buffer, name, source, hits, TAG, 0)
}

/// Gathers the line before an answer.
fn gather_count<O: Sink>(out: &mut O, buffer: &mut Buffer, count: usize) -> Result<(), WriteFault>
    ensures { Gathers O.written O.faults O.rest out.old out.new buffer.old buffer.new
        (codes "hits " ++ (decimal count ++ codes "\n")) result }
{
    let mut digits = Digits::new();
    let count = digits.format(count).as_bytes();
    gather_all(out, buffer, &[b"hits ", count, b"\n"])
}

/// Gathers a text.
fn gather_text<O: Sink>(out: &mut O, buffer: &mut Buffer, text: &str) -> Result<(), WriteFault>
    ensures { Gathers O.written O.faults O.rest out.old out.new buffer.old buffer.new text.now result }
{
    gather_all(out, buffer, &[text.as_bytes()])
}
