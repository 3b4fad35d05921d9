ghost use Rattle.std.specs.Prelude.{◌≡◌, ◌≢◌, ◌≤◌, ◌<◌, [], length, take, All, Ok, Err, IfOk, IfErr, nat_eq, not, ◌&&◌};
ghost use Rattle.jass_base.specs.Outside.{Rose, Wrote};
ghost use Rattle.session_desk.specs.State.{new_state};
ghost use Rattle.jass_top.specs.declared.serve_stop.ServeStop.{ServeStop};
ghost use Rattle.session_desk.specs.declared.went.Went.{Went};
ghost use Rattle.feed_lines.specs.Waiting.{EndsFirst, nothing_yet};
ghost use Rattle.jass_top.specs.Private.ServeRuns.{Served};
ghost use Rattle.jass_top.specs.Private.Serving.{AnswersLines, AnswersLast, given_line};
ghost use Rattle.jass_top.specs.Private.Worlds.{with_feed, with_output, with_steps};
ghost use Rattle.jass_top.specs.Worlds.{Outer};
ghost use Rattle.jass_words.specs.declared.word_limits.TheConstants.{MOST_TAKEN};

use crate::serve_stop::ServeStop;
use feed_lines::laws::{a_line_loses_one_byte, lines_are_passed, pending_bytes_wait};
use feed_lines::{FeedLines, Filled};
use gathered_text::{Buffer, flush};
use index_file::NamedSource;
use jass_base::{Feed, Sink, Steps, WriteFault};
use session_desk::{Desk, Went};
use std::sync::ledger::Ledger;
use text_lines::laws::lines_end_by_line_feeds;

/// Serves the lines of an input at a desk at which nothing is open: to its end, to a line `end`, or to the most bytes
/// that are taken. After a fault of the input, and where memory is refused, the replies to the lines before went out.
pub fn serve_lines<S: NamedSource, I: Feed, O: Sink, L: Ledger>(
    desk: &mut Desk<S>,
    lines: &mut FeedLines,
    input: &mut I,
    out: &mut O,
    steps: &mut Steps<L>,
) -> Result<(), ServeStop>
    requires new { desk.old.state ≡ new_state desk.old.state.frames }
    requires nothing { lines.old ≡ nothing_yet MOST_TAKEN }
    ensures served { (beside : Outer) → Served (S.index desk.old.source) desk.old.state.frames
        (with_output O.Sink out.old (with_feed I.Feed input.old (with_steps steps.old beside)))
        (with_output O.Sink out.new (with_feed I.Feed input.new (with_steps steps.new beside))) result }
    ensures later { I.faults input.old ≤ I.faults input.new }
    ensures failed { result ≡ Err ServeStop.ReadFault → Rose (I.faults input.old) (I.faults input.new) }
{
    pending_bytes_wait();
    lines_are_passed();
    let mut buffer = Buffer::new();
    'pieces: loop {
        match serve_waiting(desk, lines, out, &mut buffer, steps) {
            Ok(Went::On) => {}
            Ok(Went::End) => return Ok(()),
            Ok(Went::NoMemory) => return Err(ServeStop::NoMemory),
            Err(_) => return Err(ServeStop::WriteFault),
        }
        match lines.fill(input) {
            Ok(Filled::More) => {}
            Ok(Filled::End) => return answer_last(desk, lines, out, &mut buffer, steps),
            Ok(Filled::Limit) => return Err(ServeStop::Limit),
            Err(_) => return Err(ServeStop::ReadFault),
        }
    }
}

/// Answers what waits at the end of the input, which is a line where it has bytes, and sends the reply.
fn answer_last<S: NamedSource, O: Sink, L: Ledger>(
    desk: &mut Desk<S>,
    lines: &FeedLines,
    out: &mut O,
    buffer: &mut Buffer,
    steps: &mut Steps<L>,
) -> Result<(), ServeStop>
    requires empty { buffer.old ≡ [] }
    requires free { All (λ b. b ≢ 10) lines.now.bytes }
    ensures answers { AnswersLast O.written O.faults O.rest out.old out.new steps.old steps.new
        (S.index desk.old.source) lines.now desk.old.state result }
{
    a_line_loses_one_byte();
    lines_are_passed();
    pending_bytes_wait();
    lines_end_by_line_feeds();
    if nothing_waits(lines) {
        return Ok(());
    }
    match desk.answer_line(last_line(lines), out, buffer, steps) {
        Ok(Went::On) => send(out, buffer),
        Ok(Went::End) => send(out, buffer),
        Ok(Went::NoMemory) => Err(ServeStop::NoMemory),
        Err(_) => Err(ServeStop::WriteFault),
    }
}

/// Whether no line waits: no byte, nor the end of a line that is too long.
fn nothing_waits(lines: &FeedLines) -> bool
    ensures { result ≡ (nat_eq (length lines.now.bytes) 0 && not lines.now.long) }
{
    lines.is_empty() && !lines.is_long()
}

/// Sends what was gathered.
fn send<O: Sink>(out: &mut O, buffer: &mut Buffer) -> Result<(), ServeStop>
    ensures text { Wrote O.written O.faults O.rest out.old out.new buffer.old result }
    ensures stop { IfErr result (λ stop. stop ≡ ServeStop.WriteFault) }
{
    match flush(out, buffer) {
        Ok(()) => Ok(()),
        Err(_) => Err(ServeStop::WriteFault),
    }
}

/// The line that waits; a line that is too long is bad, as one without bytes is.
fn last_line(lines: &FeedLines) -> &[u8]
    ensures { result.now ≡ given_line lines.now lines.now.bytes }
{
    if lines.is_long() { &[] } else { lines.rest() }
}

/// Answers the lines that wait, up to one that is `end` or wants memory, and sends the replies.
pub fn serve_waiting<S: NamedSource, O: Sink, L: Ledger>(
    desk: &mut Desk<S>,
    lines: &mut FeedLines,
    out: &mut O,
    buffer: &mut Buffer,
    steps: &mut Steps<L>,
) -> Result<Went, WriteFault>
    ensures source { desk.new.source ≡ desk.old.source }
    ensures answers { AnswersLines O.written O.faults O.rest out.old out.new buffer.old [] steps.old steps.new
        (S.index desk.old.source) lines.old lines.new desk.old.state desk.new.state result }
    ensures empty { IfOk result (λ _. buffer.new ≡ []) }
    ensures free { result ≡ Ok Went.On → All (λ b. b ≢ 10) lines.new.bytes }
{
    let went = answer_waiting(desk, lines, out, buffer, steps)?;
    match flush(out, buffer) {
        Ok(()) => Ok(went),
        Err(fault) => Err(fault),
    }
}

/// Answers the lines that wait, up to one that is `end` or wants memory.
fn answer_waiting<S: NamedSource, O: Sink, L: Ledger>(
    desk: &mut Desk<S>,
    lines: &mut FeedLines,
    out: &mut O,
    buffer: &mut Buffer,
    steps: &mut Steps<L>,
) -> Result<Went, WriteFault>
    ensures source { desk.new.source ≡ desk.old.source }
    ensures answers { AnswersLines O.written O.faults O.rest out.old out.new buffer.old buffer.new steps.old steps.new
        (S.index desk.old.source) lines.old lines.new desk.old.state desk.new.state result }
    ensures free { result ≡ Ok Went.On → All (λ b. b ≢ 10) lines.new.bytes }
{
    'lines: while let Some(end) = lines.end_of_line() {
        match answer_first(desk, lines, end, out, buffer, steps) {
            Ok(Went::On) => {}
            Ok(Went::End) => return Ok(Went::End),
            Ok(Went::NoMemory) => return Ok(Went::NoMemory),
            Err(fault) => return Err(fault),
        }
    }
    Ok(Went::On)
}

/// Answers the first line that waits, and passes it where others may follow.
fn answer_first<S: NamedSource, O: Sink, L: Ledger>(
    desk: &mut Desk<S>,
    lines: &mut FeedLines,
    end: usize,
    out: &mut O,
    buffer: &mut Buffer,
    steps: &mut Steps<L>,
) -> Result<Went, WriteFault>
    requires { EndsFirst lines.old.bytes end }
    ensures source { desk.new.source ≡ desk.old.source }
    ensures answers { AnswersLines O.written O.faults O.rest out.old out.new buffer.old buffer.new steps.old steps.new
        (S.index desk.old.source) lines.old lines.new desk.old.state desk.new.state result }
    ensures shorter { result ≡ Ok Went.On → length lines.new.bytes < length lines.old.bytes }
{
    a_line_loses_one_byte();
    lines_are_passed();
    pending_bytes_wait();
    match desk.answer_line(first_line(lines, end), out, buffer, steps) {
        Ok(Went::On) => {
            lines.pass(end);
            Ok(Went::On)
        }
        Ok(Went::End) => Ok(Went::End),
        Ok(Went::NoMemory) => Ok(Went::NoMemory),
        Err(fault) => Err(fault),
    }
}

/// The line before an end; a line that is too long is bad, as one without bytes is.
fn first_line(lines: &FeedLines, end: usize) -> &[u8]
    requires { end ≤ length lines.now.bytes }
    ensures { result.now ≡ given_line lines.now (take end lines.now.bytes) }
{
    if lines.is_long() {
        &[]
    } else {
        lines.line(end)
    }
}
