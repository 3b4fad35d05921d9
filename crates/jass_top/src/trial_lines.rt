ghost use Rattle.std.specs.Prelude.{◌≡◌, ◌++◌, codes};
ghost use Rattle.index_file.specs.Places.{codec_use};
ghost use Rattle.jass_base.specs.Outside.{Wrote};
ghost use Rattle.jass_top.specs.TrialMeaning.{codecs_text, index_segments, size_text, use_line};
ghost use Rattle.jass_top.specs.TrialSums.{budget_text, trial_text};

use crate::trial_sums::{BudgetSum, TrialSums};
use gathered_text::put_all;
use index_file::{CodecUse, IndexFile};
use itoa::Buffer;
use jass_base::{Sink, WriteFault};

/// Puts the summary of a trial on the output: a line of its index, and one for each grant.
pub fn put_summary<O: Sink>(
    out: &mut O,
    index: &IndexFile,
    sums: TrialSums,
) -> Result<(), WriteFault>
    ensures { Wrote O.written O.faults O.rest out.old out.new
        (trial_text index.now.index (codec_use index.now.codecs) sums) result }
{
    put_use(out, index)?;
    put_sum(out, b"1000", sums.first)?;
    put_sum(out, b"10000", sums.second)?;
    put_sum(out, b"all", sums.last)
}

/// Puts the line of an index: its size, and how many of its segments are in each codec.
fn put_use<O: Sink>(out: &mut O, index: &IndexFile) -> Result<(), WriteFault>
    ensures { Wrote O.written O.faults O.rest out.old out.new
        (use_line index.now.index (codec_use index.now.codecs)) result }
{
    put_size(out, index)?;
    put_codecs(out, index.codecs())
}

#[tactic(auto, unfolding(crate::specs::TrialMeaning::size_text))]
fn put_size<O: Sink>(out: &mut O, index: &IndexFile) -> Result<(), WriteFault>
    ensures { Wrote O.written O.faults O.rest out.old out.new (size_text index.now.index) result }
{
    let totals = index.totals();
    let mut docs = Buffer::new();
    let mut terms = Buffer::new();
    let mut postings = Buffer::new();
    let mut segments = Buffer::new();
    put_all(
        out,
        &[
            b"documents ",
            docs.format(totals.docs).as_bytes(),
            b" terms ",
            terms.format(totals.terms).as_bytes(),
            b" postings ",
            postings.format(totals.postings).as_bytes(),
            b" segments ",
            segments.format(segments_of(index)).as_bytes(),
        ],
    )
}

#[tactic(auto, unfolding(crate::specs::TrialMeaning::codecs_text))]
fn put_codecs<O: Sink>(out: &mut O, uses: CodecUse) -> Result<(), WriteFault>
    ensures { Wrote O.written O.faults O.rest out.old out.new (codecs_text uses) result }
{
    let mut varbyte = Buffer::new();
    let mut packed = Buffer::new();
    let mut bitmap = Buffer::new();
    let mut simple8 = Buffer::new();
    put_all(
        out,
        &[
            b" codecs ",
            varbyte.format(uses.varbyte).as_bytes(),
            b" ",
            packed.format(uses.packed).as_bytes(),
            b" ",
            bitmap.format(uses.bitmap).as_bytes(),
            b" ",
            simple8.format(uses.simple8).as_bytes(),
            b"\n",
        ],
    )
}

/// How many segments an index has.
fn segments_of(index: &IndexFile) -> u64
    ensures { result ≡ index_segments index.now.index }
{
    let mut segments = 0;
    for term in 0..index.terms() {
        segments += u64::from(index.segments(term));
    }
    segments
}

/// Puts the line of a budget.
#[tactic(auto, unfolding(crate::specs::TrialMeaning::sum_line))]
fn put_sum<O: Sink>(out: &mut O, budget: &[u8], sum: BudgetSum) -> Result<(), WriteFault>
    ensures { Wrote O.written O.faults O.rest out.old out.new (budget_text budget.now sum) result }
{
    let mut postings = Buffer::new();
    let mut finals = Buffer::new();
    let mut scores = Buffer::new();
    put_sum_pieces(
        out,
        budget,
        postings.format(sum.postings).as_bytes(),
        finals.format(sum.finals).as_bytes(),
        scores.format(sum.scores).as_bytes(),
    )
}

/// Puts the pieces of that line, which have one lifetime so that they lie in one array.
fn put_sum_pieces<'x, O: Sink>(
    out: &mut O,
    budget: &'x [u8],
    postings: &'x [u8],
    finals: &'x [u8],
    scores: &'x [u8],
) -> Result<(), WriteFault>
    ensures { Wrote O.written O.faults O.rest out.old out.new (codes "budget " ++ (budget.now
        ++ (codes " postings " ++ (postings.now ++ (codes " final " ++ (finals.now
        ++ (codes " scores " ++ (scores.now ++ codes "\n")))))))) result }
{
    put_all(
        out,
        &[
            b"budget ",
            budget,
            b" postings ",
            postings,
            b" final ",
            finals,
            b" scores ",
            scores,
            b"\n",
        ],
    )
}
