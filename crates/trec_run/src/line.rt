ghost use Rattle.std.specs.Prelude.{IsTrue};
ghost use Rattle.ranking_model.specs.Report.{run_line};
ghost use Rattle.gathered_text.specs.Gathering.{Gathers};
ghost use Rattle.trec_run.specs.Private.Columns.{AreShort, whole_tag};

use gathered_text::{Buffer, gather_all};
use itoa::Buffer as Digits;
use jass_base::{Sink, WriteFault};

/// The most bytes of a name in a line that is pushed as a whole.
pub const SHORT: usize = 128;

/// The most bytes of the id in such a line.
const SHORT_ID: usize = 60;

/// The most bytes of the tag, with its point and its part, in such a line.
const SHORT_TAG: usize = 51;

/// The room that is asked for such a line, of which it needs 277 bytes at the most.
pub const SHORT_LINE: usize = 1024;

/// The columns that the run lines of an answer share; the tag has a point and a part behind it, or two texts without
/// bytes.
#[derive(Clone, Copy)]
pub struct Shared<'a> {
    pub id: &'a [u8],
    pub tag: &'a [u8],
    pub point: &'a [u8],
    pub part: &'a [u8],
}

impl<'a> Shared<'a> {
    /// Whether what stands before the name, and what stands behind the rank with any score, are short texts.
    pub fn are_short(&self) -> bool
        ensures { IsTrue result → AreShort self.now }
    {
        let tag = self.tag.len().saturating_add(self.point.len());
        self.id.len() <= SHORT_ID && tag.saturating_add(self.part.len()) <= SHORT_TAG
    }
}

/// Gathers a run line piece by piece.
pub fn gather_line<O: Sink>(
    out: &mut O,
    buffer: &mut Buffer,
    shared: &Shared<'_>,
    name: &[u8],
    rank: u64,
    score: u32,
) -> Result<(), WriteFault>
    ensures { Gathers O.written O.faults O.rest out.old out.new buffer.old buffer.new
        (run_line shared.now.id.now name.now (whole_tag shared.now) rank score) result }
{
    let mut rank_digits = Digits::new();
    let mut score_digits = Digits::new();
    gather_all(
        out,
        buffer,
        &[
            shared.id,
            b" Q0 ",
            name,
            b" ",
            rank_digits.format(rank).as_bytes(),
            b" ",
            score_digits.format(score).as_bytes(),
            b" ",
            shared.tag,
            shared.point,
            shared.part,
            b"\n",
        ],
    )
}
