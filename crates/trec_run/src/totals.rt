ghost use Rattle.jass_base.specs.Outside.{Wrote};
ghost use Rattle.trec_run.specs.Totals.{totals_line};

use gathered_text::put_all;
use itoa::Buffer;
use jass_base::{Sink, Totals, WriteFault};

/// Puts the totals line of an index on the sink. After a WriteFault a prefix of the line was put.
pub fn put_totals<S: Sink>(out: &mut S, totals: Totals) -> Result<(), WriteFault>
    ensures { Wrote S.written S.faults S.rest out.old out.new (totals_line totals) result }
{
    let mut docs = Buffer::new();
    let mut terms = Buffer::new();
    let mut postings = Buffer::new();
    let mut greatest = Buffer::new();
    put_all(
        out,
        &[
            b"documents ",
            docs.format(totals.docs).as_bytes(),
            b" terms ",
            terms.format(totals.terms).as_bytes(),
            b" postings ",
            postings.format(totals.postings).as_bytes(),
            b" greatest ",
            greatest.format(totals.greatest).as_bytes(),
            b"\n",
        ],
    )
}
