ghost use Rattle.std.specs.Prelude.{ℕ, ◌≡◌, ◌≤◌, List, IfOk};
ghost use Rattle.jass_base.specs.Gaps.{AreDocs};
ghost use Rattle.segment_codecs.specs.Codecs.{read_payload};
ghost use Rattle.segment_codecs.specs.Giving.{Gives};
ghost use Rattle.index_layout.specs.Reading.{payload_placed};
ghost use Rattle.index_layout.specs.Refusals.{Answers};
ghost use Rattle.jass_base.specs.declared.limits.TheConstants.{MOST_DOCUMENTS};

use crate::head::Head;
use index_layout::{OpenFault, OpenWhy, refused};
use jass_base::{NoMemory, Row};
use segment_codecs::laws::payloads_are_read;
use segment_codecs::{SegmentCursor, check};
use std::alloc::Global;

/// The documents that a cursor still gives.
fn give_all(alloc: Global, from: SegmentCursor, payload: &[u8]) -> Result<Row<u32>, NoMemory>
    requires { (docs : List ℕ) × Gives from payload.now docs }
    ensures { (docs : List ℕ) → Gives from payload.now docs → IfOk result (λ row. row ≡ docs) }
{
    let mut cursor = from;
    let mut block = [0; 128];
    let mut docs = Row::new(alloc);
    'pieces: loop {
        let given = cursor.next_block(payload, &mut block);
        if given == 0 {
            return Ok(docs);
        }
        docs.extend(&block[..given])?;
    }
}

/// The documents of a segment, whose payload stands at a place.
pub fn read_docs(
    alloc: Global,
    payload: &[u8],
    head: Head,
    d: u32,
    at: usize,
) -> Result<Row<u32>, OpenFault>
    requires some { 1 ≤ head.count }
    requires few { head.count ≤ d }
    requires limit { d ≤ MOST_DOCUMENTS }
    ensures docs { IfOk result (AreDocs d) }
    ensures exact { Answers (λ docs. docs) result
        (payload_placed at (read_payload head.codec d head.count payload.now)) }
{
    match check(head.codec, payload, head.count, d) {
        Ok(()) => {}
        Err(fault) => return Err(refused(at, OpenWhy::Payload(fault))),
    }
    payloads_are_read();
    let cursor = SegmentCursor::new(head.codec, head.count, d);
    match give_all(alloc, cursor, payload) {
        Ok(docs) => Ok(docs),
        Err(_) => Err(OpenFault::NoMemory),
    }
}
