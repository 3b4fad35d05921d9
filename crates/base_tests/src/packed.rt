// Payloads of packed lanes, and bytes that are none.

ghost use Rattle.std.specs.Prelude.{◌≡◌, ◌≤◌, length};
ghost use Rattle.jass_base.specs.Gaps.{AreDocs};
ghost use Rattle.codec_packed.specs.Packing.{packed_of};

use crate::lists::{Judged, MOST_DOCS, are_docs, goes_on, is_count, part, rising, to_the_last};
use codec_packed::{Cursor, check, encode, length};
use jass_base::{NoMemory, PayloadFault, Row};
use std::alloc::Global;
use std::process::Abort;

/// A block whose first gap is 0, and the 127 others 1.
const ONES: [u8; 17] = [
    0x01, 0xfe, 0xff, 0xff, 0xff, 0xff, 0xff, 0xff, 0xff, 0xff, 0xff, 0xff, 0xff, 0xff, 0xff, 0xff,
    0xff,
];

/// A block of ones at the width 2, where the width 1 holds them.
const TOO_WIDE: [u8; 33] = [
    0x02, 0x55, 0x55, 0x55, 0x55, 0x55, 0x55, 0x55, 0x55, 0x55, 0x55, 0x55, 0x55, 0x55, 0x55, 0x55,
    0x55, 0x55, 0x55, 0x55, 0x55, 0x55, 0x55, 0x55, 0x55, 0x55, 0x55, 0x55, 0x55, 0x55, 0x55, 0x55,
    0x55,
];

const FAULTS: [Judged<'static>; 10] = [
    (&[], 1, 4, Err(PayloadFault::Cut)),
    (&[], 128, 128, Err(PayloadFault::Cut)),
    (&[0x01, 0xff], 128, 255, Err(PayloadFault::Cut)),
    (&[0x21], 128, 128, Err(PayloadFault::Shape)),
    (&[0x11; 33], 128, MOST_DOCS, Err(PayloadFault::Cut)),
    (&[0x80, 0x00], 1, 4, Err(PayloadFault::Shape)),
    (&[0x05], 1, 4, Err(PayloadFault::DocRange)),
    (&[0x00, 0x00], 1, 4, Err(PayloadFault::Longer)),
    (&[0x00, 0x00], 128, 128, Err(PayloadFault::Longer)),
    (&TOO_WIDE, 128, MOST_DOCS, Err(PayloadFault::Shape)),
];

/// Each row is judged as stands in it.
fn check_rows(rt: &impl Abort, rows: &[Judged<'_>]) {
    for (bytes, count, d, judged) in rows {
        assert!(rt; is_count(*count, *d) && check(bytes, *count, *d) == *judged);
    }
}

#[test]
fn faults_are_told(rt: HostRuntime) {
    check_rows(&rt, &FAULTS);
}

/// Whether a cursor gives these documents, and then no more.
fn gives(docs: &[u32], d: u32, bytes: &[u8]) -> bool
    requires docs { AreDocs d docs.now }
    requires few { length docs.now ≤ d }
    requires bytes { bytes.now ≡ packed_of docs.now }
{
    let mut cursor = Cursor::new(docs.len() as u32, d);
    let mut block = [0; 128];
    let mut at = 0;
    while at < docs.len() {
        let count = cursor.next_block(bytes, &mut block);
        if !goes_on(docs, at, &block, count) {
            return false;
        }
        at += count;
    }
    cursor.next_block(bytes, &mut block) == 0
}

/// Whether these are documents, and these bytes their payload by each call of the codec.
fn spells(alloc: Global, docs: &[u32], d: u32, payload: &[u8]) -> Result<bool, NoMemory> {
    if !are_docs(docs, d) {
        return Ok(false);
    }
    let mut row = Row::new(alloc);
    encode(docs, d, &mut row)?;
    Ok(
        row.as_slice() == payload
            && length(docs, d) == payload.len() as u64
            && check(payload, docs.len() as u32, d) == Ok(())
            && gives(docs, d, row.as_slice()),
    )
}

fn check_payload(rt: &impl Abort, alloc: Global, docs: &[u32], d: u32, payload: &[u8]) {
    assert!(rt; spells(alloc, docs, d, payload).is_ok_and(|same| same));
}

#[test]
fn lists_have_their_payloads(rt: HostRuntime) {
    let alloc = rt.alloc();
    let far = to_the_last();
    check_payload(&rt, alloc, part(&far, 0, 128), 128, &[0x00]);
    check_payload(
        &rt,
        alloc,
        part(&far, 0, 129),
        MOST_DOCS,
        &[0x00, 0xff, 0xfe, 0xff, 0x1f],
    );
    check_payload(&rt, alloc, part(&rising(0, 2), 0, 128), 255, &ONES);
    check_payload(&rt, alloc, &[1, 4, 8], 9, &[0x01, 0x02, 0x03]);
    check_payload(&rt, alloc, &[7], 8, &[0x07]);
}
