// Payloads of words of 64 bits, and bytes that are none.

ghost use Rattle.std.specs.Prelude.{◌≡◌, ◌≤◌, length};
ghost use Rattle.jass_base.specs.Gaps.{AreDocs};
ghost use Rattle.codec_simple8.specs.Simple8.{simple8_of};

use crate::lists::{Judged, MOST_DOCS, are_docs, goes_on, is_count, part, rising, to_the_last};
use codec_simple8::{Cursor, check, check_into, encode, length, length_below};
use jass_base::{NoMemory, PayloadFault, Row};
use std::alloc::Global;
use std::process::Abort;

const SCATTERED: [u8; 8] = [0x1d, 0, 0, 2, 0, 0x30, 0, 0];

const FULL: [u8; 8] = [0x01, 0, 0, 0, 0, 0, 0, 0];

const RUNS: [u8; 24] = [
    0x12, 0, 0, 0, 0, 0, 0, 0, 0x01, 0, 0, 0, 0, 0, 0, 0, 0x02, 0, 0, 0, 0, 0, 0, 0,
];

/// Three gaps of 0 in two words, where one word holds them: the first selector is greater than the least.
const GREATER: [u8; 16] = [0x0e, 0, 0, 0, 0, 0, 0, 0, 0x0f, 0, 0, 0, 0, 0, 0, 0];

const JUDGED: [Judged<'static>; 8] = [
    (&[], 1, 9, Err(PayloadFault::Cut)),
    (
        &[0x02, 0, 0, 0, 0, 0, 0, 0],
        59,
        100,
        Err(PayloadFault::Shape),
    ),
    (
        &[0x5f, 0, 0, 0, 0, 0, 0, 0],
        1,
        5,
        Err(PayloadFault::DocRange),
    ),
    (
        &[0x4f, 0, 0, 0, 0, 0, 0, 0, 0],
        1,
        5,
        Err(PayloadFault::Longer),
    ),
    (&[0x02, 0, 0, 0, 0, 0, 0, 0], 60, 100, Ok(())),
    (&GREATER, 3, 9, Err(PayloadFault::Shape)),
    (&[0x0d, 0, 0, 0, 0, 0, 0, 0], 3, 9, Ok(())),
    // A bit that no gap uses.
    (
        &[0x11, 0, 0, 0, 0, 0, 0, 0],
        120,
        200,
        Err(PayloadFault::Shape),
    ),
];

/// Each row is judged as stands in it.
fn check_rows(rt: &impl Abort, rows: &[Judged<'_>]) {
    for (bytes, count, d, judged) in rows {
        assert!(rt; is_count(*count, *d) && check(bytes, *count, *d) == *judged);
    }
}

#[test]
fn faults_are_told_in_order(rt: HostRuntime) {
    check_rows(&rt, &JUDGED);
}

/// Whether a cursor gives these documents, and then no more.
fn gives(docs: &[u32], d: u32, bytes: &[u8]) -> bool
    requires docs { AreDocs d docs.now }
    requires few { length docs.now ≤ d }
    requires bytes { bytes.now ≡ simple8_of docs.now }
{
    let mut cursor = Cursor::new(docs.len() as u32, d);
    let mut block = [0; 128];
    let mut at = 0;
    while at < docs.len() {
        let count = cursor.next_block(bytes, &mut block);
        if !goes_on(docs, at, &block, count) {
            return false;
        }
        at += count;
    }
    cursor.next_block(bytes, &mut block) == 0
}

/// Whether these are documents, and these bytes their payload by each call of the codec.
fn spells(alloc: Global, docs: &[u32], d: u32, payload: &[u8]) -> Result<bool, NoMemory> {
    if !are_docs(docs, d) {
        return Ok(false);
    }
    let mut row = Row::new(alloc);
    encode(docs, d, &mut row)?;
    Ok(
        row.as_slice() == payload
            && check(payload, docs.len() as u32, d) == Ok(())
            && gives(docs, d, row.as_slice()),
    )
}

fn check_payload(rt: &impl Abort, alloc: Global, docs: &[u32], d: u32, payload: &[u8]) {
    assert!(rt; spells(alloc, docs, d, payload).is_ok_and(|same| same));
}

#[test]
fn payloads_are_as_worked_out(rt: HostRuntime) {
    let alloc = rt.alloc();
    let docs = rising(0, 1);
    check_payload(&rt, alloc, &[1, 4, 8], 9, &SCATTERED);
    check_payload(&rt, alloc, part(&docs, 0, 120), 1_048_576, &FULL);
    check_payload(&rt, alloc, part(&docs, 1, 241), 241, &RUNS);
}

fn has_length(docs: &[u32], d: u32, bytes: u64) -> bool {
    are_docs(docs, d)
        && length(docs, d) == bytes
        && length_below(docs, d, u64::MAX) == Some(bytes)
        && length_below(docs, d, bytes).is_none()
}

#[test]
fn lengths_are_as_worked_out(rt: HostRuntime) {
    let far = to_the_last();
    assert!(rt; has_length(part(&far, 0, 128), 128, 16));
    assert!(rt; has_length(part(&far, 0, 129), MOST_DOCS, 24));
    assert!(rt; has_length(part(&rising(0, 2), 0, 128), 255, 24));
}

/// Gaps of each width that a word of more than one has.
const GAPS: [u32; 14] = [
    0, 1, 3, 6, 13, 29, 61, 120, 254, 1_021, 4_093, 32_761, 300_007, 1_048_576,
];

/// The documents with a gap again and again, of which the first is 1.
fn spread(gap: u32) -> [u32; 64] {
    let mut docs = [1u32; 64];
    for i in 1..64 {
        docs[i] = docs[i - 1].wrapping_add(gap).wrapping_add(1);
    }
    docs
}

/// The documents but the last five.
fn but_five(docs: &[u32; 64]) -> &[u32] {
    &docs[..59]
}

/// Whether the check puts these documents into a block that has no more room.
fn are_put(docs: &[u32], d: u32, bytes: &[u8]) -> bool {
    let mut block = [0u32; 64];
    let len = docs.len();
    if len > 64 || !is_count(len as u32, d) {
        return false;
    }
    check_into(bytes, len as u32, d, &mut block[..len]) == Ok(()) && block[..len] == docs[..]
}

/// Whether documents come back from their payload, which is right.
fn come_back(alloc: Global, docs: &[u32], d: u32) -> Result<bool, NoMemory> {
    if !are_docs(docs, d) {
        return Ok(false);
    }
    let mut row = Row::new(alloc);
    encode(docs, d, &mut row)?;
    Ok(are_put(docs, d, row.as_slice()) && gives(docs, d, row.as_slice()))
}

/// Lists of each gap come back, also shorter ones, whose last words are others.
fn check_gaps(rt: &impl Abort, alloc: Global, gaps: &[u32]) {
    for gap in gaps {
        let docs = spread(*gap);
        assert!(rt; come_back(alloc, &docs, MOST_DOCS).is_ok_and(|same| same));
        assert!(rt; come_back(alloc, but_five(&docs), MOST_DOCS).is_ok_and(|same| same));
    }
}

#[test]
fn gaps_of_each_width_come_back(rt: HostRuntime) {
    check_gaps(&rt, rt.alloc(), &GAPS);
}
