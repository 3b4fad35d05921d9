// Payloads of both plain codecs, and bytes that are none.

ghost use Rattle.std.specs.Prelude.{◌≡◌, ◌≤◌, length};
ghost use Rattle.jass_base.specs.Gaps.{AreDocs};
ghost use Rattle.plain_codecs.specs.Bitmap.{bitmap_of};
ghost use Rattle.plain_codecs.specs.Varbyte.{varbyte_of};

use crate::lists::{Judged, MOST_DOCS, are_docs, goes_on, is_count, part, rising, to_the_last};
use jass_base::{NoMemory, PayloadFault, Row};
use plain_codecs::{bitmap, varbyte};
use std::alloc::Global;
use std::process::Abort;

const VARBYTE_FAULTS: [Judged<'static>; 5] = [
    (&[0x80, 0x00], 1, 200, Err(PayloadFault::Shape)),
    (&[0x05], 1, 4, Err(PayloadFault::DocRange)),
    (&[0x00, 0x00], 1, 4, Err(PayloadFault::Longer)),
    (&[], 1, 4, Err(PayloadFault::Cut)),
    (&[0x01; 40], 40, 79, Err(PayloadFault::DocRange)),
];

const BITMAP_FAULTS: [Judged<'static>; 4] = [
    (&[0x80], 1, 4, Err(PayloadFault::DocRange)),
    (&[0x03], 1, 4, Err(PayloadFault::Shape)),
    (&[0x01, 0x00], 1, 4, Err(PayloadFault::Longer)),
    (&[], 1, 4, Err(PayloadFault::Cut)),
];

fn check_varbyte_rows(rt: &impl Abort, rows: &[Judged<'_>]) {
    for (bytes, count, d, judged) in rows {
        assert!(rt; is_count(*count, *d) && varbyte::check(bytes, *count, *d) == *judged);
    }
}

fn check_bitmap_rows(rt: &impl Abort, rows: &[Judged<'_>]) {
    for (bytes, count, d, judged) in rows {
        assert!(rt; is_count(*count, *d) && bitmap::check(bytes, *count, *d) == *judged);
    }
}

#[test]
fn faults_are_told(rt: HostRuntime) {
    check_varbyte_rows(&rt, &VARBYTE_FAULTS);
    check_bitmap_rows(&rt, &BITMAP_FAULTS);
}

/// Three gaps, and behind them one that is spelled too long.
const FOUR_GAPS: [u8; 9] = [0x05, 0x81, 0x02, 0xff, 0xff, 0x01, 0x80, 0x00, 0x00];

/// Bytes, how many at their front are the payload, how many documents below which one they are to have, and what the
/// check says.
type Front<'a> = (&'a [u8], usize, u32, u32, Result<(), PayloadFault>);

const FRONTS: [Front<'static>; 5] = [
    (&FOUR_GAPS, 6, 3, MOST_DOCS, Ok(())),
    (&FOUR_GAPS, 6, 2, MOST_DOCS, Err(PayloadFault::Longer)),
    (&FOUR_GAPS, 5, 3, MOST_DOCS, Err(PayloadFault::Cut)),
    (&FOUR_GAPS, 6, 3, 33_031, Err(PayloadFault::DocRange)),
    (
        &[0x80, 0x00, 0x00],
        2,
        1,
        MOST_DOCS,
        Err(PayloadFault::Shape),
    ),
];

/// Whether the front of the bytes is judged as stands in the row, and gives these documents where it is right.
fn is_judged(row: &Front<'_>, docs: &[u32; 4]) -> bool {
    let (bytes, size, count, d, judged) = row;
    if !is_count(*count, *d) || *count > 4 || *size > bytes.len() {
        return false;
    }
    let mut out = [0u32; 4];
    let found = varbyte::check_front_into(bytes, *size, *count, *d, &mut out);
    found == *judged && (found.is_err() || out == *docs)
}

fn check_fronts(rt: &impl Abort, rows: &[Front<'_>]) {
    for row in rows {
        assert!(rt; is_judged(row, &[5, 263, 33_031, 0]));
    }
}

#[test]
fn a_payload_in_front_is_read(rt: HostRuntime) {
    check_fronts(&rt, &FRONTS);
}

/// Whether a cursor gives these documents, and then no more.
fn varbyte_gives(docs: &[u32], d: u32, bytes: &[u8]) -> bool
    requires docs { AreDocs d docs.now }
    requires few { length docs.now ≤ d }
    requires bytes { bytes.now ≡ varbyte_of docs.now }
{
    let mut cursor = varbyte::Cursor::new(docs.len() as u32, d);
    let mut block = [0; 128];
    let mut at = 0;
    while at < docs.len() {
        let count = cursor.next_block(bytes, &mut block);
        if !goes_on(docs, at, &block, count) {
            return false;
        }
        at += count;
    }
    cursor.next_block(bytes, &mut block) == 0
}

/// Whether these are documents, and these bytes their payload by each call of the codec.
fn spells_varbyte(alloc: Global, docs: &[u32], d: u32, payload: &[u8]) -> Result<bool, NoMemory> {
    if !are_docs(docs, d) {
        return Ok(false);
    }
    let mut row = Row::new(alloc);
    varbyte::encode(docs, d, &mut row)?;
    Ok(
        row.as_slice() == payload
            && varbyte::length(docs, d) == payload.len() as u64
            && varbyte::check(payload, docs.len() as u32, d) == Ok(())
            && varbyte_gives(docs, d, row.as_slice()),
    )
}

fn check_varbyte(rt: &impl Abort, alloc: Global, docs: &[u32], d: u32, payload: &[u8]) {
    assert!(rt; spells_varbyte(alloc, docs, d, payload).is_ok_and(|same| same));
}

/// 128 gaps of 0, and that of the last document.
fn far_gaps() -> [u8; 132] {
    let mut bytes = [0u8; 132];
    bytes[128..].copy_from_slice(&[0xff, 0xfe, 0xff, 0x1f]);
    bytes
}

#[test]
fn varbyte_spells_the_gaps(rt: HostRuntime) {
    let alloc = rt.alloc();
    let far = to_the_last();
    check_varbyte(&rt, alloc, &[1, 4, 8], 9, &[0x01, 0x02, 0x03]);
    check_varbyte(&rt, alloc, part(&far, 0, 128), 128, &[0; 128]);
    check_varbyte(&rt, alloc, part(&far, 0, 129), MOST_DOCS, &far_gaps());
}

/// Whether a cursor gives these documents, and then no more.
fn bitmap_gives(docs: &[u32], d: u32, bytes: &[u8]) -> bool
    requires docs { AreDocs d docs.now }
    requires few { length docs.now ≤ d }
    requires bytes { bytes.now ≡ bitmap_of d docs.now }
{
    let mut cursor = bitmap::Cursor::new(docs.len() as u32, d);
    let mut block = [0; 128];
    let mut at = 0;
    while at < docs.len() {
        let count = cursor.next_block(bytes, &mut block);
        if !goes_on(docs, at, &block, count) {
            return false;
        }
        at += count;
    }
    cursor.next_block(bytes, &mut block) == 0
}

/// Whether these are documents, and these bytes their payload by each call of the codec.
fn spells_bitmap(alloc: Global, docs: &[u32], d: u32, payload: &[u8]) -> Result<bool, NoMemory> {
    if !are_docs(docs, d) {
        return Ok(false);
    }
    let mut row = Row::new(alloc);
    bitmap::encode(docs, d, &mut row)?;
    Ok(
        row.as_slice() == payload
            && bitmap::length(docs, d) == payload.len() as u64
            && bitmap::check(payload, docs.len() as u32, d) == Ok(())
            && bitmap_gives(docs, d, row.as_slice()),
    )
}

fn check_bitmap(rt: &impl Abort, alloc: Global, docs: &[u32], d: u32, payload: &[u8]) {
    assert!(rt; spells_bitmap(alloc, docs, d, payload).is_ok_and(|same| same));
}

#[test]
fn a_bitmap_sets_the_bits(rt: HostRuntime) {
    let alloc = rt.alloc();
    check_bitmap(&rt, alloc, &[1, 4, 8], 9, &[0x12, 0x01]);
    check_bitmap(&rt, alloc, part(&rising(0, 1), 0, 128), 128, &[0xff; 16]);
    check_bitmap(&rt, alloc, part(&rising(0, 2), 0, 128), 255, &[0x55; 32]);
}

#[test]
fn a_bitmap_of_all_documents_is_measured(rt: HostRuntime) {
    let far = to_the_last();
    let docs = part(&far, 0, 129);
    assert!(&rt; are_docs(docs, MOST_DOCS) && bitmap::length(docs, MOST_DOCS) == 8_388_608);
}
