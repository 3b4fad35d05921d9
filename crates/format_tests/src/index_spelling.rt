// The bytes of small indexes, and what they count.

use crate::impacts::indexed;
use index_write::{SaveFault, bytes_within, index_bytes, totals};
use jass_base::{Row, Totals};
use std::alloc::Global;
use std::process::Abort;
use weights::{Bits, Rule};

/// The collection of the small file: three documents; `a`: (0,9), (1,5), (2,1).
pub(crate) const SMALL_LISTS: &[u8] = b"\x04\x10\x01\x18\x03\
    \x13\x0a\x01a\x22\x02\x10\x09\x22\x04\x08\x01\x10\x05\x22\x04\x08\x01\x10\x01\
    \x04\x12\x02d0\x06\x08\x01\x12\x02d1\x06\x08\x02\x12\x02d2";

/// The collection of the terms `car` and `cat`, each once in the first of three documents.
const CAR_CAT_LISTS: &[u8] = b"\x04\x10\x02\x18\x03\
    \x09\x0a\x03car\x22\x02\x10\x01\x09\x0a\x03cat\x22\x02\x10\x01\
    \x04\x12\x02d0\x06\x08\x01\x12\x02d1\x06\x08\x02\x12\x02d2";

/// Three documents with the term `a` at the impacts 9, 5 and 1.
pub(crate) const SMALL: [u8; 103] = [
    74, 65, 83, 83, 73, 68, 88, 50, 103, 0, 0, 0, 0, 0, 0, 0, 3, 0, 0, 0, 1, 0, 0, 0, 3, 0, 0, 0,
    0, 0, 0, 0, 9, 0, 0, 0, 0, 0, 0, 0, 2, 0, 0, 0, 100, 48, 2, 0, 0, 0, 100, 49, 2, 0, 0, 0, 100,
    50, 0, 0, 1, 0, 97, 3, 0, 0, 0, 9, 0, 1, 0, 0, 0, 0, 1, 0, 0, 0, 5, 0, 1, 0, 0, 0, 0, 1, 0, 0,
    0, 1, 0, 1, 0, 0, 0, 0, 1, 0, 0, 0, 0, 1, 2,
];

/// What stands behind the names where the terms are `car` and `cat`.
const CAR_CAT: [u8; 44] = [
    0, 0, 3, 0, 99, 97, 114, 1, 0, 0, 0, 1, 0, 1, 0, 0, 0, 0, 1, 0, 0, 0, 2, 0, 1, 0, 116, 1, 0, 0,
    0, 1, 0, 1, 0, 0, 0, 0, 1, 0, 0, 0, 0, 0,
];

const NO_DOCUMENTS: [u8; 40] = [
    74, 65, 83, 83, 73, 68, 88, 50, 40, 0, 0, 0, 0, 0, 0, 0, 0, 0, 0, 0, 0, 0, 0, 0, 0, 0, 0, 0, 0,
    0, 0, 0, 0, 0, 0, 0, 0, 0, 0, 0,
];

/// What the index of the terms `car` and `cat` counts.
const TOTALS_OF_TWO: Totals = Totals {
    docs: 3,
    terms: 2,
    postings: 2,
    greatest: 1,
};

/// A collection, and how its index is spelled from a place on.
type Spelled<'a> = (&'a [u8], usize, &'a [u8]);

const SPELLED: [Spelled<'static>; 3] = [
    (SMALL_LISTS, 0, &SMALL),
    (CAR_CAT_LISTS, 58, &CAR_CAT),
    (b"\x00", 0, &NO_DOCUMENTS),
];

fn check_spelled(rt: &impl Abort, alloc: Global, rows: &[Spelled<'_>]) {
    for (lists, from, wanted) in rows {
        assert!(rt; is_spelled(rt, alloc, lists, *from, wanted));
    }
}

#[test]
fn small_files_are_spelled(rt: HostRuntime) {
    check_spelled(&rt, rt.alloc(), &SPELLED);
}

/// How many bytes a file may have, and whether the small file, of 103, is made then. The first is what
/// its names, terms and postings show without a look at the documents.
const WITHIN: [(u64, bool); 4] = [(112, true), (103, true), (102, false), (0, false)];

#[test]
fn longer_files_are_not_made(rt: HostRuntime) {
    check_within(&rt, rt.alloc(), &WITHIN);
}

fn check_within(rt: &impl Abort, alloc: Global, rows: &[(u64, bool)]) {
    for (most, fits) in rows {
        assert!(rt; is_within(rt, alloc, *most, *fits));
    }
}

/// Whether the small file is made, or its length is told.
fn is_within(rt: &impl Abort, alloc: Global, most: u64, fits: bool) -> bool {
    let index = indexed(rt, alloc, SMALL_LISTS, Rule::Tf, Bits::Raw);
    let made = bytes_within(alloc, &index, most);
    drop(index);
    match made {
        Ok(bytes) => {
            let same = bytes.as_slice() == SMALL.as_slice();
            drop(bytes);
            same && fits
        }
        Err(fault) => fault == SaveFault::TooLarge { length: 103 } && !fits,
    }
}

#[test]
fn totals_are_counted(rt: HostRuntime) {
    check_totals(&rt, rt.alloc());
}

fn check_totals(rt: &impl Abort, alloc: Global) {
    let index = indexed(rt, alloc, CAR_CAT_LISTS, Rule::Tf, Bits::Raw);
    let counted = totals(&index);
    drop(index);
    assert!(rt; counted == TOTALS_OF_TWO);
}

/// Whether the bytes of the index of a collection, from a place on, are these.
fn is_spelled(rt: &impl Abort, alloc: Global, lists: &[u8], from: usize, wanted: &[u8]) -> bool {
    let bytes = spelled(rt, alloc, lists);
    let same = from <= bytes.len() && &bytes.as_slice()[from..] == wanted;
    drop(bytes);
    same
}

/// The bytes of the index of a collection.
fn spelled(rt: &impl Abort, alloc: Global, lists: &[u8]) -> Row<u8> {
    let index = indexed(rt, alloc, lists, Rule::Tf, Bits::Raw);
    let bytes = index_bytes(alloc, &index);
    drop(index);
    bytes.expect(rt, "bytes")
}
