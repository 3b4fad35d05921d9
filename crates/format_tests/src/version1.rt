// The file of three documents with the term `a` at the impacts 9, 5 and 1.

use index_layout::{OpenWhy, refused};
use index_version1::read_version1;
use jass_base::{ImpactIndex, PayloadFault, TermSegments, Text};
use std::alloc::Global;
use std::process::Abort;

const SMALL: [u8; 105] = [
    74, 65, 83, 83, 73, 68, 88, 49, 105, 0, 0, 0, 0, 0, 0, 0, 3, 0, 0, 0, 1, 0, 0, 0, 3, 0, 0, 0,
    0, 0, 0, 0, 9, 0, 0, 0, 0, 0, 0, 0, 0, 0, 0, 0, 2, 0, 0, 0, 4, 0, 0, 0, 6, 0, 0, 0, 100, 48,
    100, 49, 100, 50, 1, 0, 97, 3, 0, 0, 0, 9, 0, 1, 0, 0, 0, 0, 1, 0, 0, 0, 5, 0, 1, 0, 0, 0, 0,
    1, 0, 0, 0, 1, 0, 1, 0, 0, 0, 0, 1, 0, 0, 0, 0, 1, 2,
];

#[test]
fn the_small_file_is_read(rt: HostRuntime) {
    check_small(&rt, rt.alloc());
}

fn check_small(rt: &impl Abort, alloc: Global) {
    let index = read_version1(alloc, &SMALL).expect(rt, "an index");
    let small = is_small(&index);
    drop(index);
    assert!(rt; small);
}

/// A place and its new byte, and where the file is refused then, and why.
const CHANGED: [(usize, u8, usize, OpenWhy); 12] = [
    (7, 50, 0, OpenWhy::Magic),
    (8, 104, 8, OpenWhy::Length),
    (36, 1, 36, OpenWhy::Totals),
    (40, 1, 40, OpenWhy::Names),
    (48, 2, 48, OpenWhy::Names),
    (58, 32, 58, OpenWhy::Names),
    (64, 255, 62, OpenWhy::TermOrder),
    (65, 0, 65, OpenWhy::Heads),
    (80, 9, 80, OpenWhy::Heads),
    (104, 3, 104, OpenWhy::Payload(PayloadFault::DocRange)),
    (104, 0, 104, OpenWhy::DocTwice),
    (32, 8, 32, OpenWhy::Totals),
];

fn check_changed(rt: &impl Abort, alloc: Global, rows: &[(usize, u8, usize, OpenWhy)]) {
    for (place, byte, at, why) in rows {
        assert!(rt; is_refused(alloc, *place, *byte, 105, *at, *why));
    }
}

/// The file is refused wherever it is cut.
fn check_cuts(rt: &impl Abort, alloc: Global) {
    for count in 0..105 {
        let (at, why) = refusal_of_cut(count);
        assert!(rt; is_refused(alloc, 8, 105, count, at, why));
    }
}

/// The same where its front tells the length that is left.
fn check_counted_cuts(rt: &impl Abort, alloc: Global) {
    for count in 8..105 {
        let at = place_of_cut(count);
        assert!(rt; is_refused(alloc, 8, count as u8, count, at, OpenWhy::Length));
    }
}

#[test]
fn changed_bytes_are_refused(rt: HostRuntime) {
    check_changed(&rt, rt.alloc(), &CHANGED);
    check_cuts(&rt, rt.alloc());
    check_counted_cuts(&rt, rt.alloc());
}

/// Where so many bytes of the file are refused, and why.
fn refusal_of_cut(count: usize) -> (usize, OpenWhy) {
    match count {
        0..8 => (0, OpenWhy::Magic),
        _ => (8, OpenWhy::Length),
    }
}

/// Where so many bytes of the file are refused that are told to be all.
fn place_of_cut(count: usize) -> usize {
    match count {
        8..40 => 8,
        40..56 => 40,
        56..62 => 56,
        62..69 => 62,
        69..80 => 69,
        80..91 => 80,
        91..102 => 91,
        _ => count,
    }
}

fn is_small(index: &ImpactIndex) -> bool {
    has_names(index.names.as_slice()) && has_term(index.terms.as_slice()) && index.greatest == 9
}

fn has_names(names: &[Text]) -> bool {
    names.len() == 3 && names[2].as_str() == "d2"
}

fn has_term(terms: &[TermSegments]) -> bool {
    match terms {
        [only] => only.term.as_str() == "a" && only.segments.len() == 3,
        _ => false,
    }
}

/// Whether so many bytes of the file, with this byte at a place, are refused so.
fn is_refused(
    alloc: Global,
    place: usize,
    byte: u8,
    count: usize,
    at: usize,
    why: OpenWhy,
) -> bool {
    let mut bytes = SMALL;
    if place >= bytes.len() || count > bytes.len() {
        return false;
    }
    bytes[place] = byte;
    read_version1(alloc, &bytes[..count]).err() == Some(refused(at, why))
}
