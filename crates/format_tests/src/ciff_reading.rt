// The file of one term and three documents, cut at each place and with single bytes
// changed, spellings that are not the shortest, and files at the limits.

ghost use Rattle.std.specs.Prelude.{◌<◌};

use ciff_read::{CiffFault, read_collection};
use std::alloc::Global;
use std::process::Abort;

pub(crate) const FILE: [u8; 71] = [
    0x15, 0x08, 0x01, 0x10, 0x01, 0x18, 0x03, 0x20, 0x01, 0x28, 0x03, 0x30, 0x0f, 0x39, 0x00, 0x00,
    0x00, 0x00, 0x00, 0x00, 0x14, 0x40, 0x17, 0x0a, 0x01, 0x61, 0x10, 0x03, 0x18, 0x0f, 0x22, 0x02,
    0x10, 0x09, 0x22, 0x04, 0x08, 0x01, 0x10, 0x05, 0x22, 0x04, 0x08, 0x01, 0x10, 0x01, 0x06, 0x12,
    0x02, 0x64, 0x30, 0x18, 0x09, 0x08, 0x08, 0x01, 0x12, 0x02, 0x64, 0x31, 0x18, 0x05, 0x08, 0x08,
    0x02, 0x12, 0x02, 0x64, 0x32, 0x18, 0x01,
];

/// The same collection: df in a longer varint, the first record's fields in another order
/// and with one that is unknown.
const OTHER: [u8; 74] = [
    0x15, 0x08, 0x01, 0x10, 0x01, 0x18, 0x03, 0x20, 0x01, 0x28, 0x03, 0x30, 0x0f, 0x39, 0x00, 0x00,
    0x00, 0x00, 0x00, 0x00, 0x14, 0x40, 0x18, 0x0a, 0x01, 0x61, 0x10, 0x83, 0x00, 0x18, 0x0f, 0x22,
    0x02, 0x10, 0x09, 0x22, 0x04, 0x08, 0x01, 0x10, 0x05, 0x22, 0x04, 0x08, 0x01, 0x10, 0x01, 0x08,
    0x18, 0x09, 0x12, 0x02, 0x64, 0x30, 0x48, 0x05, 0x08, 0x08, 0x01, 0x12, 0x02, 0x64, 0x31, 0x18,
    0x05, 0x08, 0x08, 0x02, 0x12, 0x02, 0x64, 0x32, 0x18, 0x01,
];

/// Whether reading a file answers so: the refusal's number and place, and 0 at the number of documents
/// for a file that is accepted.
fn answers(alloc: Global, bytes: &[u8], number: u32, at: u64) -> bool {
    answer(alloc, bytes) == (number, at)
}

/// What reading a file answers.
fn answer(alloc: Global, bytes: &[u8]) -> (u32, u64) {
    match read_collection(alloc, bytes) {
        Ok(collection) => {
            let docs = collection.docs.len() as u64;
            drop(collection);
            (0, docs)
        }
        Err(fault) => told(fault),
    }
}

/// The number and place of a refusal, and other numbers for other faults.
pub(crate) fn told(fault: CiffFault) -> (u32, u64) {
    match fault {
        CiffFault::Refused(refusal) => (refusal.why.number(), refusal.at),
        CiffFault::ReadFault => (4, 0),
        CiffFault::NoMemory => (1, 0),
    }
}

/// The file with one byte changed.
fn changed(place: usize, byte: u8) -> [u8; 71]
    requires { place < 71 }
{
    let mut bytes = FILE;
    bytes[place] = byte;
    bytes
}

/// A file, and what its reading answers.
pub(crate) type Case<'a> = (&'a [u8], u32, u64);

fn check_answers(rt: &impl Abort, alloc: Global, cases: &[Case<'_>]) {
    for (bytes, number, at) in cases {
        assert!(rt; answers(alloc, bytes, *number, *at));
    }
}

const ACCEPTED: [Case<'static>; 3] = [(&FILE, 0, 3), (&OTHER, 0, 3), (b"\x00", 0, 0)];

#[test]
fn files_are_accepted(rt: HostRuntime) {
    check_answers(&rt, rt.alloc(), &ACCEPTED);
}

#[test]
fn files_are_refused(rt: HostRuntime) {
    let without_gap = changed(37, 0);
    let other_wire = changed(26, 0x13);
    check_answers(
        &rt,
        rt.alloc(),
        &[
            (b"\x00\x00", 21, 1),
            (&without_gap, 15, 34),
            (&other_wire, 12, 26),
        ],
    );
}

/// Where the message begins that a file of so many bytes cuts.
fn cut_message(end: usize) -> u64 {
    match end {
        0..=21 => 0,
        22..=45 => 22,
        46..=52 => 46,
        53..=61 => 53,
        _ => 62,
    }
}

fn check_cuts(rt: &impl Abort, alloc: Global) {
    for end in 0..71 {
        assert!(rt; answers(alloc, &FILE[..end], 10, cut_message(end)));
    }
}

#[test]
fn cut_files_are_refused_at_the_cut_message(rt: HostRuntime) {
    check_cuts(&rt, rt.alloc());
}

const HEADERS: [Case<'static>; 9] = [
    // lists
    (b"\x05\x10\x80\x80\x80\x08", 10, 6),
    (b"\x05\x10\x81\x80\x80\x08", 22, 0),
    // documents
    (b"\x05\x18\x80\x80\x80\x20", 10, 6),
    (b"\x05\x18\x81\x80\x80\x20", 22, 0),
    // the version
    (b"\x06\x08\xff\xff\xff\xff\x07", 0, 0),
    (b"\x06\x08\x80\x80\x80\x80\x08", 13, 0),
    // the end of the message
    (b"\xfb\xff\xff\xff\x0f", 10, 0),
    (b"\xfc\xff\xff\xff\x0f", 22, 0),
    (b"\xff\xff\xff\xff\xff\xff\xff\xff\xff\x02", 11, 0),
];

#[test]
fn headers_are_judged_at_the_limits(rt: HostRuntime) {
    check_answers(&rt, rt.alloc(), &HEADERS);
}

/// The front of a file, and the letter `a` so often.
fn filled(rt: &impl Abort, alloc: Global, front: &[u8], count: u32) -> Vec<u8> {
    let mut bytes = Vec::from_slice(alloc, front).expect(rt, "memory");
    bytes
        .resize(front.len() + count as usize, b'a')
        .expect(rt, "memory");
    bytes
}

/// The front of a file, how often the letter `a` follows, and what its reading answers.
type Filled<'a> = (&'a [u8], u32, u32, u64);

const TEXTS: [Filled<'static>; 4] = [
    // a list whose term has 65,535 bytes, and 65,536
    (b"\x02\x10\x01\x83\x80\x04\x0a\xff\xff\x03", 65_535, 0, 0),
    (b"\x02\x10\x01\x84\x80\x04\x0a\x80\x80\x04", 65_536, 22, 3),
    // a document whose name has 1,048,576 bytes, and 1,048,577
    (b"\x02\x18\x01\x84\x80\x40\x12\x80\x80\x40", 1_048_576, 0, 1),
    (
        b"\x02\x18\x01\x85\x80\x40\x12\x81\x80\x40",
        1_048_577,
        20,
        3,
    ),
];

fn check_texts(rt: &impl Abort, alloc: Global, texts: &[Filled<'_>]) {
    for (front, count, number, at) in texts {
        assert!(rt; answers_filled(rt, alloc, front, *count, *number, *at));
    }
}

/// Whether reading the front of a file, and the letter `a` so often, answers so.
fn answers_filled(
    rt: &impl Abort,
    alloc: Global,
    front: &[u8],
    count: u32,
    number: u32,
    at: u64,
) -> bool {
    let bytes = filled(rt, alloc, front, count);
    let answer = answers(alloc, bytes.as_slice(), number, at);
    drop(bytes);
    answer
}

#[test]
fn texts_are_judged_at_the_limits(rt: HostRuntime) {
    check_texts(&rt, rt.alloc(), &TEXTS);
}
