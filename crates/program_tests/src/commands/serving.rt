// Lines of an input that are served at a desk over an index file.

ghost use Rattle.std.specs.Prelude.{◌<◌};

use super::{Left, NEVER, ONE_TERM, TWO_TERMS, cabinet_with, check_left, left_by, listed, put};
use itoa::Buffer;
use jass_base::{Failed, Feed, MemCabinet, MemFeed, Row, SliceFeed};
use std::alloc::Global;
use std::process::Abort;

/// A feed of so many bytes `x`, which it doesn't hold.
#[derive(Drop)]
struct Repeated {
    left: u64,
}

impl Feed for Repeated {
    ghost use Rattle.std.specs.Prelude.{None};

    ghost left = { λ _. None };

    ghost faults = { λ _. 0 };

    fn read(&mut self, buf: &mut [u8]) -> Result<usize, Failed> {
        let count = buf.len().min(self.left as usize);
        buf[..count].fill(b'x');
        self.left -= count as u64;
        Ok(count)
    }
}

/// The front of a collection of documents d0 to d299: its header; `cat`: (0,2), (299,1); `dog`: (1,3), (298,1).
const TWO_PAGES_FRONT: [u8; 69] = [
    0x18, 0x08, 0x01, 0x10, 0x02, 0x18, 0xac, 0x02, 0x20, 0x02, 0x28, 0xac, 0x02, 0x30, 0xaf, 0x02,
    0x39, 0x29, 0x5c, 0x8f, 0xc2, 0xf5, 0x28, 0xf0, 0x3f, 0x14, 0x0a, 0x03, 0x63, 0x61, 0x74, 0x10,
    0x02, 0x18, 0x03, 0x22, 0x02, 0x10, 0x02, 0x22, 0x05, 0x08, 0xab, 0x02, 0x10, 0x01, 0x16, 0x0a,
    0x03, 0x64, 0x6f, 0x67, 0x10, 0x02, 0x18, 0x04, 0x22, 0x04, 0x08, 0x01, 0x10, 0x03, 0x22, 0x05,
    0x08, 0xa9, 0x02, 0x10, 0x01,
];

/// Puts a document of that collection. Numbers of documents stand in two bytes each.
fn put_document(rt: &impl Abort, bytes: &mut Vec<u8>, number: u32)
    requires { number < 300 }
{
    let mut digits = Buffer::new();
    let name = digits.format(number).as_bytes();
    let size = name.len() as u8;
    let low = (number % 128) as u8;
    let high = (number / 128) as u8;
    let length = match number {
        0 => 2u8,
        1 => 3,
        _ => 1,
    };
    put(
        rt,
        bytes,
        &[8 + size, 0x08, 128 + low, high, 0x12, 1 + size, b'd'],
    );
    put(rt, bytes, name);
    put(rt, bytes, &[0x18, length]);
}

/// The bytes of that collection.
fn two_pages(rt: &impl Abort, alloc: Global) -> Vec<u8> {
    let mut bytes = Vec::new(alloc);
    put(rt, &mut bytes, &TWO_PAGES_FRONT);
    for number in 0..300u32 {
        put_document(rt, &mut bytes, number);
    }
    bytes
}

/// A cabinet with a collection and its index file.
fn files_of(rt: &impl Abort, alloc: Global, ciff: &[u8]) -> MemCabinet {
    let mut files = cabinet_with(rt, alloc, "ciff", ciff, &[], &[]);
    let mut input = SliceFeed::new(b"");
    let _ = left_by(
        rt,
        alloc,
        "import ciff index",
        &mut files,
        &mut input,
        &[],
        &[],
    );
    files
}

/// Makes the index file of a collection, and runs words over it and an input. Puts on the output
/// and on the notes fail where named.
fn served_from<I: Feed>(
    rt: &impl Abort,
    alloc: Global,
    ciff: &[u8],
    words: &str,
    input: &mut I,
    bad_put: u64,
    bad_note: u64,
) -> Left {
    let mut files = files_of(rt, alloc, ciff);
    left_by(rt, alloc, words, &mut files, input, &[bad_put], &[bad_note])
}

/// The feed of these lines, one of whose reads fails.
fn feed_of(rt: &impl Abort, alloc: Global, lines: &[u8], bad_read: u64) -> MemFeed {
    let bytes = Row::from_vec(Vec::from_slice(alloc, lines).expect(rt, "no memory"));
    MemFeed::new(bytes, listed(rt, alloc, &[bad_read]))
}

/// The same over lines, whose reads fail where named.
fn served(
    rt: &impl Abort,
    alloc: Global,
    ciff: &[u8],
    words: &str,
    lines: &[u8],
    bad_read: u64,
    bad_put: u64,
    bad_note: u64,
) -> Left {
    let mut input = feed_of(rt, alloc, lines, bad_read);
    served_from(rt, alloc, ciff, words, &mut input, bad_put, bad_note)
}

/// A collection, lines, and the output.
type Served<'a> = (&'a [u8], &'a [u8], &'a [u8]);

const SERVED: [Served<'static>; 3] = [
    (
        &TWO_TERMS,
        b"open x 4 cat dog\nopen y 4 dog cat\ngrant x 1\ngrant y 1\ngrant x 1\ngrant y 4\ngrant y all\ntop x",
        b"opened x need 1 unknown 0\nopened y need 1 unknown 0\nx postings 1 segments 1 of 4 cutoff 3 next 3 bound 4 unknown 0 open\ny postings 1 segments 1 of 4 cutoff 3 next 3 bound 5 unknown 0 open\nx postings 2 segments 2 of 4 cutoff 3 next 2 bound 3 unknown 0 open\ny postings 5 segments 4 of 4 cutoff 1 next 0 bound 0 unknown 0 final\ny postings 5 segments 4 of 4 cutoff 1 next 0 bound 0 unknown 0 final\nhits 2\nx Q0 d0 1 3 jass\nx Q0 d2 2 3 jass\n",
    ),
    (
        &ONE_TERM,
        b"open x 4 a\ngrant x 18446744073709551615\ngrant x 18446744073709551615\ngrant x all\n",
        b"opened x need 1 unknown 0\nx postings 3 segments 3 of 3 cutoff 1 next 0 bound 0 unknown 0 final\nx postings 3 segments 3 of 3 cutoff 1 next 0 bound 0 unknown 0 final\nx postings 3 segments 3 of 3 cutoff 1 next 0 bound 0 unknown 0 final\n",
    ),
    (&ONE_TERM, b"", b""),
];

/// Two sessions of the collection of 300 documents, of which each needs both frames, and what is told of them.
const TWO_PAGES_LINES: &[u8] =
    b"open x 3 cat\nopen y 3 dog\ngrant x 1\nclose x\nopen y 3 dog\r\ngrant y 1\ntop y\nend\ntop y\n";

const TWO_PAGES_TOLD: &[u8] =
    b"opened x need 2 unknown 0\nrefused 74 pool 2 0\nx postings 1 segments 1 of 2 cutoff 2 next 1 bound 1 unknown 0 open\nclosed x\nopened y need 2 unknown 0\ny postings 1 segments 1 of 2 cutoff 3 next 1 bound 1 unknown 0 open\nhits 1\ny Q0 d1 1 3 jass\nbye\n";

/// Each input is answered as stands beside it.
fn check_served(rt: &impl Abort, alloc: Global, served_lines: &[Served<'_>]) {
    let words = "serve index frames=2";
    for (ciff, lines, out) in served_lines {
        let left = served(rt, alloc, ciff, words, lines, NEVER, NEVER, NEVER);
        check_left(rt, words, &left, 0, out, b"");
    }
}

#[test]
fn lines_are_answered(rt: HostRuntime) {
    let two_pages = two_pages(&rt, rt.alloc());
    let first = (two_pages.as_slice(), TWO_PAGES_LINES, TWO_PAGES_TOLD);
    check_served(&rt, rt.alloc(), &[first]);
    check_served(&rt, rt.alloc(), &SERVED);
}

/// Words, the read of the input and the put on the output that fail, the status, the output and the note.
type Stopped<'a> = (&'a str, u64, u64, u8, &'a [u8], &'a [u8]);

const STOPPED: [Stopped<'static>; 5] = [
    (
        "serve index frames=2",
        1,
        NEVER,
        4,
        b"refused 71 unknown session\n",
        b"input: read fault\n",
    ),
    (
        "serve index frames=2",
        NEVER,
        0,
        5,
        b"",
        b"output: write fault\n",
    ),
    (
        "serve other frames=2",
        NEVER,
        NEVER,
        4,
        b"",
        b"other: read fault\n",
    ),
    (
        "serve ciff frames=2",
        NEVER,
        NEVER,
        3,
        b"",
        b"ciff: refusal 40 at 0\n",
    ),
    ("serve index frames=0", NEVER, NEVER, 2, b"", b"word 3\n"),
];

/// Serving stops as told where no put on the notes fails, or the first does.
fn check_stop(rt: &impl Abort, alloc: Global, stopped: Stopped<'_>, bad_note: u64) {
    let (words, bad_read, bad_put, status, out, notes) = stopped;
    let lines = b"top z\ntop z";
    let left = served(
        rt, alloc, &ONE_TERM, words, lines, bad_read, bad_put, bad_note,
    );
    let notes = if bad_note == 0 { b"" } else { notes };
    check_left(rt, words, &left, status, out, notes);
}

/// Serving stops so; where its note can't be put, all else is the same.
fn check_stops(rt: &impl Abort, alloc: Global, stops: &[Stopped<'_>]) {
    for stopped in stops {
        check_stop(rt, alloc, *stopped, NEVER);
        check_stop(rt, alloc, *stopped, 0);
    }
}

#[test]
fn serving_may_stop(rt: HostRuntime) {
    check_stops(&rt, rt.alloc(), &STOPPED);
}

/// The most bytes of an input that are taken.
const MOST: u64 = 1_073_741_824;

/// How many bytes without a line feed come in, the put on the notes that fails, the status, the output and the note.
type Long<'a> = (u64, u64, u8, &'a [u8], &'a [u8]);

const LONG: [Long<'static>; 3] = [
    (MOST - 1, NEVER, 0, b"refused 70 bad line\n", b""),
    (MOST, NEVER, 6, b"", b"input limit\n"),
    (MOST, 0, 6, b"", b""),
];

/// Serving a long input ends as told.
fn check_long(rt: &impl Abort, alloc: Global, inputs: &[Long<'_>]) {
    let words = "serve index frames=2";
    for (size, bad_note, status, out, notes) in inputs {
        let mut input = Repeated { left: *size };
        let left = served_from(rt, alloc, &ONE_TERM, words, &mut input, NEVER, *bad_note);
        check_left(rt, words, &left, *status, out, notes);
    }
}

#[test]
fn inputs_may_be_long(rt: HostRuntime) {
    check_long(&rt, rt.alloc(), &LONG);
}
