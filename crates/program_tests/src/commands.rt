// The program's worked examples: what it prints for small files.

ghost use Rattle.std.specs.Prelude.{◌≡◌, ◌<◌};

mod auditing;
mod ends;
mod exhausting;
mod indexing;
mod rewriting;
mod search_ends;
mod searching;
mod serving;
mod sharding;
mod stopping;
mod trials;

use jass_base::{Cabinet, Feed, MemCabinet, MemSink, Row, SliceFeed, Steps};
use jass_top::run;
use std::alloc::Global;
use std::marker::Brand;
use std::process::Abort;
use std::sync::ledger::{Blank, Ledger};

/// Documents d0 to d3; `cat`: (0,3), (1,1), (3,1); `dog`: (1,2), (2,3).
const TWO_TERMS: [u8; 104] = [
    0x15, 0x08, 0x01, 0x10, 0x02, 0x18, 0x04, 0x20, 0x02, 0x28, 0x04, 0x30, 0x0a, 0x39, 0x00, 0x00,
    0x00, 0x00, 0x00, 0x00, 0x04, 0x40, 0x19, 0x0a, 0x03, 0x63, 0x61, 0x74, 0x10, 0x03, 0x18, 0x05,
    0x22, 0x02, 0x10, 0x03, 0x22, 0x04, 0x08, 0x01, 0x10, 0x01, 0x22, 0x04, 0x08, 0x02, 0x10, 0x01,
    0x15, 0x0a, 0x03, 0x64, 0x6f, 0x67, 0x10, 0x02, 0x18, 0x05, 0x22, 0x04, 0x08, 0x01, 0x10, 0x02,
    0x22, 0x04, 0x08, 0x01, 0x10, 0x03, 0x06, 0x12, 0x02, 0x64, 0x30, 0x18, 0x03, 0x08, 0x08, 0x01,
    0x12, 0x02, 0x64, 0x31, 0x18, 0x03, 0x08, 0x08, 0x02, 0x12, 0x02, 0x64, 0x32, 0x18, 0x03, 0x08,
    0x08, 0x03, 0x12, 0x02, 0x64, 0x33, 0x18, 0x01,
];

/// Documents d0 to d2; `a`: (0,9), (1,5), (2,1).
const ONE_TERM: [u8; 71] = [
    0x15, 0x08, 0x01, 0x10, 0x01, 0x18, 0x03, 0x20, 0x01, 0x28, 0x03, 0x30, 0x0f, 0x39, 0x00, 0x00,
    0x00, 0x00, 0x00, 0x00, 0x14, 0x40, 0x17, 0x0a, 0x01, 0x61, 0x10, 0x03, 0x18, 0x0f, 0x22, 0x02,
    0x10, 0x09, 0x22, 0x04, 0x08, 0x01, 0x10, 0x05, 0x22, 0x04, 0x08, 0x01, 0x10, 0x01, 0x06, 0x12,
    0x02, 0x64, 0x30, 0x18, 0x09, 0x08, 0x08, 0x01, 0x12, 0x02, 0x64, 0x31, 0x18, 0x05, 0x08, 0x08,
    0x02, 0x12, 0x02, 0x64, 0x32, 0x18, 0x01,
];

/// The same with a long varint, fields in another order and an unknown field.
const SLOPPY: [u8; 74] = [
    0x15, 0x08, 0x01, 0x10, 0x01, 0x18, 0x03, 0x20, 0x01, 0x28, 0x03, 0x30, 0x0f, 0x39, 0x00, 0x00,
    0x00, 0x00, 0x00, 0x00, 0x14, 0x40, 0x18, 0x0a, 0x01, 0x61, 0x10, 0x83, 0x00, 0x18, 0x0f, 0x22,
    0x02, 0x10, 0x09, 0x22, 0x04, 0x08, 0x01, 0x10, 0x05, 0x22, 0x04, 0x08, 0x01, 0x10, 0x01, 0x08,
    0x18, 0x09, 0x12, 0x02, 0x64, 0x30, 0x48, 0x05, 0x08, 0x08, 0x01, 0x12, 0x02, 0x64, 0x31, 0x18,
    0x05, 0x08, 0x08, 0x02, 0x12, 0x02, 0x64, 0x32, 0x18, 0x01,
];

/// Documents d0 and d1; `p`: (1,3); `q`: (0,3).
const LATER_FIRST: [u8; 64] = [
    0x15, 0x08, 0x01, 0x10, 0x02, 0x18, 0x02, 0x20, 0x02, 0x28, 0x02, 0x30, 0x06, 0x39, 0x00, 0x00,
    0x00, 0x00, 0x00, 0x00, 0x08, 0x40, 0x0d, 0x0a, 0x01, 0x70, 0x10, 0x01, 0x18, 0x03, 0x22, 0x04,
    0x08, 0x01, 0x10, 0x03, 0x0b, 0x0a, 0x01, 0x71, 0x10, 0x01, 0x18, 0x03, 0x22, 0x02, 0x10, 0x03,
    0x06, 0x12, 0x02, 0x64, 0x30, 0x18, 0x03, 0x08, 0x08, 0x01, 0x12, 0x02, 0x64, 0x31, 0x18, 0x03,
];

/// Documents d0 and d1; `p`: (0,2), (1,3); `q`: (0,1).
const LEVEL_AT_LAST: [u8; 68] = [
    0x15, 0x08, 0x01, 0x10, 0x02, 0x18, 0x02, 0x20, 0x02, 0x28, 0x02, 0x30, 0x06, 0x39, 0x00, 0x00,
    0x00, 0x00, 0x00, 0x00, 0x08, 0x40, 0x11, 0x0a, 0x01, 0x70, 0x10, 0x02, 0x18, 0x05, 0x22, 0x02,
    0x10, 0x02, 0x22, 0x04, 0x08, 0x01, 0x10, 0x03, 0x0b, 0x0a, 0x01, 0x71, 0x10, 0x01, 0x18, 0x01,
    0x22, 0x02, 0x10, 0x01, 0x06, 0x12, 0x02, 0x64, 0x30, 0x18, 0x03, 0x08, 0x08, 0x01, 0x12, 0x02,
    0x64, 0x31, 0x18, 0x03,
];

/// What `--help` prints.
const HELP: &[u8] = b"\
commands, with * behind the file that is written:\n\
once CIFF K BUDGET TERM..\n\
\x20   answer a query over a CIFF file\n\
rewrite FROM TO*\n\
\x20   write a CIFF file in the canonical spelling\n\
import CIFF INDEX* [weights=tf|bm25] [bits=raw|1..16]\n\
\x20   make an index file of a CIFF file\n\
check INDEX\n\
\x20   check an index file, and print its totals\n\
export INDEX CIFF*\n\
\x20   write a CIFF file with the impacts as frequencies\n\
migrate OLD NEW*\n\
\x20   write an index file of version 1 in version 2\n\
search INDEX QUERIES RUN* [k=K] [budget=B,..] [tag=TAG] [mode=plain|folded] [until=budget|final]\n\
\x20   answer the queries of a file\n\
shards N INDEX1 .. INDEXN QUERIES RUN* [k=K] [budget=B,..] [tag=TAG] [mode=plain|folded]\n\
\x20   answer them over the parts of a collection as over one index\n\
exhaust INDEX QUERIES RUN* [k=K] [tag=TAG] [mode=plain|folded]\n\
\x20   answer them by all postings, one document after the other\n\
audit INDEX QUERIES RUN REPORTS [k=K] [budget=B,..] [tag=TAG] [mode=plain|folded]\n\
\x20   say whether a run and its reports are those of the search\n\
serve INDEX frames=N\n\
\x20   answer the lines of the input at a desk over an index file\n\
trial SEED DOCS TERMS QUERIES\n\
\x20   answer queries over a collection made from a seed, and print a summary\n\
--help\n\
\x20   print this text\n\
--version\n\
\x20   print the name and the version\n\
\n\
statuses:\n\
0  done\n\
1  no memory\n\
2  the words are no command\n\
3  an input is refused\n\
4  an input could not be read, or is missing\n\
5  an output could not be written\n\
6  2^30 bytes of the input were taken, and no line was end\n\
\n\
documents: README.md, docs/\n\
";

/// A file, a length, and bytes of it at their places.
type Changed<'a> = (&'a [u8], usize, &'a [(usize, u8)]);

/// The file, cut to the length or filled up to it by zeros, with those bytes in place of its own.
fn changed(rt: &impl Abort, alloc: Global, change: Changed<'_>) -> Vec<u8> {
    let (file, length, others) = change;
    let mut bytes = vec![in alloc; 0; length].expect(rt, "no memory");
    for (to, from) in bytes.iter_mut().zip(file) {
        *to = *from;
    }
    set_bytes(bytes.as_mut_slice(), others);
    bytes
}

/// Appends bytes.
fn put(rt: &impl Abort, bytes: &mut Vec<u8>, more: &[u8]) {
    bytes.extend_from_slice(more).expect(rt, "no memory");
}

/// Sets bytes at their places.
fn set_bytes(bytes: &mut [u8], others: &[(usize, u8)]) {
    for (at, other) in others {
        if let Some(byte) = bytes.get_mut(*at) {
            *byte = *other;
        }
    }
}

/// Which calls fail: reads and writes of files, and puts on the output and on the notes.
#[derive(Clone, Copy)]
struct Bad {
    reads: u64,
    writes: u64,
    puts: u64,
    notes: u64,
}

/// No call, since there are fewer.
const NEVER: u64 = 1_000_000;

const NONE: Bad = Bad {
    reads: NEVER,
    writes: NEVER,
    puts: NEVER,
    notes: NEVER,
};

/// What kind of call fails.
#[derive(Clone, Copy)]
enum Call {
    Read,
    Write,
    Put,
}

/// The call of this kind and number alone.
fn only(call: Call, number: u64) -> Bad {
    match call {
        Call::Read => Bad {
            reads: number,
            ..NONE
        },
        Call::Write => Bad {
            writes: number,
            ..NONE
        },
        Call::Put => Bad {
            puts: number,
            ..NONE
        },
    }
}

/// What a run left: its status, its output and its notes.
#[derive(Drop)]
struct Left {
    status: u8,
    out: MemSink,
    notes: MemSink,
}

/// A run of these words has this status, output and note.
fn check_left(rt: &impl Abort, words: &str, left: &Left, status: u8, out: &[u8], notes: &[u8]) {
    assert_eq!(rt; left.status, status, "{words}");
    assert!(rt; left.out.written() == out, "{words}");
    assert!(rt; left.notes.written() == notes, "{words}");
}

/// Runs words, and gives the number of the status.
fn ended_by<C: Cabinet, I: Feed, L: Ledger>(
    alloc: Global,
    blank: Blank,
    words: &[String],
    files: &mut C,
    input: &mut I,
    out: &mut MemSink,
    notes: &mut MemSink,
) -> u8
    requires name { blank.name ≡ L.name }
    requires parts { blank.parts ≡ L.parts }
    requires some { 0 < blank.parts }
{
    let mut steps = Steps::<L>::new(blank);
    run(alloc, words, files, input, out, notes, &mut steps).number()
}

/// The same with a fresh ledger.
fn ended<C: Cabinet, I: Feed>(
    alloc: Global,
    words: &[String],
    files: &mut C,
    input: &mut I,
    out: &mut MemSink,
    notes: &mut MemSink,
) -> u8 {
    ended_by::<C, I, Brand>(alloc, Blank::new(1), words, files, input, out, notes)
}

/// A sink whose puts fail where named.
fn sink_of(rt: &impl Abort, alloc: Global, bad: &[u64]) -> MemSink {
    MemSink::new(alloc, listed(rt, alloc, bad))
}

/// Runs the words of a line over files and an input. The puts on the output and the notes fail where named.
fn left_by<C: Cabinet, I: Feed>(
    rt: &impl Abort,
    alloc: Global,
    words: &str,
    files: &mut C,
    input: &mut I,
    bad_puts: &[u64],
    bad_notes: &[u64],
) -> Left {
    let words = parted(rt, alloc, words);
    let mut out = sink_of(rt, alloc, bad_puts);
    let mut notes = sink_of(rt, alloc, bad_notes);
    let status = ended(alloc, words.as_slice(), files, input, &mut out, &mut notes);
    Left { status, out, notes }
}

/// What a run left, and what a file holds then.
#[derive(Drop)]
struct Made {
    left: Left,
    content: Vec<u8>,
}

/// Whether nothing was noted, and all else is as in another run.
fn is_muted(muted: &Made, other: &Made) -> bool {
    muted.left.notes.written().is_empty()
        && muted.left.status == other.left.status
        && muted.left.out.written() == other.left.out.written()
        && muted.content.as_slice() == other.content.as_slice()
}

/// Runs words over files and no input, and takes the content of a file behind it. The puts on the output and the notes
/// fail where named.
fn made_by(
    rt: &impl Abort,
    alloc: Global,
    words: &str,
    files: &mut MemCabinet,
    bad: Bad,
    name: &str,
) -> Made {
    let mut input = SliceFeed::new(b"");
    let left = left_by(
        rt,
        alloc,
        words,
        files,
        &mut input,
        &[bad.puts],
        &[bad.notes],
    );
    let content = content_of(rt, alloc, files, name);
    Made { left, content }
}

/// A cabinet with one file. The reads and the writes fail where named.
fn cabinet_with(
    rt: &impl Abort,
    alloc: Global,
    name: &str,
    content: &[u8],
    bad_reads: &[u64],
    bad_writes: &[u64],
) -> MemCabinet {
    let bad_reads = listed(rt, alloc, bad_reads);
    let bad_writes = listed(rt, alloc, bad_writes);
    let mut files = MemCabinet::new(alloc, bad_reads, bad_writes);
    store(rt, &mut files, name, content);
    files
}

/// Puts a file into a cabinet.
fn store(rt: &impl Abort, files: &mut MemCabinet, name: &str, content: &[u8]) {
    files.store(name, content).expect(rt, "no memory");
}

/// The content of a file, where it is there.
fn content_of(rt: &impl Abort, alloc: Global, files: &MemCabinet, name: &str) -> Vec<u8> {
    let content = files.content(name).unwrap_or(b"");
    Vec::from_slice(alloc, content).expect(rt, "no memory")
}

/// Runs words over a cabinet with one file, whose reads and the puts on the output and the notes fail where named.
fn ran(
    rt: &impl Abort,
    alloc: Global,
    ciff: &[u8],
    words: &str,
    bad_reads: &[u64],
    bad_puts: &[u64],
    bad_notes: &[u64],
) -> Left {
    let mut files = cabinet_with(rt, alloc, "b.ciff", ciff, bad_reads, &[]);
    let mut input = SliceFeed::new(b"");
    left_by(
        rt, alloc, words, &mut files, &mut input, bad_puts, bad_notes,
    )
}

/// The numbers as a row.
fn listed(rt: &impl Abort, alloc: Global, numbers: &[u64]) -> Row<u64> {
    Row::from_vec(Vec::from_slice(alloc, numbers).expect(rt, "no memory"))
}

/// Puts a word behind others.
fn put_word(rt: &impl Abort, alloc: Global, words: &mut Vec<String>, word: &str) {
    let word = String::from_str(alloc, word).expect(rt, "no memory");
    words.push(word).expect(rt, "no memory");
}

/// The words between the blanks of a line.
fn parted(rt: &impl Abort, alloc: Global, line: &str) -> Vec<String> {
    let mut words = Vec::new(alloc);
    for word in line.split_whitespace() {
        put_word(rt, alloc, &mut words, word);
    }
    words
}

/// A content of `b.ciff`, words, and the output.
type Answer<'a> = (&'a [u8], &'a str, &'a [u8]);

/// Answers over whole collections, or over none.
const ANSWERS: [Answer<'static>; 17] = [
    (
        &ONE_TERM,
        "once b.ciff 3 all a",
        b"q postings 3 segments 3 of 3 cutoff 1 next 0 bound 0 unknown 0 final\nq Q0 d0 1 9 jass\nq Q0 d1 2 5 jass\nq Q0 d2 3 1 jass\n",
    ),
    (
        &SLOPPY,
        "once b.ciff 3 all a",
        b"q postings 3 segments 3 of 3 cutoff 1 next 0 bound 0 unknown 0 final\nq Q0 d0 1 9 jass\nq Q0 d1 2 5 jass\nq Q0 d2 3 1 jass\n",
    ),
    (
        &TWO_TERMS,
        "once b.ciff 4 all cat dog",
        b"q postings 5 segments 4 of 4 cutoff 1 next 0 bound 0 unknown 0 final\nq Q0 d0 1 3 jass\nq Q0 d1 2 3 jass\nq Q0 d2 3 3 jass\nq Q0 d3 4 1 jass\n",
    ),
    (
        &TWO_TERMS,
        "once b.ciff 4 4 cat dog",
        b"q postings 3 segments 3 of 4 cutoff 2 next 1 bound 1 unknown 0 open\nq Q0 d0 1 3 jass\nq Q0 d2 2 3 jass\nq Q0 d1 3 2 jass\n",
    ),
    (
        &TWO_TERMS,
        "once b.ciff 4 0 cat dog",
        b"q postings 0 segments 0 of 4 cutoff 0 next 3 bound 6 unknown 0 open\n",
    ),
    (
        &TWO_TERMS,
        "once b.ciff 2 2 cat dog",
        b"q postings 2 segments 2 of 4 cutoff 3 next 2 bound 3 unknown 0 open\nq Q0 d0 1 3 jass\nq Q0 d2 2 3 jass\n",
    ),
    (
        &TWO_TERMS,
        "once b.ciff 4 all zzz dog dog",
        b"q postings 2 segments 2 of 2 cutoff 4 next 0 bound 0 unknown 1 final\nq Q0 d2 1 6 jass\nq Q0 d1 2 4 jass\n",
    ),
    (
        &ONE_TERM,
        "once b.ciff 1 1 a",
        b"q postings 1 segments 1 of 3 cutoff 9 next 5 bound 5 unknown 0 final\nq Q0 d0 1 9 jass\n",
    ),
    (
        &ONE_TERM,
        "once b.ciff 3 2 a",
        b"q postings 2 segments 2 of 3 cutoff 5 next 1 bound 1 unknown 0 open\nq Q0 d0 1 9 jass\nq Q0 d1 2 5 jass\n",
    ),
    (
        &ONE_TERM,
        "once b.ciff 2 2 a",
        b"q postings 2 segments 2 of 3 cutoff 5 next 1 bound 1 unknown 0 final\nq Q0 d0 1 9 jass\nq Q0 d1 2 5 jass\n",
    ),
    (
        &LEVEL_AT_LAST,
        "once b.ciff 2 2 p q",
        b"q postings 2 segments 2 of 3 cutoff 2 next 1 bound 1 unknown 0 set\nq Q0 d1 1 3 jass\nq Q0 d0 2 2 jass\n",
    ),
    (
        &LATER_FIRST,
        "once b.ciff 1 1 p q",
        b"q postings 1 segments 1 of 2 cutoff 3 next 3 bound 3 unknown 0 open\nq Q0 d1 1 3 jass\n",
    ),
    (
        &ONE_TERM,
        "once b.ciff 4 all a a",
        b"q postings 3 segments 3 of 3 cutoff 2 next 0 bound 0 unknown 0 final\nq Q0 d0 1 18 jass\nq Q0 d1 2 10 jass\nq Q0 d2 3 2 jass\n",
    ),
    (
        &ONE_TERM,
        "once b.ciff 4 all a zzz",
        b"q postings 3 segments 3 of 3 cutoff 1 next 0 bound 0 unknown 1 final\nq Q0 d0 1 9 jass\nq Q0 d1 2 5 jass\nq Q0 d2 3 1 jass\n",
    ),
    (
        &[0],
        "once b.ciff 4 all a",
        b"q postings 0 segments 0 of 0 cutoff 0 next 0 bound 0 unknown 1 final\n",
    ),
    (&[], "--help", HELP),
    (&[], "--version", b"jass 0.1.0\n"),
];

/// A run is done, and prints what stands beside it.
fn check_answer(rt: &impl Abort, alloc: Global, answer: Answer<'_>) {
    let (ciff, words, out) = answer;
    let left = ran(rt, alloc, ciff, words, &[], &[], &[]);
    check_left(rt, words, &left, 0, out, b"");
}

/// Each run over a whole collection ends so.
fn check_answers(rt: &impl Abort, alloc: Global, answers: &[Answer<'_>]) {
    for answer in answers {
        check_answer(rt, alloc, *answer);
    }
}

/// Answers over collections in which a weight or the order of the terms is another.
const CHANGED_ANSWERS: [(Changed<'static>, &str, &[u8]); 3] = [
    (
        (&ONE_TERM, 71, &[(39, 8), (45, 7)]),
        "once b.ciff 1 1 a",
        b"q postings 1 segments 1 of 3 cutoff 9 next 8 bound 8 unknown 0 final\nq Q0 d0 1 9 jass\n",
    ),
    (
        (&ONE_TERM, 71, &[(39, 8), (45, 7)]),
        "once b.ciff 1 2 a",
        b"q postings 2 segments 2 of 3 cutoff 8 next 7 bound 7 unknown 0 open\nq Q0 d0 1 9 jass\n",
    ),
    (
        (&LATER_FIRST, 64, &[(25, b'q'), (39, b'p')]),
        "once b.ciff 1 1 p q",
        b"q postings 1 segments 1 of 2 cutoff 3 next 3 bound 3 unknown 0 final\nq Q0 d0 1 3 jass\n",
    ),
];

/// Each run over a changed collection ends so.
fn check_changed_answers(rt: &impl Abort, alloc: Global, answers: &[(Changed<'_>, &str, &[u8])]) {
    for (change, words, out) in answers {
        let ciff = changed(rt, alloc, *change);
        check_answer(rt, alloc, (ciff.as_slice(), words, out));
    }
}

#[test]
fn answers_are_printed(rt: HostRuntime) {
    check_answers(&rt, rt.alloc(), &ANSWERS);
    check_changed_answers(&rt, rt.alloc(), &CHANGED_ANSWERS);
}
