// Queries answered document at a time, by all postings: run lines and the lines of hits.

ghost use Rattle.std.specs.Prelude.{◌<◌};

use super::searching::{CAT_DOG, NOTHING, OLD, searched};
use super::{
    Bad, LEVEL_AT_LAST, Made, NONE, ONE_TERM, TWO_TERMS, cabinet_with, check_left, listed, made_by,
    put, store,
};
use ciff_write::write_collection;
use itoa::Buffer;
use jass_base::{Collection, MemCabinet, MemSink};
use std::alloc::Global;
use std::process::Abort;
use trial_data::{Draws, draw_query, make_with_draws};

/// A collection, queries, words, calls that fail, the status, the output, the note, and what `run` holds then.
type Exhausted<'a> = (
    &'a [u8],
    &'a [u8],
    &'a str,
    Bad,
    u8,
    &'a [u8],
    &'a [u8],
    &'a [u8],
);

const EXHAUSTED: [Exhausted<'static>; 8] = [
    (
        &TWO_TERMS,
        CAT_DOG,
        "exhaust index queries run k=2 mode=folded",
        NONE,
        0,
        b"301 hits 2 unknown 0\n302 hits 0 unknown 1\n",
        NOTHING,
        b"301 Q0 d0 1 3 jass\n301 Q0 d1 2 3 jass\n",
    ),
    (
        &TWO_TERMS,
        b"q cat dog",
        "exhaust index queries run k=100000 tag=t",
        NONE,
        0,
        b"q hits 4 unknown 0\n",
        NOTHING,
        b"q Q0 d0 1 3 t\nq Q0 d1 2 3 t\nq Q0 d2 3 3 t\nq Q0 d3 4 1 t\n",
    ),
    (
        &ONE_TERM,
        b"q a a zzz",
        "exhaust index queries run k=1",
        NONE,
        0,
        b"q hits 1 unknown 1\n",
        NOTHING,
        b"q Q0 d0 1 18 jass\n",
    ),
    (
        &LEVEL_AT_LAST,
        b"q p q",
        "exhaust index queries run k=1",
        NONE,
        0,
        b"q hits 1 unknown 0\n",
        NOTHING,
        b"q Q0 d0 1 3 jass\n",
    ),
    (
        &ONE_TERM,
        NOTHING,
        "exhaust index queries run",
        NONE,
        0,
        NOTHING,
        NOTHING,
        NOTHING,
    ),
    (
        &ONE_TERM,
        b" q a",
        "exhaust index queries run",
        NONE,
        3,
        NOTHING,
        b"queries: refusal 51 at line 1\n",
        OLD,
    ),
    (
        &ONE_TERM,
        b"q a",
        "exhaust index queries run budget=1",
        NONE,
        2,
        NOTHING,
        b"word 5\n",
        OLD,
    ),
    (
        &ONE_TERM,
        b"q a",
        "exhaust none queries run",
        NONE,
        4,
        NOTHING,
        b"none: read fault\n",
        OLD,
    ),
];

/// Each exhaustive search ends so.
fn check_exhausted(rt: &impl Abort, alloc: Global, searches: &[Exhausted<'_>]) {
    for (ciff, queries, words, bad, status, out, notes, run) in searches {
        let made = searched(rt, alloc, ciff, queries, words, *bad);
        check_left(rt, words, &made.left, *status, out, notes);
        assert!(rt; made.content.as_slice() == *run, "{words}");
    }
}

#[test]
fn queries_are_answered_by_all_postings(rt: HostRuntime) {
    check_exhausted(&rt, rt.alloc(), &EXHAUSTED);
}

/// The CIFF file of 255 documents, of which document i has the term `t` i + 1 times.
fn rising_ciff(rt: &impl Abort, alloc: Global) -> Vec<u8> {
    let mut bytes = Vec::new(alloc);
    put(
        rt,
        &mut bytes,
        &[
            0x10, 0x08, 0x01, 0x10, 0x01, 0x18, 0xff, 0x01, 0x20, 0x01, 0x28, 0xff, 0x01, 0x30,
            0x80, 0xff, 0x01,
        ],
    );
    put_rising_list(rt, &mut bytes);
    put_rising_docs(rt, &mut bytes);
    bytes
}

/// Puts the list of the term `t`, a message of 1,666 bytes. A tf from 128 on has two bytes.
fn put_rising_list(rt: &impl Abort, bytes: &mut Vec<u8>) {
    put(
        rt,
        bytes,
        &[
            0x82, 0x0d, 0x0a, 0x01, b't', 0x10, 0xff, 0x01, 0x18, 0x80, 0xff, 0x01, 0x22, 0x02,
            0x10, 0x01,
        ],
    );
    for tf in 2..256u32 {
        if tf < 128 {
            put(rt, bytes, &[0x22, 0x04, 0x08, 0x01, 0x10, tf as u8]);
        } else {
            put(rt, bytes, &[0x22, 0x05, 0x08, 0x01, 0x10, tf as u8, 0x01]);
        }
    }
}

/// Puts the 255 documents. A number from 128 on has two bytes, and 0 none.
fn put_rising_docs(rt: &impl Abort, bytes: &mut Vec<u8>) {
    put(rt, bytes, &[0x06, 0x12, 0x02, b'A', b'a', 0x18, 0x01]);
    for doc in 1..255u32 {
        let [high, low] = rising_name(doc);
        if doc < 128 {
            put(
                rt,
                bytes,
                &[0x08, 0x08, doc as u8, 0x12, 0x02, high, low, 0x18, 0x01],
            );
        } else {
            put(
                rt,
                bytes,
                &[
                    0x09, 0x08, doc as u8, 0x01, 0x12, 0x02, high, low, 0x18, 0x01,
                ],
            );
        }
    }
}

/// The name of a document, two letters.
fn rising_name(doc: u32) -> [u8; 2]
    requires { doc < 256 }
{
    [b'A' + (doc / 16) as u8, b'a' + (doc % 16) as u8]
}

/// The run lines of the query `q t`: the last document has the greatest score.
fn rising_run(rt: &impl Abort, alloc: Global) -> Vec<u8> {
    let mut run = Vec::new(alloc);
    for rank in 1..256u32 {
        let mut first = Buffer::new();
        let mut second = Buffer::new();
        put(rt, &mut run, b"q Q0 ");
        put(rt, &mut run, &rising_name(255 - rank));
        put(rt, &mut run, b" ");
        put(rt, &mut run, first.format(rank).as_bytes());
        put(rt, &mut run, b" ");
        put(rt, &mut run, second.format(256 - rank).as_bytes());
        put(rt, &mut run, b" jass\n");
    }
    run
}

/// The answer to a query by words over the term of 255 segments.
fn check_rising(rt: &impl Abort, alloc: Global, words: &str, out: &[u8]) {
    let ciff = rising_ciff(rt, alloc);
    let made = searched(rt, alloc, ciff.as_slice(), b"q t", words, NONE);
    drop(ciff);
    check_left(rt, words, &made.left, 0, out, NOTHING);
    let run = rising_run(rt, alloc);
    assert!(rt; made.content == run, "{words}");
}

#[test]
fn a_term_of_255_segments_is_answered(rt: HostRuntime) {
    check_rising(
        &rt,
        rt.alloc(),
        "search index queries run k=300",
        b"q postings 255 segments 255 of 255 cutoff 1 next 0 bound 0 unknown 0 final\n",
    );
    check_rising(
        &rt,
        rt.alloc(),
        "exhaust index queries run k=300",
        b"q hits 255 unknown 0\n",
    );
}

/// The CIFF file of a collection.
pub(super) fn ciff_of(rt: &impl Abort, alloc: Global, collection: &Collection) -> Vec<u8> {
    let mut sink = MemSink::new(alloc, listed(rt, alloc, &[]));
    assert!(rt; write_collection(collection, &mut sink).is_ok());
    Vec::from_slice(alloc, sink.written()).expect(rt, "no memory")
}

/// Puts the words of the next query of 300 terms.
fn put_drawn(rt: &impl Abort, alloc: Global, queries: &mut Vec<u8>, draws: &mut Draws) {
    let words = draw_query(alloc, draws, 300).expect(rt, "no memory");
    for word in words.iter() {
        put(rt, queries, b" ");
        put(rt, queries, word.as_bytes());
    }
}

/// Twenty queries of 300 terms, named by letters.
pub(super) fn drawn_queries(rt: &impl Abort, alloc: Global, draws: &mut Draws) -> Vec<u8> {
    let mut queries = Vec::new(alloc);
    for id in b'a'..b'u' {
        put(rt, &mut queries, &[id]);
        put_drawn(rt, alloc, &mut queries, draws);
        put(rt, &mut queries, b"\n");
    }
    queries
}

/// A collection that is made, its index, and queries that are drawn behind it.
fn drawn_files(rt: &impl Abort, alloc: Global) -> MemCabinet {
    let (collection, mut draws) = make_with_draws(alloc, 3, 2000, 300).expect(rt, "no memory");
    let ciff = ciff_of(rt, alloc, &collection);
    drop(collection);
    let mut files = cabinet_with(rt, alloc, "ciff", ciff.as_slice(), &[], &[]);
    drop(ciff);
    let queries = drawn_queries(rt, alloc, &mut draws);
    store(rt, &mut files, "queries", queries.as_slice());
    let import = "import ciff index weights=bm25 bits=8";
    let made = made_by(rt, alloc, import, &mut files, NONE, "index");
    assert_eq!(rt; made.left.status, 0);
    files
}

/// What words leave in the file `run`.
fn run_of(rt: &impl Abort, alloc: Global, words: &str, files: &mut MemCabinet) -> Vec<u8> {
    let Made { left, content } = made_by(rt, alloc, words, files, NONE, "run");
    assert_eq!(rt; left.status, 0, "{words}");
    content
}

/// A search with all postings leaves the run that an exhaustive one does.
fn check_same_run(rt: &impl Abort, alloc: Global, search: &str, exhaust: &str, lines: usize) {
    let mut files = drawn_files(rt, alloc);
    let searched = run_of(rt, alloc, search, &mut files);
    let exhausted = run_of(rt, alloc, exhaust, &mut files);
    assert!(rt; exhausted == searched, "{exhaust}");
    assert_eq!(rt;
        exhausted.iter().filter(|byte| **byte == b'\n').count(),
        lines
    );
}

#[test]
fn the_exhaustive_run_is_that_of_a_search(rt: HostRuntime) {
    check_same_run(
        &rt,
        rt.alloc(),
        "search index queries run k=1000 budget=all",
        "exhaust index queries run k=1000",
        2071,
    );
    check_same_run(
        &rt,
        rt.alloc(),
        "search index queries run k=3 budget=all",
        "exhaust index queries run k=3",
        60,
    );
}
