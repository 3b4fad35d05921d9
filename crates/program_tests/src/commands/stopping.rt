// Queries that are searched no further than until their answer can't change.

use super::exhausting::{ciff_of, drawn_queries};
use super::searching::{NOTHING, OLD};
use super::{LEVEL_AT_LAST, Made, NONE, ONE_TERM, cabinet_with, check_left, made_by, put, store};
use jass_base::{Collection, MemCabinet};
use std::alloc::Global;
use std::process::Abort;
use trial_data::make_with_draws;

/// Documents d0 to d2; `p`: (0,3), (1,4); `q`: (0,5), (1,5), (2,1).
const TWO_AHEAD: [u8; 89] = [
    0x15, 0x08, 0x01, 0x10, 0x02, 0x18, 0x03, 0x20, 0x02, 0x28, 0x03, 0x30, 0x12, 0x39, 0x00, 0x00,
    0x00, 0x00, 0x00, 0x00, 0x18, 0x40, 0x11, 0x0a, 0x01, 0x70, 0x10, 0x02, 0x18, 0x07, 0x22, 0x02,
    0x10, 0x03, 0x22, 0x04, 0x08, 0x01, 0x10, 0x04, 0x17, 0x0a, 0x01, 0x71, 0x10, 0x03, 0x18, 0x0b,
    0x22, 0x02, 0x10, 0x05, 0x22, 0x04, 0x08, 0x01, 0x10, 0x05, 0x22, 0x04, 0x08, 0x01, 0x10, 0x01,
    0x06, 0x12, 0x02, 0x64, 0x30, 0x18, 0x08, 0x08, 0x08, 0x01, 0x12, 0x02, 0x64, 0x31, 0x18, 0x09,
    0x08, 0x08, 0x02, 0x12, 0x02, 0x64, 0x32, 0x18, 0x01,
];

/// A collection, queries, words, the output, and what `run` holds then.
type Stopped<'a> = (&'a [u8], &'a [u8], &'a str, &'a [u8], &'a [u8]);

const STOPPED: [Stopped<'static>; 10] = [
    (
        &TWO_AHEAD,
        b"q p q",
        "search index queries run k=1 until=final",
        b"q postings 3 segments 2 of 4 cutoff 4 next 3 bound 4 unknown 0 final\n",
        b"q Q0 d1 1 9 jass\n",
    ),
    (
        &TWO_AHEAD,
        b"q p q",
        "search index queries run k=1 budget=3 until=budget",
        b"q postings 3 segments 2 of 4 cutoff 4 next 3 bound 4 unknown 0 open\n",
        b"q Q0 d1 1 9 jass\n",
    ),
    (
        &TWO_AHEAD,
        b"q p q",
        "search index queries run until=final k=1 budget=2",
        b"q postings 2 segments 1 of 4 cutoff 5 next 4 bound 5 unknown 0 open\n",
        b"q Q0 d0 1 5 jass\n",
    ),
    (
        &TWO_AHEAD,
        b"q p q",
        "search index queries run k=1 budget=2,1,all until=final",
        b"q postings 2 segments 1 of 4 cutoff 5 next 4 bound 5 unknown 0 open\nq postings 3 segments 2 of 4 cutoff 4 next 3 bound 4 unknown 0 final\nq postings 3 segments 2 of 4 cutoff 4 next 3 bound 4 unknown 0 final\n",
        b"q Q0 d0 1 5 jass.1\nq Q0 d1 1 9 jass.2\nq Q0 d1 1 9 jass.3\n",
    ),
    (
        &TWO_AHEAD,
        b"q p q",
        "search index queries run k=1 budget=4,0 until=final",
        b"q postings 3 segments 2 of 4 cutoff 4 next 3 bound 4 unknown 0 final\nq postings 3 segments 2 of 4 cutoff 4 next 3 bound 4 unknown 0 final\n",
        b"q Q0 d1 1 9 jass.1\nq Q0 d1 1 9 jass.2\n",
    ),
    (
        &TWO_AHEAD,
        b"q p q",
        "search index queries run k=2 until=final",
        b"q postings 3 segments 2 of 4 cutoff 4 next 3 bound 4 unknown 0 final\n",
        b"q Q0 d1 1 9 jass\nq Q0 d0 2 5 jass\n",
    ),
    (
        &TWO_AHEAD,
        b"q p q\nr zzz",
        "search index queries run k=5 until=final",
        b"q postings 5 segments 4 of 4 cutoff 1 next 0 bound 0 unknown 0 final\nr postings 0 segments 0 of 0 cutoff 0 next 0 bound 0 unknown 1 final\n",
        b"q Q0 d1 1 9 jass\nq Q0 d0 2 8 jass\nq Q0 d2 3 1 jass\n",
    ),
    (
        &LEVEL_AT_LAST,
        b"q p q",
        "search index queries run k=2 budget=2 until=final",
        b"q postings 2 segments 2 of 3 cutoff 2 next 1 bound 1 unknown 0 set\n",
        b"q Q0 d1 1 3 jass\nq Q0 d0 2 2 jass\n",
    ),
    (
        &ONE_TERM,
        b"q a",
        "search index queries run k=1 budget=0,all until=final",
        b"q postings 0 segments 0 of 3 cutoff 0 next 9 bound 9 unknown 0 open\nq postings 1 segments 1 of 3 cutoff 9 next 5 bound 5 unknown 0 final\n",
        b"q Q0 d0 1 9 jass.2\n",
    ),
    (
        &ONE_TERM,
        b"q a",
        "search index queries run k=2 until=final",
        b"q postings 2 segments 2 of 3 cutoff 5 next 1 bound 1 unknown 0 final\n",
        b"q Q0 d0 1 9 jass\nq Q0 d1 2 5 jass\n",
    ),
];

/// Files with the index of a collection, queries, and an old run.
fn stopping_files(rt: &impl Abort, alloc: Global, ciff: &[u8], queries: &[u8]) -> MemCabinet {
    let mut files = cabinet_with(rt, alloc, "ciff", ciff, &[], &[]);
    let Made { left, content } = made_by(rt, alloc, "import ciff index", &mut files, NONE, "index");
    assert_eq!(rt; left.status, 0);
    drop(content);
    store(rt, &mut files, "queries", queries);
    store(rt, &mut files, "run", OLD);
    files
}

/// Each search ends so.
fn check_stopped(rt: &impl Abort, alloc: Global, searches: &[Stopped<'_>]) {
    for (ciff, queries, words, out, run) in searches {
        let mut files = stopping_files(rt, alloc, ciff, queries);
        let made = made_by(rt, alloc, words, &mut files, NONE, "run");
        check_left(rt, words, &made.left, 0, out, NOTHING);
        assert!(rt; made.content.as_slice() == *run, "{words}");
    }
}

#[test]
fn queries_stop_when_final(rt: HostRuntime) {
    check_stopped(&rt, rt.alloc(), &STOPPED);
}

// ---- many terms

/// Puts a query of so many terms of a collection, each with a posting.
fn put_terms(
    rt: &impl Abort,
    queries: &mut Vec<u8>,
    id: &[u8],
    collection: &Collection,
    terms: usize,
) {
    put(rt, queries, id);
    let mut left = terms;
    for list in collection.lists.as_slice() {
        if left > 0 && !list.postings.is_empty() {
            put(rt, queries, b" ");
            put(rt, queries, list.term.as_str().as_bytes());
            left -= 1;
        }
    }
    assert_eq!(rt; left, 0);
    put(rt, queries, b"\n");
}

/// A search until final over queries of so many terms ends by a status and a note.
fn check_terms(
    rt: &impl Abort,
    alloc: Global,
    first: usize,
    second: usize,
    last: &[u8],
    words: &str,
    status: u8,
    note: &[u8],
) {
    let (collection, draws) = make_with_draws(alloc, 5, 500, 100).expect(rt, "no memory");
    drop(draws);
    let mut queries = Vec::new(alloc);
    put_terms(rt, &mut queries, b"a", &collection, first);
    put(rt, &mut queries, b"\n\r\n");
    put_terms(rt, &mut queries, b"b zzz zz^9", &collection, second);
    put(rt, &mut queries, last);
    let ciff = ciff_of(rt, alloc, &collection);
    let mut files = stopping_files(rt, alloc, ciff.as_slice(), queries.as_slice());
    let made = made_by(rt, alloc, words, &mut files, NONE, "run");
    assert_eq!(rt; made.left.status, status, "{words}");
    assert!(rt; made.left.notes.written() == note, "{words}");
    assert!(rt;
        (made.content.as_slice() == OLD) == (status != 0),
        "{words}"
    );
}

#[test]
fn queries_of_many_terms_are_refused(rt: HostRuntime) {
    let words = "search index queries run until=final";
    let alloc = rt.alloc();
    check_terms(&rt, alloc, 64, 64, b"", words, 0, NOTHING);
    check_terms(
        &rt,
        alloc,
        65,
        65,
        b"",
        words,
        3,
        b"queries: refusal 56 at line 1\n",
    );
    check_terms(
        &rt,
        alloc,
        64,
        65,
        b"",
        words,
        3,
        b"queries: refusal 56 at line 4\n",
    );
    check_terms(
        &rt,
        alloc,
        65,
        1,
        b" c",
        words,
        3,
        b"queries: refusal 51 at line 5\n",
    );
    check_terms(
        &rt,
        alloc,
        65,
        65,
        b"",
        "search index queries run",
        0,
        NOTHING,
    );
}

// ---- a made collection

/// The names in run lines, each with a blank behind it.
fn names_in(rt: &impl Abort, alloc: Global, run: &[u8]) -> Vec<u8> {
    let mut names = Vec::new(alloc);
    for line in run.split(|byte| *byte == b'\n') {
        if let Some(name) = line.split(|byte| *byte == b' ').nth(2) {
            put(rt, &mut names, name);
            put(rt, &mut names, b" ");
        }
    }
    names
}

/// A search until final leaves the documents of one of all postings in their order, and fewer postings are scored.
fn check_made(rt: &impl Abort, alloc: Global, seed: u32, k: &str) {
    let (collection, mut draws) = make_with_draws(alloc, seed, 1000, 300).expect(rt, "no memory");
    let queries = drawn_queries(rt, alloc, &mut draws);
    let ciff = ciff_of(rt, alloc, &collection);
    drop(collection);
    let mut files = stopping_files(rt, alloc, ciff.as_slice(), queries.as_slice());
    let mut words = Vec::new(alloc);
    put(
        rt,
        &mut words,
        b"search index queries run budget=20,50,all k=",
    );
    put(rt, &mut words, k.as_bytes());
    let plain = str::from_utf8(words.as_slice()).expect(rt, "words");
    let all = made_by(rt, alloc, plain, &mut files, NONE, "run");
    put(rt, &mut words, b" until=final");
    let until = str::from_utf8(words.as_slice()).expect(rt, "words");
    let made = made_by(rt, alloc, until, &mut files, NONE, "run");
    assert_eq!(rt; made.left.status, 0);
    assert!(rt;
        names_in(rt, alloc, made.content.as_slice()) == names_in(rt, alloc, all.content.as_slice())
    );
    assert!(rt; made.left.out.written() != all.left.out.written());
}

#[test]
fn final_answers_are_those_of_all_postings(rt: HostRuntime) {
    check_made(&rt, rt.alloc(), 3, "1");
    check_made(&rt, rt.alloc(), 4, "10");
}
