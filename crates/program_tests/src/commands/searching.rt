// Queries answered over an index file: run lines and report lines.

use super::{
    Bad, Changed, LATER_FIRST, LEVEL_AT_LAST, Made, NONE, ONE_TERM, TWO_TERMS, cabinet_with,
    changed, check_left, made_by, store,
};
use jass_base::MemCabinet;
use std::alloc::Global;
use std::process::Abort;

pub(super) const NOTHING: &[u8] = b"";

/// Two queries, one of a term that is unknown, with a line between them that is empty.
pub(super) const CAT_DOG: &[u8] = b"301\tCAT  dog\r\n\n302 zzz\n";

pub(super) const CAT_DOG_WORDS: &str = "search index queries run k=2 budget=2,all mode=folded";

pub(super) const CAT_DOG_REPORTS: &[u8] = b"\
301 postings 2 segments 2 of 4 cutoff 3 next 2 bound 3 unknown 0 open\n\
301 postings 5 segments 4 of 4 cutoff 1 next 0 bound 0 unknown 0 final\n\
302 postings 0 segments 0 of 0 cutoff 0 next 0 bound 0 unknown 1 final\n\
302 postings 0 segments 0 of 0 cutoff 0 next 0 bound 0 unknown 1 final\n";

pub(super) const CAT_DOG_RUN: &[u8] = b"\
301 Q0 d0 1 3 jass.1\n\
301 Q0 d2 2 3 jass.1\n\
301 Q0 d0 1 3 jass.2\n\
301 Q0 d1 2 3 jass.2\n";

/// What the file `run` holds before a search.
pub(super) const OLD: &[u8] = b"old";

/// The files of a search: the index file of a collection, queries, and what `run` holds before it.
pub(super) fn files_of(
    rt: &impl Abort,
    alloc: Global,
    ciff: &[u8],
    queries: &[u8],
    bad: Bad,
) -> MemCabinet {
    let index = index_of(rt, alloc, ciff);
    let mut files = cabinet_with(
        rt,
        alloc,
        "index",
        index.as_slice(),
        &[bad.reads],
        &[bad.writes],
    );
    store(rt, &mut files, "queries", queries);
    store(rt, &mut files, "run", OLD);
    files
}

/// Makes the index file of a collection, and runs the words of a search over it and queries, in which calls fail. Takes
/// the content of the file `run`.
pub(super) fn searched(
    rt: &impl Abort,
    alloc: Global,
    ciff: &[u8],
    queries: &[u8],
    words: &str,
    bad: Bad,
) -> Made {
    let mut files = files_of(rt, alloc, ciff, queries, bad);
    made_by(rt, alloc, words, &mut files, bad, "run")
}

/// The index file of a collection.
fn index_of(rt: &impl Abort, alloc: Global, ciff: &[u8]) -> Vec<u8> {
    let mut files = cabinet_with(rt, alloc, "ciff", ciff, &[], &[]);
    let Made { left: _, content } = made_by(
        rt,
        alloc,
        "import ciff index",
        &mut files,
        NONE,
        "index",
    );
    content
}

/// A collection, queries, words, the output, and what `run` holds then.
type Search<'a> = (&'a [u8], &'a [u8], &'a str, &'a [u8], &'a [u8]);

/// Searches in index files of whole collections.
const SEARCHES: [Search<'static>; 14] = [
    (
        &TWO_TERMS,
        CAT_DOG,
        CAT_DOG_WORDS,
        CAT_DOG_REPORTS,
        CAT_DOG_RUN,
    ),
    (
        &ONE_TERM,
        b"q a",
        "search index queries run",
        b"q postings 3 segments 3 of 3 cutoff 1 next 0 bound 0 unknown 0 final\n",
        b"q Q0 d0 1 9 jass\nq Q0 d1 2 5 jass\nq Q0 d2 3 1 jass\n",
    ),
    (
        &TWO_TERMS,
        b"q cat dog",
        "search index queries run k=4",
        b"q postings 5 segments 4 of 4 cutoff 1 next 0 bound 0 unknown 0 final\n",
        b"q Q0 d0 1 3 jass\nq Q0 d1 2 3 jass\nq Q0 d2 3 3 jass\nq Q0 d3 4 1 jass\n",
    ),
    (
        &TWO_TERMS,
        b"q cat dog",
        "search index queries run k=4 budget=4",
        b"q postings 3 segments 3 of 4 cutoff 2 next 1 bound 1 unknown 0 open\n",
        b"q Q0 d0 1 3 jass\nq Q0 d2 2 3 jass\nq Q0 d1 3 2 jass\n",
    ),
    (
        &TWO_TERMS,
        b"q cat dog",
        "search index queries run k=4 budget=0",
        b"q postings 0 segments 0 of 4 cutoff 0 next 3 bound 6 unknown 0 open\n",
        NOTHING,
    ),
    (
        &TWO_TERMS,
        b"q cat dog",
        "search index queries run k=2 budget=2",
        b"q postings 2 segments 2 of 4 cutoff 3 next 2 bound 3 unknown 0 open\n",
        b"q Q0 d0 1 3 jass\nq Q0 d2 2 3 jass\n",
    ),
    (
        &ONE_TERM,
        b"q a",
        "search index queries run k=1 budget=1",
        b"q postings 1 segments 1 of 3 cutoff 9 next 5 bound 5 unknown 0 final\n",
        b"q Q0 d0 1 9 jass\n",
    ),
    (
        &ONE_TERM,
        b"q a",
        "search index queries run k=3 budget=2",
        b"q postings 2 segments 2 of 3 cutoff 5 next 1 bound 1 unknown 0 open\n",
        b"q Q0 d0 1 9 jass\nq Q0 d1 2 5 jass\n",
    ),
    (
        &ONE_TERM,
        b"q a",
        "search index queries run k=2 budget=2",
        b"q postings 2 segments 2 of 3 cutoff 5 next 1 bound 1 unknown 0 final\n",
        b"q Q0 d0 1 9 jass\nq Q0 d1 2 5 jass\n",
    ),
    (
        &LATER_FIRST,
        b"q p q",
        "search index queries run k=1 budget=1",
        b"q postings 1 segments 1 of 2 cutoff 3 next 3 bound 3 unknown 0 open\n",
        b"q Q0 d1 1 3 jass\n",
    ),
    (
        &ONE_TERM,
        b"q a a",
        "search index queries run k=4",
        b"q postings 3 segments 3 of 3 cutoff 2 next 0 bound 0 unknown 0 final\n",
        b"q Q0 d0 1 18 jass\nq Q0 d1 2 10 jass\nq Q0 d2 3 2 jass\n",
    ),
    (
        &ONE_TERM,
        b"q a zzz",
        "search index queries run k=4",
        b"q postings 3 segments 3 of 3 cutoff 1 next 0 bound 0 unknown 1 final\n",
        b"q Q0 d0 1 9 jass\nq Q0 d1 2 5 jass\nq Q0 d2 3 1 jass\n",
    ),
    (
        &LEVEL_AT_LAST,
        b"q p q",
        "search index queries run k=2 budget=2",
        b"q postings 2 segments 2 of 3 cutoff 2 next 1 bound 1 unknown 0 set\n",
        b"q Q0 d1 1 3 jass\nq Q0 d0 2 2 jass\n",
    ),
    (
        &TWO_TERMS,
        b"q cat^3 dog",
        "search index queries run tag=t budget=2,all k=4",
        b"q postings 2 segments 2 of 4 cutoff 3 next 3 bound 5 unknown 0 open\nq postings 5 segments 4 of 4 cutoff 2 next 0 bound 0 unknown 0 final\n",
        b"q Q0 d0 1 9 t.1\nq Q0 d2 2 3 t.1\nq Q0 d0 1 9 t.2\nq Q0 d1 2 5 t.2\nq Q0 d2 3 3 t.2\nq Q0 d3 4 3 t.2\n",
    ),
];

/// A search is done, and gives what stands beside it.
fn check_search(rt: &impl Abort, alloc: Global, search: Search<'_>) {
    let (ciff, queries, words, out, run) = search;
    let made = searched(rt, alloc, ciff, queries, words, NONE);
    check_left(rt, words, &made.left, 0, out, NOTHING);
    assert!(rt; made.content.as_slice() == run, "{words}");
}

/// Each search over a whole collection ends so.
fn check_searches(rt: &impl Abort, alloc: Global, searches: &[Search<'_>]) {
    for search in searches {
        check_search(rt, alloc, *search);
    }
}

/// The same over a changed collection.
type ChangedSearch<'a> = (Changed<'a>, &'a [u8], &'a str, &'a [u8], &'a [u8]);

/// Searches in which a weight or the order of the terms is another.
const CHANGED_SEARCHES: [ChangedSearch<'static>; 2] = [
    (
        (&LATER_FIRST, 64, &[(25, b'q'), (39, b'p')]),
        b"q p q",
        "search index queries run k=1 budget=1",
        b"q postings 1 segments 1 of 2 cutoff 3 next 3 bound 3 unknown 0 final\n",
        b"q Q0 d0 1 3 jass\n",
    ),
    (
        (&ONE_TERM, 71, &[(39, 8), (45, 7)]),
        b"q a",
        "search index queries run k=1 budget=1,1",
        b"q postings 1 segments 1 of 3 cutoff 9 next 8 bound 8 unknown 0 final\nq postings 2 segments 2 of 3 cutoff 8 next 7 bound 7 unknown 0 open\n",
        b"q Q0 d0 1 9 jass.1\nq Q0 d0 1 9 jass.2\n",
    ),
];

/// Each search over a changed collection ends so.
fn check_changed(rt: &impl Abort, alloc: Global, searches: &[ChangedSearch<'_>]) {
    for (change, queries, words, out, run) in searches {
        let ciff = changed(rt, alloc, *change);
        check_search(rt, alloc, (ciff.as_slice(), queries, words, out, run));
    }
}

#[test]
fn queries_are_answered(rt: HostRuntime) {
    check_searches(&rt, rt.alloc(), &SEARCHES);
    check_changed(&rt, rt.alloc(), &CHANGED_SEARCHES);
}
