// How runs end where an input, an output or the words are at fault.

use super::{Changed, ONE_TERM, changed, check_left, ran};
use std::alloc::Global;
use std::process::Abort;

/// A content of `b.ciff`, words, the reads and the puts that fail, the status and the note.
type End<'a> = (&'a [u8], &'a str, &'a [u64], &'a [u64], u8, &'a [u8]);

/// Ends of runs over whole collections, or over none.
const ENDS: [End<'static>; 15] = [
    (
        &[],
        "once b.ciff 3 all a",
        &[],
        &[],
        3,
        b"b.ciff: refusal 10 at 0\n",
    ),
    (&ONE_TERM, "once b.ciff 0 all a", &[], &[], 2, b"word 3\n"),
    (&ONE_TERM, "search i q", &[], &[], 2, b"word 4\n"),
    (&ONE_TERM, "search i q i", &[], &[], 2, b"word 4\n"),
    (&ONE_TERM, "audit i q r r", &[], &[], 2, b"word 5\n"),
    (&ONE_TERM, "", &[], &[], 2, b"word 1\n"),
    (&ONE_TERM, "once b.ciff 3 all", &[], &[], 2, b"word 5\n"),
    (&ONE_TERM, "rewrite b.ciff b.ciff", &[], &[], 2, b"word 3\n"),
    (&ONE_TERM, "--help once", &[], &[], 2, b"word 2\n"),
    (&ONE_TERM, "--version 2", &[], &[], 2, b"word 2\n"),
    (&ONE_TERM, "--help", &[], &[0], 5, b"output: write fault\n"),
    (
        &ONE_TERM,
        "once x.ciff 3 all a",
        &[],
        &[],
        4,
        b"x.ciff: read fault\n",
    ),
    (
        &ONE_TERM,
        "once b.ciff 3 all a",
        &[0],
        &[],
        4,
        b"b.ciff: read fault\n",
    ),
    (
        &ONE_TERM,
        "once b.ciff 3 all a",
        &[1],
        &[],
        4,
        b"b.ciff: read fault\n",
    ),
    (
        &ONE_TERM,
        "once b.ciff 3 all a",
        &[],
        &[0],
        5,
        b"output: write fault\n",
    ),
];

/// A run ends so, with its note alone, or with none where puts of notes fail.
fn check_end(rt: &impl Abort, alloc: Global, end: End<'_>, bad_notes: &[u64]) {
    let (ciff, words, bad_reads, bad_puts, status, notes) = end;
    let left = ran(rt, alloc, ciff, words, bad_reads, bad_puts, bad_notes);
    let notes = if bad_notes.is_empty() { notes } else { b"" };
    check_left(rt, words, &left, status, b"", notes);
}

/// Each run ends so; where its note can't be put, all else is the same.
fn check_ends(rt: &impl Abort, alloc: Global, ends: &[End<'_>]) {
    for end in ends {
        check_end(rt, alloc, *end, &[]);
        check_end(rt, alloc, *end, &[0]);
    }
}

/// Runs over collections of which a byte is missing, too many or another, each with its words and its note.
const REFUSED: [(Changed<'static>, &str, &[u8]); 5] = [
    (
        (&ONE_TERM, 70, &[]),
        "once b.ciff 3 all a",
        b"b.ciff: refusal 10 at 62\n",
    ),
    (
        (&ONE_TERM, 72, &[]),
        "once b.ciff 3 all a",
        b"b.ciff: refusal 21 at 71\n",
    ),
    (
        (&ONE_TERM, 71, &[(37, 0)]),
        "once b.ciff 3 all a",
        b"b.ciff: refusal 15 at 34\n",
    ),
    (
        (&ONE_TERM, 71, &[(26, 0x13)]),
        "once b.ciff 3 all a",
        b"b.ciff: refusal 12 at 26\n",
    ),
    (
        (&ONE_TERM, 70, &[]),
        "rewrite b.ciff c.ciff",
        b"b.ciff: refusal 10 at 62\n",
    ),
];

/// Each collection is refused so.
fn check_refused(rt: &impl Abort, alloc: Global, refused: &[(Changed<'_>, &str, &[u8])]) {
    for (change, words, notes) in refused {
        let ciff = changed(rt, alloc, *change);
        check_ends(rt, alloc, &[(ciff.as_slice(), words, &[], &[], 3, notes)]);
    }
}

#[test]
fn other_ends_are_noted(rt: HostRuntime) {
    check_refused(&rt, rt.alloc(), &REFUSED);
    check_ends(&rt, rt.alloc(), &ENDS);
}
