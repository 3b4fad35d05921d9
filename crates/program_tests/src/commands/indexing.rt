// Index files made, checked, exported and upgraded, and with calls that fail.

use super::{
    Bad, Call, Changed, Made, NONE, ONE_TERM, SLOPPY, cabinet_with, changed, check_left, is_muted,
    made_by, only, store,
};
use jass_base::MemCabinet;
use std::alloc::Global;
use std::process::Abort;

/// The index file of `ONE_TERM`, by term frequency and with raw weights.
const ONE_TERM_INDEX: [u8; 103] = [
    0x4a, 0x41, 0x53, 0x53, 0x49, 0x44, 0x58, 0x32, 0x67, 0x00, 0x00, 0x00, 0x00, 0x00, 0x00, 0x00,
    0x03, 0x00, 0x00, 0x00, 0x01, 0x00, 0x00, 0x00, 0x03, 0x00, 0x00, 0x00, 0x00, 0x00, 0x00, 0x00,
    0x09, 0x00, 0x00, 0x00, 0x00, 0x00, 0x00, 0x00, 0x02, 0x00, 0x00, 0x00, 0x64, 0x30, 0x02, 0x00,
    0x00, 0x00, 0x64, 0x31, 0x02, 0x00, 0x00, 0x00, 0x64, 0x32, 0x00, 0x00, 0x01, 0x00, 0x61, 0x03,
    0x00, 0x00, 0x00, 0x09, 0x00, 0x01, 0x00, 0x00, 0x00, 0x00, 0x01, 0x00, 0x00, 0x00, 0x05, 0x00,
    0x01, 0x00, 0x00, 0x00, 0x00, 0x01, 0x00, 0x00, 0x00, 0x01, 0x00, 0x01, 0x00, 0x00, 0x00, 0x00,
    0x01, 0x00, 0x00, 0x00, 0x00, 0x01, 0x02,
];

/// What it is exported as.
const ONE_TERM_EXPORT: [u8; 56] = [
    0x0c, 0x08, 0x01, 0x10, 0x01, 0x18, 0x03, 0x20, 0x01, 0x28, 0x03, 0x30, 0x0f, 0x17, 0x0a, 0x01,
    0x61, 0x10, 0x03, 0x18, 0x0f, 0x22, 0x02, 0x10, 0x09, 0x22, 0x04, 0x08, 0x01, 0x10, 0x05, 0x22,
    0x04, 0x08, 0x01, 0x10, 0x01, 0x04, 0x12, 0x02, 0x64, 0x30, 0x06, 0x08, 0x01, 0x12, 0x02, 0x64,
    0x31, 0x06, 0x08, 0x02, 0x12, 0x02, 0x64, 0x32,
];

/// The same index in version 1.
const ONE_TERM_OLD: [u8; 105] = [
    0x4a, 0x41, 0x53, 0x53, 0x49, 0x44, 0x58, 0x31, 0x69, 0x00, 0x00, 0x00, 0x00, 0x00, 0x00, 0x00,
    0x03, 0x00, 0x00, 0x00, 0x01, 0x00, 0x00, 0x00, 0x03, 0x00, 0x00, 0x00, 0x00, 0x00, 0x00, 0x00,
    0x09, 0x00, 0x00, 0x00, 0x00, 0x00, 0x00, 0x00, 0x00, 0x00, 0x00, 0x00, 0x02, 0x00, 0x00, 0x00,
    0x04, 0x00, 0x00, 0x00, 0x06, 0x00, 0x00, 0x00, 0x64, 0x30, 0x64, 0x31, 0x64, 0x32, 0x01, 0x00,
    0x61, 0x03, 0x00, 0x00, 0x00, 0x09, 0x00, 0x01, 0x00, 0x00, 0x00, 0x00, 0x01, 0x00, 0x00, 0x00,
    0x05, 0x00, 0x01, 0x00, 0x00, 0x00, 0x00, 0x01, 0x00, 0x00, 0x00, 0x01, 0x00, 0x01, 0x00, 0x00,
    0x00, 0x00, 0x01, 0x00, 0x00, 0x00, 0x00, 0x01, 0x02,
];

/// Documents `d0` to `d4`. The term `a` stands once in each: more postings than are kept without memory
/// of their own. `b` stands in `d0`, 2,048 times: too often for its posting to be kept.
const OFTEN: [u8; 97] = [
    0x0d, 0x08, 0x01, 0x10, 0x02, 0x18, 0x05, 0x20, 0x02, 0x28, 0x05, 0x30, 0x85, 0x10, 0x23, 0x0a,
    0x01, 0x61, 0x10, 0x05, 0x18, 0x05, 0x22, 0x02, 0x10, 0x01, 0x22, 0x04, 0x08, 0x01, 0x10, 0x01,
    0x22, 0x04, 0x08, 0x01, 0x10, 0x01, 0x22, 0x04, 0x08, 0x01, 0x10, 0x01, 0x22, 0x04, 0x08, 0x01,
    0x10, 0x01, 0x0d, 0x0a, 0x01, 0x62, 0x10, 0x01, 0x18, 0x80, 0x10, 0x22, 0x03, 0x10, 0x80, 0x10,
    0x04, 0x12, 0x02, 0x64, 0x30, 0x06, 0x08, 0x01, 0x12, 0x02, 0x64, 0x31, 0x06, 0x08, 0x02, 0x12,
    0x02, 0x64, 0x32, 0x06, 0x08, 0x03, 0x12, 0x02, 0x64, 0x33, 0x06, 0x08, 0x04, 0x12, 0x02, 0x64,
    0x34,
];

/// The index file of `OFTEN`, by term frequency and with raw weights.
const OFTEN_INDEX: [u8; 112] = [
    0x4a, 0x41, 0x53, 0x53, 0x49, 0x44, 0x58, 0x32, 0x70, 0x00, 0x00, 0x00, 0x00, 0x00, 0x00, 0x00,
    0x05, 0x00, 0x00, 0x00, 0x02, 0x00, 0x00, 0x00, 0x06, 0x00, 0x00, 0x00, 0x00, 0x00, 0x00, 0x00,
    0x00, 0x08, 0x00, 0x00, 0x00, 0x00, 0x00, 0x00, 0x02, 0x00, 0x00, 0x00, 0x64, 0x30, 0x02, 0x00,
    0x00, 0x00, 0x64, 0x31, 0x02, 0x00, 0x00, 0x00, 0x64, 0x32, 0x02, 0x00, 0x00, 0x00, 0x64, 0x33,
    0x02, 0x00, 0x00, 0x00, 0x64, 0x34, 0x00, 0x00, 0x01, 0x00, 0x61, 0x01, 0x00, 0x00, 0x00, 0x01,
    0x00, 0x05, 0x00, 0x00, 0x00, 0x02, 0x01, 0x00, 0x00, 0x00, 0x00, 0x00, 0x01, 0x00, 0x62, 0x01,
    0x00, 0x00, 0x00, 0x00, 0x08, 0x01, 0x00, 0x00, 0x00, 0x00, 0x01, 0x00, 0x00, 0x00, 0x1f, 0x00,
];

const TOTALS: &[u8] = b"documents 3 terms 1 postings 3 greatest 9\n";

const NOTHING: &[u8] = b"";

/// What the file `b` holds before a run.
const OLD: &[u8] = b"old";

/// A cabinet with the files `a` and `b`.
fn two_files(rt: &impl Abort, alloc: Global, content: &[u8], bad: Bad) -> MemCabinet {
    let mut files = cabinet_with(rt, alloc, "a", content, &[bad.reads], &[bad.writes]);
    store(rt, &mut files, "b", OLD);
    files
}

/// Runs words over a cabinet with the files `a` and `b`, and takes the content of `b`.
fn outcome_of(rt: &impl Abort, alloc: Global, content: &[u8], words: &str, bad: Bad) -> Made {
    let mut files = two_files(rt, alloc, content, bad);
    made_by(rt, alloc, words, &mut files, bad, "b")
}

/// A content of the file `a`, words, the status, the output, the note, and what `b` holds then.
type Run<'a> = (&'a [u8], &'a str, u8, &'a [u8], &'a [u8], &'a [u8]);

/// Runs over whole files.
const RUNS: [Run<'static>; 9] = [
    (&ONE_TERM, "import a b", 0, TOTALS, NOTHING, &ONE_TERM_INDEX),
    (
        &OFTEN,
        "import a b",
        0,
        b"documents 5 terms 2 postings 6 greatest 2048\n",
        NOTHING,
        &OFTEN_INDEX,
    ),
    (&ONE_TERM_INDEX, "check a", 0, TOTALS, NOTHING, OLD),
    (
        &ONE_TERM_OLD,
        "check a",
        3,
        NOTHING,
        b"a: refusal 39 at 0\n",
        OLD,
    ),
    (
        &ONE_TERM_INDEX,
        "check x.idx",
        4,
        NOTHING,
        b"x.idx: read fault\n",
        OLD,
    ),
    (
        &ONE_TERM_INDEX,
        "export a b",
        0,
        NOTHING,
        NOTHING,
        &ONE_TERM_EXPORT,
    ),
    (
        &ONE_TERM_EXPORT,
        "import a b",
        0,
        TOTALS,
        NOTHING,
        &ONE_TERM_INDEX,
    ),
    (
        &ONE_TERM_OLD,
        "migrate a b",
        0,
        TOTALS,
        NOTHING,
        &ONE_TERM_INDEX,
    ),
    (
        &ONE_TERM_INDEX,
        "migrate a b",
        3,
        NOTHING,
        b"a: refusal 40 at 0\n",
        OLD,
    ),
];

/// A run in which these calls fail ends as told, but for the note beside it.
fn check_run(rt: &impl Abort, alloc: Global, run: Run<'_>, bad: Bad, notes: &[u8]) {
    let (content, words, status, out, _, made) = run;
    let outcome = outcome_of(rt, alloc, content, words, bad);
    check_left(rt, words, &outcome.left, status, out, notes);
    assert!(rt; outcome.content.as_slice() == made, "{words}");
}

/// Each run ends as told; where its note can't be put, all else is the same.
fn check_runs(rt: &impl Abort, alloc: Global, runs: &[Run<'_>]) {
    for run in runs {
        check_run(rt, alloc, *run, NONE, run.4);
        check_run(rt, alloc, *run, only_notes(NONE), NOTHING);
    }
}

#[test]
fn index_files_are_made_and_checked(rt: HostRuntime) {
    check_runs(&rt, rt.alloc(), &RUNS);
}

/// Imports by other weights, each with its words, its output, and the index file.
const SPREAD: [(&[u8], &str, &[u8], Changed<'static>); 2] = [
    (
        &OFTEN,
        "import a b bits=8",
        b"documents 5 terms 2 postings 6 greatest 255\n",
        (
            &OFTEN_INDEX,
            112,
            &[(32, 255), (33, 0), (99, 255), (100, 0)],
        ),
    ),
    (
        &ONE_TERM,
        "import a b bits=8 weights=bm25",
        b"documents 3 terms 1 postings 3 greatest 255\n",
        (&ONE_TERM_INDEX, 103, &[(32, 255), (67, 255), (78, 220)]),
    ),
];

/// Each import makes the index file beside it.
fn check_spread(rt: &impl Abort, alloc: Global, imports: &[(&[u8], &str, &[u8], Changed<'_>)]) {
    for (content, words, out, change) in imports {
        let index = changed(rt, alloc, *change);
        let run = (*content, *words, 0, *out, NOTHING, index.as_slice());
        check_runs(rt, alloc, &[run]);
    }
}

#[test]
fn weights_are_spread_over_impacts(rt: HostRuntime) {
    check_spread(&rt, rt.alloc(), &SPREAD);
}

/// Spoilt files, each with a command that refuses it and the note of it.
const REFUSED: [(Changed<'static>, &str, &[u8]); 6] = [
    ((&ONE_TERM, 70, &[]), "import a b", b"a: refusal 10 at 62\n"),
    (
        (&ONE_TERM_INDEX, 102, &[]),
        "check a",
        b"a: refusal 41 at 8\n",
    ),
    (
        (&ONE_TERM_INDEX, 103, &[(102, 3)]),
        "check a",
        b"a: refusal 33 at 102\n",
    ),
    (
        (&ONE_TERM_INDEX, 103, &[(102, 0)]),
        "check a",
        b"a: refusal 46 at 102\n",
    ),
    (
        (&ONE_TERM_INDEX, 103, &[(0, 0x4b)]),
        "check a",
        b"a: refusal 40 at 0\n",
    ),
    (
        (&ONE_TERM_INDEX, 103, &[(102, 0)]),
        "export a b",
        b"a: refusal 46 at 102\n",
    ),
];

/// Each file is refused so, and nothing is made of it.
fn check_refused(rt: &impl Abort, alloc: Global, refused: &[(Changed<'_>, &str, &[u8])]) {
    for (change, words, note) in refused {
        let content = changed(rt, alloc, *change);
        let run = (content.as_slice(), *words, 3, NOTHING, *note, OLD);
        check_runs(rt, alloc, &[run]);
    }
}

#[test]
fn spoilt_files_are_refused(rt: HostRuntime) {
    check_refused(&rt, rt.alloc(), &REFUSED);
}

/// The same calls, and the first put on the notes.
fn only_notes(bad: Bad) -> Bad {
    Bad { notes: 0, ..bad }
}

/// A content of the file `a`, words, the kind of the call that fails, the status, the note, and the text of which `b`
/// may hold a front.
type Case<'a> = (&'a [u8], &'a str, Call, u8, &'a [u8], Option<&'a [u8]>);

/// Whether `b` is as before the run, or holds a front of its text. It is as before where the first write of a file
/// fails, or one of the first four reads, which come before the last pass of an import.
fn has_front(left: &Made, call: Call, number: u64, text: Option<&[u8]>) -> bool {
    let is_begun = match call {
        Call::Read => number > 3,
        Call::Write => number > 0,
        Call::Put => true,
    };
    let is_front = match text {
        Some(text) => text.starts_with(left.content.as_slice()),
        None => false,
    };
    left.content.as_slice() == OLD || is_begun && is_front
}

/// Whether a run has written and printed all, so that only the end of its writing can have failed.
fn is_whole(made: &Made, words: &str, text: Option<&[u8]>) -> bool {
    let printed = if words.starts_with("import") || words.starts_with("migrate") {
        TOTALS
    } else {
        NOTHING
    };
    match text {
        Some(text) => made.content.as_slice() == text && made.left.out.written() == printed,
        None => false,
    }
}

/// Whether a run that isn't done ends as told.
fn ends_as_told(made: &Made, case: Case<'_>, number: u64) -> bool {
    let (_, words, call, status, notes, text) = case;
    made.left.status == status
        && (made.left.out.written().is_empty() || is_whole(made, words, text))
        && made.left.notes.written() == notes
        && has_front(made, call, number, text)
}

/// Whether a run whose note can't be put either leaves all else as another run did.
fn ends_muted(rt: &impl Abort, alloc: Global, case: Case<'_>, number: u64, other: &Made) -> bool {
    let (content, words, call, ..) = case;
    let bad = only_notes(only(call, number));
    is_muted(&outcome_of(rt, alloc, content, words, bad), other)
}

/// Whether each run in which one call fails ends as told, from the first call on until a run is done. The last write
/// ends the writing, behind all that is written and printed.
fn each_ends(rt: &impl Abort, alloc: Global, case: Case<'_>) -> bool {
    let (content, words, call, _, _, text) = case;
    let mut is_last = false;
    for number in 0..40 {
        let made = outcome_of(rt, alloc, content, words, only(call, number));
        if made.left.status == 0 {
            return is_last && made.left.notes.written().is_empty();
        }
        if !ends_as_told(&made, case, number) || !ends_muted(rt, alloc, case, number, &made) {
            return false;
        }
        is_last = match call {
            Call::Write => is_whole(&made, words, text),
            _ => true,
        };
    }
    false
}

const READ: &[u8] = b"a: read fault\n";

const WRITE: &[u8] = b"b: write fault\n";

const PUT: &[u8] = b"output: write fault\n";

/// The texts that commands write.
const MADE: Option<&[u8]> = Some(&ONE_TERM_INDEX);

const EXPORTED: Option<&[u8]> = Some(&ONE_TERM_EXPORT);

const REWRITTEN: Option<&[u8]> = Some(&ONE_TERM);

/// Commands, with each kind of call that they make.
const CASES: [Case<'static>; 12] = [
    (&SLOPPY, "rewrite a b", Call::Read, 4, READ, None),
    (&SLOPPY, "rewrite a b", Call::Write, 5, WRITE, REWRITTEN),
    (&ONE_TERM, "import a b", Call::Read, 4, READ, MADE),
    (&ONE_TERM, "import a b", Call::Write, 5, WRITE, MADE),
    (&ONE_TERM, "import a b", Call::Put, 5, PUT, MADE),
    (&ONE_TERM_INDEX, "check a", Call::Read, 4, READ, None),
    (&ONE_TERM_INDEX, "check a", Call::Put, 5, PUT, None),
    (&ONE_TERM_INDEX, "export a b", Call::Read, 4, READ, None),
    (
        &ONE_TERM_INDEX,
        "export a b",
        Call::Write,
        5,
        WRITE,
        EXPORTED,
    ),
    (&ONE_TERM_OLD, "migrate a b", Call::Read, 4, READ, None),
    (&ONE_TERM_OLD, "migrate a b", Call::Write, 5, WRITE, MADE),
    (&ONE_TERM_OLD, "migrate a b", Call::Put, 5, PUT, MADE),
];

/// Each command ends as told, whichever of its calls fails.
fn check_cases(rt: &impl Abort, alloc: Global, cases: &[Case<'_>]) {
    for case in cases {
        let words = case.1;
        assert!(rt; each_ends(rt, alloc, *case), "{words}");
    }
}

#[test]
fn failed_calls_are_noted(rt: HostRuntime) {
    check_cases(&rt, rt.alloc(), &CASES);
}
