// What an audit says of runs and reports.

ghost use Rattle.std.specs.Prelude.{None, ◌≤◌, length};

use super::searching::{
    CAT_DOG, CAT_DOG_REPORTS, CAT_DOG_RUN, CAT_DOG_WORDS, NOTHING, files_of, searched,
};
use super::{Made, NONE, TWO_TERMS, check_left, content_of, left_by, made_by, store};
use jass_base::{Cabinet, Failed, SliceFeed};
use std::alloc::Global;
use std::process::Abort;

const WORDS: &str = "audit index queries run reports k=2 budget=2,all mode=folded";

/// The run of the search with two spaces between its columns, and with tabs, blanks at its ends and empty lines.
const SPACED: &[u8] = b"\
301  Q0  d0  1  3  jass.1\n\
\n\
\t301 Q0\td2 2 3 jass.1 \r\n\
301  Q0  d0  1  3  jass.2\n\
301  Q0  d1  2  3  jass.2";

/// The same with another document in the third line.
const OTHER_NAME: &[u8] = b"\
301 Q0 d0 1 3 jass.1\n\
301 Q0 d2 2 3 jass.1\n\
\n\
301 Q0 d2 1 3 jass.2\n\
301 Q0 d1 2 3 jass.2\n";

/// The same without its last line.
const SHORTER: &[u8] = b"\
301 Q0 d0 1 3 jass.1\n\
301 Q0 d2 2 3 jass.1\n\
301 Q0 d0 1 3 jass.2\n";

/// The reports of the search with another bound in the first line.
const OTHER_BOUND: &[u8] = b"\
301 postings 2 segments 2 of 4 cutoff 3 next 2 bound 2 unknown 0 open\n\
301 postings 5 segments 4 of 4 cutoff 1 next 0 bound 0 unknown 0 final\n\
302 postings 0 segments 0 of 0 cutoff 0 next 0 bound 0 unknown 1 final\n\
302 postings 0 segments 0 of 0 cutoff 0 next 0 bound 0 unknown 1 final\n";

/// A run, reports, words, the status, the output, and the note.
type Audit<'a> = (&'a [u8], &'a [u8], &'a str, u8, &'a [u8], &'a [u8]);

const AUDITS: [Audit<'static>; 12] = [
    (
        CAT_DOG_RUN,
        CAT_DOG_REPORTS,
        WORDS,
        0,
        b"audit ok\n",
        NOTHING,
    ),
    (SPACED, CAT_DOG_REPORTS, WORDS, 0, b"audit ok\n", NOTHING),
    (
        OTHER_NAME,
        CAT_DOG_REPORTS,
        WORDS,
        0,
        b"audit no run line 3\n",
        NOTHING,
    ),
    (
        SHORTER,
        CAT_DOG_REPORTS,
        WORDS,
        0,
        b"audit no run line 4\n",
        NOTHING,
    ),
    (
        CAT_DOG_RUN,
        OTHER_BOUND,
        WORDS,
        0,
        b"audit no report line 1\n",
        NOTHING,
    ),
    (
        SHORTER,
        NOTHING,
        WORDS,
        0,
        b"audit no report line 1\n",
        NOTHING,
    ),
    (
        CAT_DOG_RUN,
        CAT_DOG_REPORTS,
        "audit index queries run reports k=2 budget=2,all mode=folded tag=jas",
        0,
        b"audit no run line 1\n",
        NOTHING,
    ),
    (
        b"301 Q0 d0 1 3 jass.1\n\n301 Q0 d2 2 3\n301 Q0 d0 x 3 jass.2\n",
        CAT_DOG_REPORTS,
        WORDS,
        3,
        NOTHING,
        b"run: refusal 80 at line 3\n",
    ),
    (
        b"301 Q0 d0 1 3 jass.1\r\n\r\n301 Q0 d2 2 -3 jass.1\n",
        CAT_DOG_REPORTS,
        WORDS,
        3,
        NOTHING,
        b"run: refusal 81 at line 3\n",
    ),
    (
        CAT_DOG_RUN,
        CAT_DOG_REPORTS,
        "audit index queries none reports",
        4,
        NOTHING,
        b"none: read fault\n",
    ),
    (
        b"x\n",
        CAT_DOG_REPORTS,
        "audit index queries run none",
        3,
        NOTHING,
        b"run: refusal 80 at line 1\n",
    ),
    (
        CAT_DOG_RUN,
        CAT_DOG_REPORTS,
        "audit index queries run none",
        4,
        NOTHING,
        b"none: read fault\n",
    ),
];

/// What an audit of a run and reports beside an index file and queries leaves.
fn audited(rt: &impl Abort, alloc: Global, run: &[u8], reports: &[u8], words: &str) -> Made {
    let mut files = files_of(rt, alloc, &TWO_TERMS, CAT_DOG, NONE);
    store(rt, &mut files, "run", run);
    store(rt, &mut files, "reports", reports);
    made_by(rt, alloc, words, &mut files, NONE, "run")
}

/// Each audit ends so, and leaves the run as it was.
fn check_audits(rt: &impl Abort, alloc: Global, audits: &[Audit<'_>]) {
    for (run, reports, words, status, out, notes) in audits {
        let made = audited(rt, alloc, run, reports, words);
        check_left(rt, words, &made.left, *status, out, notes);
        assert!(rt; made.content.as_slice() == *run, "{words}");
    }
}

#[test]
fn runs_and_reports_are_audited(rt: HostRuntime) {
    check_audits(&rt, rt.alloc(), &AUDITS);
}

/// What a search leaves is audited with a yes.
fn check_searched(rt: &impl Abort, alloc: Global) {
    let found = searched(rt, alloc, &TWO_TERMS, CAT_DOG, CAT_DOG_WORDS, NONE);
    let run = found.content.as_slice();
    let made = audited(rt, alloc, run, found.left.out.written(), WORDS);
    check_left(rt, WORDS, &made.left, 0, b"audit ok\n", NOTHING);
}

#[test]
fn what_a_search_leaves_is_audited(rt: HostRuntime) {
    check_searched(&rt, rt.alloc());
}

/// An index file and queries, and under each other name so many bytes; what they hold isn't told.
#[derive(Drop)]
struct LongFiles<'a> {
    index: &'a [u8],
    queries: &'a [u8],
    longest: u64,
    writes: u64,
}

impl<'a> Cabinet for LongFiles<'a> {
    ghost told = { λ _. None };

    ghost read_faults = { λ _. 0 };

    ghost write_faults = { λ f. f.writes };

    fn read_at(&mut self, name: &str, at: u64, buf: &mut [u8]) -> Result<usize, Failed> {
        if name == "index" {
            return Ok(copied(self.index, at, buf));
        }
        if name == "queries" {
            return Ok(copied(self.queries, at, buf));
        }
        Ok(self.longest.saturating_sub(at).min(buf.len() as u64) as usize)
    }

    fn create(&mut self, _name: &str) -> Result<(), Failed> {
        self.writes = self.writes.saturating_add(1);
        Err(Failed)
    }

    fn append(&mut self, _name: &str, _bytes: &[u8]) -> Result<(), Failed> {
        self.writes = self.writes.saturating_add(1);
        Err(Failed)
    }
}

/// Copies bytes of a file from a place on, and answers how many.
fn copied(file: &[u8], at: u64, buf: &mut [u8]) -> usize
    ensures { result ≤ length buf.old }
{
    let from = (at as usize).min(file.len());
    let count = (file.len() - from).min(buf.len());
    buf[..count].copy_from_slice(&file[from..from + count]);
    count
}

/// A run and reports of 2^32 + 1 bytes are refused before they are read: no memory has room for them here.
fn check_long(rt: &impl Abort, alloc: Global) {
    let files = files_of(rt, alloc, &TWO_TERMS, CAT_DOG, NONE);
    let index = content_of(rt, alloc, &files, "index");
    let mut long = LongFiles {
        index: index.as_slice(),
        queries: CAT_DOG,
        longest: 4_294_967_297,
        writes: 0,
    };
    let mut input = SliceFeed::new(b"");
    let left = left_by(rt, alloc, WORDS, &mut long, &mut input, &[], &[]);
    check_left(rt, WORDS, &left, 3, NOTHING, b"run: refusal 82 at line 0\n");
}

#[test]
fn a_run_may_have_so_many_bytes(rt: HostRuntime) {
    check_long(&rt, rt.alloc());
}
