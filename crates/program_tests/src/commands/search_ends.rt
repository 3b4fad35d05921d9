// How a search ends at its limits, and where a call fails.

ghost use Rattle.std.specs.Prelude.{◌<◌};

use super::searching::{
    CAT_DOG, CAT_DOG_REPORTS, CAT_DOG_RUN, CAT_DOG_WORDS, NOTHING, OLD, searched,
};
use super::{Bad, Call, Made, NONE, ONE_TERM, TWO_TERMS, check_left, is_muted, only, put};
use std::alloc::Global;
use std::process::Abort;

/// The front of a collection of one document and 257 terms, each with one posting: its header.
const MANY_TERMS_FRONT: [u8; 27] = [
    0x1a, 0x08, 0x01, 0x10, 0x81, 0x02, 0x18, 0x01, 0x20, 0x81, 0x02, 0x28, 0x01, 0x30, 0xff, 0xfd,
    0x83, 0x08, 0x39, 0x00, 0x00, 0x00, 0xf0, 0xef, 0x0f, 0x70, 0x41,
];

/// One of its terms, whose three bytes stand from the fourth on; its frequency is 65,535.
const MANY_TERMS_LIST: [u8; 18] = [
    0x11, 0x0a, 0x03, b't', b'0', b'0', 0x10, 0x01, 0x18, 0xff, 0xff, 0x03, 0x22, 0x04, 0x10, 0xff,
    0xff, 0x03,
];

/// Its document.
const MANY_TERMS_DOC: [u8; 10] = [0x09, 0x12, 0x02, b'd', b'0', 0x18, 0xff, 0xfd, 0x83, 0x08];

const HEX: &[u8; 16] = b"0123456789abcdef";

/// Puts the list of the term of a number.
fn put_list(rt: &impl Abort, bytes: &mut Vec<u8>, number: usize)
    requires { number < 256 }
{
    let mut list = MANY_TERMS_LIST;
    list[4] = HEX[number / 16];
    list[5] = HEX[number % 16];
    put(rt, bytes, &list);
}

/// Puts the list of the last term, and the document.
fn put_end(rt: &impl Abort, bytes: &mut Vec<u8>) {
    let mut last = MANY_TERMS_LIST;
    last[3] = b'u';
    put(rt, bytes, &last);
    put(rt, bytes, &MANY_TERMS_DOC);
}

/// The bytes of the collection of 257 terms: `t00` to `tff`, and `u00`.
fn many_terms(rt: &impl Abort, alloc: Global) -> Vec<u8> {
    let mut bytes = Vec::new(alloc);
    put(rt, &mut bytes, &MANY_TERMS_FRONT);
    for number in 0..256usize {
        put_list(rt, &mut bytes, number);
    }
    put_end(rt, &mut bytes);
    bytes
}

/// Puts a mention of the term of a number, 255 times.
fn put_mention(rt: &impl Abort, line: &mut Vec<u8>, number: usize)
    requires { number < 256 }
{
    put(rt, line, &[b' ', b't', HEX[number / 16], HEX[number % 16]]);
    put(rt, line, b"^255");
}

/// A query that names `t00` to `tff` 255 times each, and what stands behind them.
fn heaviest_query(rt: &impl Abort, alloc: Global, behind: &[u8]) -> Vec<u8> {
    let mut line = Vec::new(alloc);
    put(rt, &mut line, b"q");
    for number in 0..256usize {
        put_mention(rt, &mut line, number);
    }
    put(rt, &mut line, behind);
    line
}

const WORDS: &str = "search index queries run";

/// What a search for the heaviest query leaves.
fn heaviest_search(rt: &impl Abort, alloc: Global, behind: &[u8]) -> Made {
    let ciff = many_terms(rt, alloc);
    let queries = heaviest_query(rt, alloc, behind);
    searched(rt, alloc, ciff.as_slice(), queries.as_slice(), WORDS, NONE)
}

/// What stands behind the heaviest query, the status, the output, the note, and what `run` holds then.
type Heaviest<'a> = (&'a [u8], u8, &'a [u8], &'a [u8], &'a [u8]);

const HEAVIEST: [Heaviest<'static>; 3] = [
    (
        b"",
        0,
        b"q postings 256 segments 256 of 256 cutoff 16711425 next 0 bound 0 unknown 0 final\n",
        NOTHING,
        b"q Q0 d0 1 4278124800 jass\n",
    ),
    (b" u00", 3, NOTHING, b"queries: refusal 52 at line 1\n", OLD),
    (b" t00", 3, NOTHING, b"queries: refusal 53 at line 1\n", OLD),
];

/// Each search ends as told.
fn check_heaviest(rt: &impl Abort, alloc: Global, searches: &[Heaviest<'_>]) {
    for (behind, status, out, notes, run) in searches {
        let made = heaviest_search(rt, alloc, behind);
        check_left(rt, WORDS, &made.left, *status, out, notes);
        assert!(rt; made.content.as_slice() == *run);
    }
}

#[test]
fn queries_reach_their_limits(rt: HostRuntime) {
    check_heaviest(&rt, rt.alloc(), &HEAVIEST);
}

/// A search over two terms, whose calls fail where named.
fn cat_dog(rt: &impl Abort, alloc: Global, bad: Bad) -> Made {
    searched(rt, alloc, &TWO_TERMS, CAT_DOG, CAT_DOG_WORDS, bad)
}

/// The kind of the call that fails, the status, the note where the first such call fails, and that where another does.
type Case<'a> = (Call, u8, &'a [u8], &'a [u8]);

const CASES: [Case<'static>; 3] = [
    (
        Call::Read,
        4,
        b"index: read fault\n",
        b"queries: read fault\n",
    ),
    (Call::Write, 5, b"run: write fault\n", b"run: write fault\n"),
    (
        Call::Put,
        5,
        b"output: write fault\n",
        b"output: write fault\n",
    ),
];

/// Whether the run and the reports are as before the search where a read fails, and else fronts of their texts. The run
/// is as before where the first write of a file fails, and it is not where another does.
fn has_fronts(made: &Made, call: Call, number: u64) -> bool {
    let run = made.content.as_slice();
    let out = made.left.out.written();
    match call {
        Call::Read => run == OLD && out.is_empty(),
        Call::Write if number == 0 => run == OLD && CAT_DOG_REPORTS.starts_with(out),
        _ => CAT_DOG_RUN.starts_with(run) && CAT_DOG_REPORTS.starts_with(out),
    }
}

/// Whether a search that isn't done ends as told. Its note is the first of two where the first call fails.
fn ends_as_told(made: &Made, case: Case<'_>, number: u64) -> bool {
    let (call, status, first, second) = case;
    let notes = made.left.notes.written();
    made.left.status == status
        && (notes == first || number > 0 && notes == second)
        && has_fronts(made, call, number)
}

/// Whether a search whose note can't be put either leaves all else as another did.
fn ends_muted(rt: &impl Abort, alloc: Global, call: Call, number: u64, other: &Made) -> bool {
    let bad = Bad {
        notes: 0,
        ..only(call, number)
    };
    is_muted(&cat_dog(rt, alloc, bad), other)
}

/// Whether each search in which one call fails ends as told, from the first call on until a search is done. The last
/// write ends the writing, behind the whole run and all reports.
fn each_search_ends(rt: &impl Abort, alloc: Global, case: Case<'_>) -> bool {
    let call = case.0;
    let mut is_last = false;
    for number in 0..40 {
        let made = cat_dog(rt, alloc, only(call, number));
        if made.left.status == 0 {
            return is_last && made.left.notes.written().is_empty();
        }
        if !ends_as_told(&made, case, number) || !ends_muted(rt, alloc, call, number, &made) {
            return false;
        }
        is_last = match call {
            Call::Write => {
                made.content.as_slice() == CAT_DOG_RUN && made.left.out.written() == CAT_DOG_REPORTS
            }
            _ => true,
        };
    }
    false
}

/// Searches end as told, whichever of their calls fails.
fn check_cases(rt: &impl Abort, alloc: Global, cases: &[Case<'_>]) {
    for case in cases {
        assert!(rt; each_search_ends(rt, alloc, *case));
    }
}

#[test]
fn failed_calls_of_a_search_are_noted(rt: HostRuntime) {
    check_cases(&rt, rt.alloc(), &CASES);
}

/// One query of a term, and 2,400 of a term that is unknown.
fn many_queries(rt: &impl Abort, alloc: Global) -> Vec<u8> {
    let mut lines = Vec::new(alloc);
    put(rt, &mut lines, b"q a\n");
    for _ in 0..2_400 {
        put(rt, &mut lines, b"x zzz\n");
    }
    lines
}

/// What a search for them leaves, in which the second write of a file fails.
fn many_searched(rt: &impl Abort, alloc: Global) -> Made {
    let queries = many_queries(rt, alloc);
    let bad = only(Call::Write, 1);
    searched(rt, alloc, &ONE_TERM, queries.as_slice(), WORDS, bad)
}

/// The first query's run lines are few, and its report is among those that fill their buffer.
#[test]
fn a_run_goes_before_its_reports(rt: HostRuntime) {
    let made = many_searched(&rt, rt.alloc());
    check_left(&rt, WORDS, &made.left, 5, NOTHING, b"run: write fault\n");
}
