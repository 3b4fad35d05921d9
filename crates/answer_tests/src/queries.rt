// Query files over a few terms, plain and folded, and what is refused.

ghost use Rattle.std.specs.Prelude.{[], ◌∷◌, codes};

use crate::words::words_of;
use jass_base::{Lexicon, Query, QueryTerm};
use query_reader::{Mode, QueryFault, name_terms, read_queries, read_terms};
use std::alloc::Global;
use std::process::Abort;

/// The terms `CAT!`, `cat`, `dog` and `strasse`.
struct FewTerms;

impl Lexicon for FewTerms {
    ghost terms = { λ _. codes "CAT!" ∷ codes "cat" ∷ codes "dog" ∷ codes "strasse" ∷ [] };

    fn find(&self, term: &[u8]) -> Option<u32> {
        if b"CAT!".as_slice() == term {
            Some(0)
        } else if b"cat".as_slice() == term {
            Some(1)
        } else if b"dog".as_slice() == term {
            Some(2)
        } else if b"strasse".as_slice() == term {
            Some(3)
        } else {
            None
        }
    }
}

/// How often a term is named.
fn times_of(terms: &[QueryTerm], term: u32) -> u32 {
    for named in terms {
        if named.term == term {
            return u32::from(named.times);
        }
    }
    0
}

/// How often each of the four terms is named, with the number of the others.
fn times(terms: &[QueryTerm], unknown: u32) -> [u32; 5] {
    [
        times_of(terms, 0),
        times_of(terms, 1),
        times_of(terms, 2),
        times_of(terms, 3),
        unknown,
    ]
}

/// Whether a query has this name, and names the four terms so often and so many others.
fn is_query(query: &Query, id: &str, want: &[u32; 5]) -> bool {
    query.id.as_str() == id && times(query.terms.as_slice(), query.unknown) == *want
}

/// Texts of queries, each with how often it names the four terms and how many others.
const TEXTS: [(Mode, &str, [u32; 5]); 12] = [
    (Mode::Folded, "Straße, CAT!", [0, 1, 0, 1, 0]),
    (Mode::Plain, "Straße, CAT!", [1, 0, 0, 0, 1]),
    (Mode::Plain, "cat^2 dog", [0, 2, 1, 0, 0]),
    (Mode::Plain, "cat^256 dog^0 cat^007", [0, 7, 0, 0, 2]),
    (Mode::Plain, "cat^2^1 ^2 cat^", [0, 0, 0, 0, 3]),
    (Mode::Plain, "cat\rdog zzz^200 zzz", [0, 0, 0, 0, 3]),
    (Mode::Folded, "Cat^3 2^x", [0, 3, 0, 0, 2]),
    (Mode::Folded, "cat^3^2 dog^2x", [0, 3, 1, 0, 2]),
    (Mode::Folded, "cat^^2 dog ^2 cat^256", [0, 2, 1, 0, 3]),
    (Mode::Folded, "cat^2dog ^dog^4", [0, 1, 4, 0, 1]),
    (Mode::Folded, "cat^٣ DOG\rdog", [0, 1, 2, 0, 1]),
    (Mode::Plain, "", [0, 0, 0, 0, 0]),
];

/// Whether a text has these counts.
fn has_counts(rt: &impl Abort, alloc: Global, mode: Mode, text: &str, want: &[u32; 5]) -> bool {
    if text.len() > 100 {
        return false;
    }
    let query = read_terms(alloc, "q", text, mode, &FewTerms).expect(rt, text);
    let counted = is_query(&query, "q", want);
    drop(query);
    counted
}

/// Each text has the counts that stand beside it.
fn check_texts(rt: &impl Abort, alloc: Global, texts: &[(Mode, &str, [u32; 5])]) {
    for (mode, text, want) in texts {
        assert!(rt; has_counts(rt, alloc, *mode, text, want), "{text}");
    }
}

#[test]
fn reads_one_text(rt: HostRuntime) {
    check_texts(&rt, rt.alloc(), &TEXTS);
}

/// Files of queries, each with the number of its refusal and the line of it, or with 0 and how many queries it has.
const FILES: [(Mode, &[u8], u32, u32); 9] = [
    (Mode::Plain, b"1 cat\n\n\r\n \n2 dog", 51, 4),
    (Mode::Plain, b"1 cat\n\xff\n dog\n", 50, 2),
    (Mode::Plain, b" \xff", 50, 1),
    (Mode::Folded, b"\tcat\n\xff", 51, 1),
    (Mode::Plain, b"1 cat^255 dog\n2 cat^255 dog cat\n 3", 53, 2),
    (Mode::Folded, b"1 cat^255 Cat", 53, 1),
    (Mode::Plain, b"1 cat^255\r", 0, 1),
    (Mode::Plain, b"", 0, 0),
    (Mode::Plain, b"1 cat\r\r\n2", 0, 2),
];

/// The number of a file's refusal and the line of it, or 0 and how many queries it has.
fn outcome(rt: &impl Abort, alloc: Global, mode: Mode, bytes: &[u8]) -> (u32, usize) {
    match read_queries(alloc, bytes, mode, &FewTerms) {
        Ok(queries) => {
            let count = queries.len();
            drop(queries);
            (0, count)
        }
        Err(fault) => told(rt, fault),
    }
}

/// The number of a refusal and the line of it.
fn told(rt: &impl Abort, fault: QueryFault) -> (u32, usize) {
    match fault {
        QueryFault::Refused(refusal) => (refusal.why.number(), refusal.line as usize),
        QueryFault::NoMemory => panic!(rt; "no memory"),
    }
}

/// Each file is read or refused as stands beside it.
fn check_files(rt: &impl Abort, alloc: Global, files: &[(Mode, &[u8], u32, u32)]) {
    for (mode, bytes, number, line) in files {
        let (found, at) = outcome(rt, alloc, *mode, bytes);
        assert!(rt; found == *number && at == *line as usize);
    }
}

#[test]
fn refuses_the_first_bad_line(rt: HostRuntime) {
    check_files(&rt, rt.alloc(), &FILES);
}

/// Whether these are two queries with these names, each with how often it names the four terms and how many others.
fn are_queries(queries: &[Query], wants: &[(&str, [u32; 5]); 2]) -> bool {
    match queries {
        [first, second] => is_wanted(first, &wants[0]) && is_wanted(second, &wants[1]),
        _ => false,
    }
}

/// Whether a query has the name and the counts that are wanted.
fn is_wanted(query: &Query, want: &(&str, [u32; 5])) -> bool {
    is_query(query, want.0, &want.1)
}

/// A file of two queries, with a line without bytes between them.
const LINES: &[u8] = b"301\tCAT  dog\r\n\n302 zzz\n";

/// The names of these queries, each with how often it names the four terms and how many others.
const WANTS: [(&str, [u32; 5]); 2] = [("301", [0, 1, 1, 0, 0]), ("302", [0, 0, 0, 0, 1])];

/// The queries of a file of two lines, and one between them without bytes.
fn check_lines(rt: &impl Abort, alloc: Global) {
    let queries = read_queries(alloc, LINES, Mode::Folded, &FewTerms).expect(rt, "no queries");
    let read = are_queries(queries.as_slice(), &WANTS);
    drop(queries);
    assert!(rt; read);
}

#[test]
fn reads_a_file_line_by_line(rt: HostRuntime) {
    check_lines(&rt, rt.alloc());
}

/// The query that four words name.
fn named(rt: &impl Abort, alloc: Global) -> Query {
    let words = words_of(rt, alloc, "dog zzz^2 cat dog");
    assert!(rt; words.len() == 4);
    let query = name_terms(alloc, "q", words.as_slice(), &FewTerms);
    drop(words);
    query.expect(rt, "no memory")
}

/// The terms of `dog zzz^2 cat dog`, in the order in which they come.
const NAMED: [QueryTerm; 2] = [
    QueryTerm { term: 2, times: 2 },
    QueryTerm { term: 1, times: 1 },
];

/// It names two terms, in the order in which they come, and another one.
fn check_named(rt: &impl Abort, alloc: Global) {
    let query = named(rt, alloc);
    let is_named = query.id.as_str() == "q"
        && query.unknown == 1
        && query.terms.as_slice() == NAMED.as_slice();
    drop(query);
    assert!(rt; is_named);
}

#[test]
fn names_known_words_and_counts_the_others(rt: HostRuntime) {
    check_named(&rt, rt.alloc());
}
