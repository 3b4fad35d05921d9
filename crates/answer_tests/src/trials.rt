// Collections that are made, and queries that are drawn behind them.

use jass_base::{Collection, DocRecord, Header, Posting, PostingsList};
use std::alloc::Global;
use std::process::Abort;
use trial_data::{Draws, draw_query, make, make_with_draws};

/// Whether a list of four documents and 18 mentions has these postings.
fn is_small_list(list: &PostingsList, postings: &[Posting]) -> bool {
    list.term.as_str() == "t0"
        && list.df == 4
        && list.cf == 18
        && list.postings.as_slice() == postings
}

/// Whether the collection has four documents of these lengths, and one list of these postings.
fn is_small_trial(collection: &Collection, postings: &[Posting], lengths: [u32; 4]) -> bool {
    are_small_lists(collection.lists.as_slice(), postings)
        && are_small_docs(collection.docs.as_slice(), lengths)
}

/// Whether there is one list, with these postings.
fn are_small_lists(lists: &[PostingsList], postings: &[Posting]) -> bool {
    match lists {
        [list] => is_small_list(list, postings),
        _ => false,
    }
}

/// Whether these are four documents of these lengths, and the last one is named `D3`.
fn are_small_docs(docs: &[DocRecord], lengths: [u32; 4]) -> bool {
    match docs {
        [first, second, third, fourth] => fourth.name.as_str() == "D3"
            && first.length == lengths[0]
            && second.length == lengths[1]
            && third.length == lengths[2]
            && fourth.length == lengths[3],
        _ => false,
    }
}

/// Whether a header tells one list, four documents and 18 terms.
fn has_small_totals(header: &Header) -> bool {
    header.total_lists == 1 && header.total_docs == 4 && header.total_terms == 18
}

const POSTINGS: [Posting; 4] = [
    Posting { doc: 0, tf: 5 },
    Posting { doc: 1, tf: 2 },
    Posting { doc: 2, tf: 6 },
    Posting { doc: 3, tf: 5 },
];

/// Three words are drawn, each of them `t0`.
fn check_words(rt: &impl Abort, alloc: Global, draws: &mut Draws) {
    let words = draw_query(alloc, draws, 1).expect(rt, "no memory");
    let are_t0 = words.len() == 3 && words.iter().all(|word| word.as_str() == "t0");
    drop(words);
    assert!(rt; are_t0);
}

/// The small trial is as told, and its query.
fn check_made(rt: &impl Abort, alloc: Global) {
    let (collection, mut draws) = make_with_draws(alloc, 1, 4, 1).expect(rt, "no memory");
    let small = is_small_trial(&collection, &POSTINGS, [5, 2, 6, 5]);
    let totals = has_small_totals(&collection.header);
    drop(collection);
    assert!(rt; small && totals);
    check_words(rt, alloc, &mut draws);
}

/// A collection of one term has one list.
fn check_one_list(rt: &impl Abort, alloc: Global) {
    let collection = make(alloc, 5, 1, 1).expect(rt, "no memory");
    let count = collection.lists.len();
    drop(collection);
    assert!(rt; count == 1);
}

/// The first numbers of a seed.
fn check_numbers(rt: &impl Abort) {
    let mut draws = Draws::new(1);
    let numbers = [draws.next(), draws.next(), draws.next()];
    assert!(rt; numbers == [4_310_654, 1_474_224, 2_589_156]);
}

#[test]
fn a_small_trial_is_made(rt: HostRuntime) {
    check_numbers(&rt);
    check_made(&rt, rt.alloc());
    check_one_list(&rt, rt.alloc());
}
