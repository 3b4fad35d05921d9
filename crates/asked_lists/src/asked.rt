ghost use Rattle.std.specs.Prelude.{◌≡◌, ◌≤◌, IfOk, filter, length, map, sum_by};
ghost use Rattle.std.specs.String.{string_bytes};
ghost use Rattle.jass_base.specs.CiffViews.{collection_data};
ghost use Rattle.jass_base.specs.declared.postings_list.PostingsList.{PostingsList};
ghost use Rattle.asked_lists.specs.Asked.{asked_of, is_asked};

use jass_base::{Collection, NoMemory, PostingsList, Row};
use std::alloc::Global;

/// The collection with the lists alone whose term is one of some words. The lists are moved, so that
/// those of other terms give their memory back. Nothing but memory is refused.
pub fn asked_collection(
    alloc: Global,
    collection: Collection,
    words: &[String],
) -> Result<Collection, NoMemory>
    ensures asked { IfOk result (λ asked. collection_data asked
        ≡ asked_of (collection_data collection) (map string_bytes words.now)) }
    ensures few { IfOk result (λ asked. sum_by (λ (l : PostingsList). length l.postings) asked.lists
        ≤ sum_by (λ (l : PostingsList). length l.postings) collection.lists) }
{
    let Collection {
        header,
        lists,
        docs,
    } = collection;
    let lists = keep_asked(alloc, lists, words)?;
    Ok(Collection {
        header,
        lists,
        docs,
    })
}

/// The lists whose term is one of some words, in their order.
fn keep_asked(
    alloc: Global,
    lists: Row<PostingsList>,
    words: &[String],
) -> Result<Row<PostingsList>, NoMemory>
    ensures { IfOk result (λ kept. kept
        ≡ filter (λ (l : PostingsList). is_asked (map string_bytes words.now) l.term) lists) }
{
    let mut kept = Row::new(alloc);
    for list in lists.into_vec() {
        if has_word(words, list.term.as_str()) {
            kept.push(list)?;
        }
    }
    Ok(kept)
}

/// Whether a term is one of some words.
fn has_word(words: &[String], term: &str) -> bool
    ensures { result ≡ is_asked (map string_bytes words.now) term.now }
{
    for word in words {
        if term == word.as_str() {
            return true;
        }
    }
    false
}
