//! Whether the index file of a collection fits, as its names and its lists show.

ghost use Rattle.std.specs.Prelude.{◌≡◌, ◌≤◌, ◌-◌, ◌^◌, ℕ, List, IsTrue, length, min, nat_le};
ghost use Rattle.std.specs.List.{sum_by};
ghost use Rattle.jass_base.specs.CiffViews.{collection_data};
ghost use Rattle.weights.specs.declared.weighting.Rule.{Rule};
ghost use Rattle.weights.specs.declared.quantizing.Bits.{Bits};
ghost use Rattle.index_layout.specs.View.{index_text};
ghost use Rattle.impact_segments.specs.Collections.{collection_index};
ghost use Rattle.asked_lists.specs.Asked.{asked_of};
ghost use Rattle.asked_lists.specs.Bound.{file_bound, list_bound, name_bound};
ghost use Rattle.jass_base.specs.declared.limits.TheConstants.{LONGEST_FILE};

use impact_segments::laws::lists_by_term_make_the_index;
use index_write::laws::appended_payloads_make_the_text;
use jass_base::limits::LONGEST_FILE;
use jass_base::{Collection, DocRecord, PostingsList};
use segment_codecs::laws::payloads_have_few_bytes;

/// Whether the index file of a collection fits for certain, as a bound of its bytes shows: 40, 4
/// beside the bytes of each name, 8 beside those of each term, and 15 for each posting (11 of a head,
/// and at most 4 of the payload). Then so does that of the lists alone that some words ask for.
pub fn fits_surely(collection: &Collection) -> bool
    ensures all { IsTrue result → (rule : Rule) (bits : Bits)
        → length (index_text (collection_index rule bits (collection_data collection.now))) ≤ LONGEST_FILE }
    ensures asked { IsTrue result → (rule : Rule) (bits : Bits) (words : List (List ℕ))
        → length (index_text (collection_index rule bits (asked_of (collection_data collection.now) words)))
        ≤ LONGEST_FILE }
    ensures bound { result ≡ nat_le (file_bound collection.now) LONGEST_FILE }
{
    lists_by_term_make_the_index();
    appended_payloads_make_the_text();
    payloads_have_few_bytes();
    let names = names_bound(collection.docs.as_slice());
    let lists = lists_bound(collection.lists.as_slice());
    names.saturating_add(lists).saturating_add(40) <= LONGEST_FILE
}

/// The bytes of names with their lengths, as many as 64 bits count.
fn names_bound(docs: &[DocRecord]) -> u64
    ensures { result ≡ min (sum_by name_bound docs.now) (2 ^ 64 - 1) }
{
    let mut bytes: u64 = 0;
    for doc in docs {
        bytes = bytes.saturating_add(4 + doc.name.as_str().len() as u64);
    }
    bytes
}

/// The bytes that terms, heads and payloads have at most, as many as 64 bits count.
fn lists_bound(lists: &[PostingsList]) -> u64
    ensures { result ≡ min (sum_by list_bound lists.now) (2 ^ 64 - 1) }
{
    let mut bytes: u64 = 0;
    for list in lists {
        let postings = (list.postings.len() as u64).saturating_mul(15);
        let term = 8 + list.term.as_str().len() as u64;
        bytes = bytes.saturating_add(term).saturating_add(postings);
    }
    bytes
}
