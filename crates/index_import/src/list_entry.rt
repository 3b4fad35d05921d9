ghost use Rattle.std.specs.Prelude.{◌≡◌, ◌<◌, ◌≤◌, ◌⊎◌, ◌^◌, [], length};
ghost use Rattle.jass_base.specs.Limits.{IsText};
ghost use Rattle.impact_segments.specs.Bounds.{most_tf};
ghost use Rattle.index_import.specs.Private.KeptPostings.{postings_in};
ghost use Rattle.jass_base.specs.declared.limits.TheConstants.{LONGEST_TERM, MOST_POSTINGS};

use crate::kept_postings::KeptPostings;
use crate::list_term::ListTerm;
use impact_segments::most_tf;
use jass_base::{Posting, PostingsList, Row};
use std::alloc::Global;

/// Where a list stands in a file, how many postings it has, and how often its term stands in one
/// document at the most.
#[derive(Clone, Copy, Debug)]
pub(crate) struct Place {
    pub at: u64,
    pub count: u32,
    pub most: u32,
    pub ghost some: { 1 ≤ count },
    pub ghost some_tf: { 1 ≤ most },
    pub ghost tf_limit: { most < 2 ^ 31 },
}

/// What is kept of a list that has postings, so that it can be read again, or needn't be.
#[derive(Debug, Drop)]
pub(crate) struct ListEntry {
    pub term: ListTerm,
    pub place: Place,
    /// All its postings, or none.
    pub kept: KeptPostings,
    pub ghost term_fits: { length term ≤ LONGEST_TERM },
    pub ghost term_is_text: { IsText term },
}

impl ListEntry {
    /// Keeps a list that has postings, and gives these back. They are kept, too, where there is a word
    /// for each, and they are at most four or there is room for so many.
    pub fn new(alloc: Global, at: u64, list: PostingsList, room: usize) -> (ListEntry, Row<Posting>)
        requires some { 1 ≤ length list.postings }
        requires few { length list.postings ≤ MOST_POSTINGS }
        ensures term { result.0.term ≡ list.term }
        ensures at { result.0.place.at ≡ at }
        ensures count { result.0.place.count ≡ length list.postings }
        ensures most { result.0.place.most ≡ most_tf list.postings }
        ensures kept { (postings_in result.0.kept ≡ []) ⊎ (postings_in result.0.kept ≡ list.postings) }
    {
        let PostingsList { term, postings, .. } = list;
        let items = postings.as_slice();
        let count = items.len() as u32;
        let most = most_tf(items);
        let kept = KeptPostings::new(alloc, items, most, room);
        let entry = ListEntry {
            term: ListTerm::new(term),
            place: Place { at, count, most },
            kept,
        };
        (entry, postings)
    }

    /// The term and the place, which are needed longer than the postings.
    pub fn into_parts(self) -> (ListTerm, Place)
        ensures term { result.0 ≡ self.term }
        ensures place { result.1 ≡ self.place }
    {
        let ListEntry { term, place, .. } = self;
        (term, place)
    }
}
