//! The postings of a list, however they are kept.

ghost use Rattle.std.specs.Prelude.{◌≡◌, ◌<◌, Some, List, length, slice_get};
ghost use Rattle.jass_base.specs.declared.posting.Posting.{Posting};

use jass_base::{Posting, PostingsList};

/// The postings of one list, which are asked for one by one, by their places.
pub trait PostingsByPlace {
    /// The postings in their order.
    ghost postings: { Self → List Posting };

    /// How many postings there are.
    fn count(&self) -> usize
        ensures { result ≡ length (postings self.now) };

    /// The posting at a place.
    fn posting(&self, place: usize) -> Posting
        requires { place < length (postings self.now) }
        ensures { slice_get (postings self.now) place ≡ Some result };
}

impl PostingsByPlace for PostingsList {
    ghost postings = { λ list. list.postings };

    fn count(&self) -> usize {
        self.postings.len()
    }

    #[inline(always)]
    fn posting(&self, place: usize) -> Posting {
        self.postings.as_slice()[place]
    }
}
