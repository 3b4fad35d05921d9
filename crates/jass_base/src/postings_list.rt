ghost use Rattle.std.specs.Prelude.{◌<◌, ◌≤◌, ◌^◌, length, All};
ghost use Rattle.std.specs.List.Sorted.{IsStrictlyIncreasing};
ghost use Rattle.jass_base.specs.Limits.{IsText};
ghost use Rattle.jass_base.specs.Postings.{docs_of, HasTfInRange};
ghost use Rattle.jass_base.specs.declared.limits.TheConstants.{LONGEST_TERM};

use crate::posting::Posting;
use crate::row::Row;
use crate::text::Text;

/// The documents that hold a term, in rising order.
#[derive(Debug, Drop)]
pub struct PostingsList {
    /// At most 65,535 bytes.
    pub term: Text,
    /// The producer's number of documents and of mentions; passed on and not used.
    pub df: u64,
    pub cf: u64,
    pub postings: Row<Posting>,
    pub ghost term_fits: { length term ≤ LONGEST_TERM },
    pub ghost term_is_text: { IsText term },
    pub ghost df_in_range: { df < 2 ^ 63 },
    pub ghost cf_in_range: { cf < 2 ^ 63 },
    pub ghost rising: { IsStrictlyIncreasing (docs_of postings) },
    pub ghost tf_in_range: { All HasTfInRange postings },
}
