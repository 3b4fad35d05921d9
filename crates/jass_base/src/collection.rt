ghost use Rattle.std.specs.Prelude.{◌<◌, ◌≤◌, length, All, AllPairs};
ghost use Rattle.jass_base.specs.Lists.{HasDocsBelow, DifferInTerm};
ghost use Rattle.jass_base.specs.declared.limits.TheConstants.{MOST_DOCUMENTS, MOST_TERMS};

use crate::doc_record::DocRecord;
use crate::header::Header;
use crate::postings_list::PostingsList;
use crate::row::Row;

/// The documents of a collection, numbered by place in `docs`, and the postings list of
/// each term, in the order of the producer.
#[derive(Debug, Drop)]
pub struct Collection {
    pub header: Header,
    /// At most 2^24 lists, whose terms differ. Each has documents of `docs` alone.
    pub lists: Row<PostingsList>,
    /// At most 2^26 documents.
    pub docs: Row<DocRecord>,
    pub ghost few_lists: { length lists ≤ MOST_TERMS },
    pub ghost few_docs: { length docs ≤ MOST_DOCUMENTS },
    pub ghost docs_below: { All (HasDocsBelow (length docs)) lists },
    pub ghost terms_differ: { AllPairs DifferInTerm lists },
}
