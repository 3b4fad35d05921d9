ghost use Rattle.std.specs.Prelude.{ℕ, ◌≡◌, ◌≤◌, List, length, IfOk, OnOk};
ghost use Rattle.std.specs.List.Sorted.{IsPermutation, IsSortedBy};
ghost use Rattle.impact_segments.specs.Collections.{total_of};
ghost use Rattle.index_import.specs.Private.KeptDocs.{AreInOrder, lengths_in, names_in};
ghost use Rattle.index_import.specs.Private.Outlining.{IsOutline, IsOutlined, earlier};
ghost use Rattle.index_import.specs.Private.Surveying.{AreKept, IsSurvey};
ghost use Rattle.jass_base.specs.declared.limits.TheConstants.{MOST_DOCUMENTS};

use crate::kept_docs::KeptDocs;
use crate::list_entry::ListEntry;
use crate::survey::Survey;
use ciff_read::CiffWalk;
use ciff_read::laws::records_have_one_order;
use jass_base::NoMemory;
use std::alloc::Global;

/// A file that was judged, as it is read again: the documents by their numbers, and the lists that
/// have postings by their terms.
#[derive(Drop)]
pub(crate) struct Outline {
    pub walk: CiffWalk,
    /// The documents by rising numbers.
    pub docs: KeptDocs,
    /// The lengths of the documents.
    pub lengths: Vec<u32>,
    /// The terms of all documents, at least 1.
    pub total: u64,
    pub lists: Vec<ListEntry>,
}

impl Outline {
    /// Puts in order what the first pass kept.
    pub fn new(alloc: Global, survey: Survey) -> Result<Outline, NoMemory>
        requires { AreKept survey.walk survey.docs survey.lists.items }
        ensures walk { IfOk result (λ o. o.walk ≡ survey.walk) }
        ensures outlined { IfOk result (λ o. IsOutlined survey.walk (names_in o.docs) o.lengths.items o.total o.lists.items) }
        ensures exact { (content : List ℕ) → IsSurvey content survey.walk survey.docs survey.lists.items
            → IfOk result (λ o. IsOutline content survey.walk.docs (names_in o.docs) o.lengths.items o.lists.items) }
    {
        records_have_one_order();
        let mut survey = survey;
        let lengths = match put_in_order(alloc, &mut survey) {
            Ok(lengths) => lengths,
            Err(_) => {
                drop(survey);
                return Err(NoMemory);
            }
        };
        let total = total_length(&lengths);
        let Survey { walk, docs, lists } = survey;
        Ok(Outline {
            walk,
            docs,
            lengths,
            total,
            lists,
        })
    }
}

/// Puts the documents in order by their numbers, and the lists by their terms, and gives the lengths of
/// the documents.
fn put_in_order(alloc: Global, survey: &mut Survey) -> Result<Vec<u32>, NoMemory>
    ensures walk { survey.new.walk ≡ survey.old.walk }
    ensures docs { OnOk result (AreInOrder survey.old.docs survey.new.docs) }
    ensures lengths { IfOk result (λ lengths. lengths.items ≡ lengths_in survey.new.docs) }
    ensures same { IsPermutation survey.old.lists.items survey.new.lists.items }
    ensures sorted { OnOk result (IsSortedBy earlier survey.new.lists.items) }
{
    survey
        .lists
        .sort_by(|a, b| a.term.as_str().cmp(b.term.as_str()))?;
    survey.docs.put_in_order()?;
    survey.docs.lengths(alloc)
}

/// The terms of documents of these lengths in all, at least 1.
fn total_length(lengths: &[u32]) -> u64
    requires { length lengths.now ≤ MOST_DOCUMENTS }
    ensures { result ≡ total_of lengths.now }
{
    let mut total: u64 = 0;
    for length in lengths {
        total += u64::from(*length);
    }
    total.max(1)
}
