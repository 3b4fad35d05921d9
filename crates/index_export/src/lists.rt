ghost use Rattle.std.specs.Prelude.{◌≡◌, ◌+◌, ◌≤◌, ◌<◌, ◌^◌, length, map, All, IfOk, OnOk, OnErr};
ghost use Rattle.jass_base.specs.CiffViews.{list_data};
ghost use Rattle.jass_base.specs.Lists.{HasDocsBelow};
ghost use Rattle.index_layout.specs.View.{index_postings, term_postings};
ghost use Rattle.index_export.specs.Exports.{exported_list, impact_sum};
ghost use Rattle.index_export.specs.Private.Gathering.{cf_sum, term_with};

use crate::gathering::postings_of;
use index_file::IndexFile;
use jass_base::{NoMemory, Posting, PostingsList, Row, Steps, Text};
use std::alloc::Global;
use std::sync::ledger::Ledger;

/// The lists of all terms, in their order.
pub(crate) fn lists_of<L: Ledger>(
    alloc: Global,
    index: &IndexFile,
    steps: &mut Steps<L>,
) -> Result<Row<PostingsList>, NoMemory>
    ensures lists { IfOk result (λ lists. map list_data lists ≡ map exported_list index.now.index.terms) }
    ensures below { IfOk result (λ lists. All (HasDocsBelow (length index.now.index.names)) lists) }
    ensures steps { OnOk result (steps.new ≡ steps.old + index_postings index.now.index) }
    ensures counted { OnErr result (steps.new ≤ steps.old + index_postings index.now.index) }
    ensures later { OnErr result (steps.old ≤ steps.new) }
{
    let mut block = [0u32; 128];
    let mut lists = Row::new(alloc);
    for t in 0..index.terms() {
        let list = list_of(alloc, index, t, &mut block, steps)?;
        match lists.push(list) {
            Ok(()) => {}
            Err(_) => return Err(NoMemory),
        }
    }
    Ok(lists)
}

/// The list of a term. The block is scratch space.
fn list_of<L: Ledger>(
    alloc: Global,
    index: &IndexFile,
    t: u32,
    block: &mut [u32; 128],
    steps: &mut Steps<L>,
) -> Result<PostingsList, NoMemory>
    requires t { t < length index.now.index.terms }
    ensures list { IfOk result (λ list. list_data list ≡ exported_list (term_with index.now.index.terms t)) }
    ensures below { IfOk result (HasDocsBelow (length index.now.index.names)) }
    ensures steps { OnOk result (steps.new ≡ steps.old + term_postings (term_with index.now.index.terms t)) }
    ensures counted { OnErr result (steps.new ≤ steps.old + term_postings (term_with index.now.index.terms t)) }
    ensures later { OnErr result (steps.old ≤ steps.new) }
{
    index.is_checked();
    let postings = postings_of(alloc, index, t, block, steps)?;
    let term = Text::from_str(alloc, index.term(t))?;
    Ok(PostingsList {
        term,
        df: postings.len() as u64,
        cf: impact_sum(postings.as_slice()),
        postings: Row::from_vec(postings),
    })
}

/// The sum of the impacts of postings.
fn impact_sum(postings: &[Posting]) -> u64
    requires { impact_sum postings.now < 2 ^ 63 }
    ensures { result ≡ impact_sum postings.now }
{
    let mut sum = 0;
    for posting in postings {
        sum += u64::from(posting.tf);
    }
    sum
}

/// The sum of the lists' cf.
pub(crate) fn cf_sum(lists: &[PostingsList]) -> u64
    requires { cf_sum lists.now < 2 ^ 63 }
    ensures { result ≡ cf_sum lists.now }
{
    let mut sum = 0;
    for list in lists {
        sum += list.cf;
    }
    sum
}
