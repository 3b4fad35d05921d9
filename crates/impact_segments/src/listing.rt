ghost use Rattle.std.specs.Prelude.{◌≡◌, filter, IfOk};
ghost use Rattle.ranking_model.specs.Order.{sorted};
ghost use Rattle.impact_segments.specs.Private.Listed.{has_postings, term_cmp, lists_behind};

use jass_base::{NoMemory, PostingsList};
use std::alloc::Global;

/// The lists that have postings, by rising term.
pub(crate) fn lists_by_term<'a>(
    alloc: Global,
    lists: &'a [PostingsList],
) -> Result<Vec<&'a PostingsList>, NoMemory>
    ensures { IfOk result (λ listed. lists_behind listed.items ≡ sorted term_cmp (filter has_postings lists.now)) }
{
    let mut listed = lists_with_postings(alloc, lists)?;
    match listed.sort_by(|a, b| a.term.as_str().cmp(b.term.as_str())) {
        Ok(()) => Ok(listed),
        Err(_) => Err(NoMemory),
    }
}

fn lists_with_postings<'a>(
    alloc: Global,
    lists: &'a [PostingsList],
) -> Result<Vec<&'a PostingsList>, NoMemory>
    ensures { IfOk result (λ listed. lists_behind listed.items ≡ filter has_postings lists.now) }
{
    let mut listed = Vec::new(alloc);
    for list in lists {
        if !list.postings.is_empty() {
            listed.push(list)?;
        }
    }
    Ok(listed)
}
