ghost use Rattle.std.specs.Prelude.{IsPermutation, ◌≡◌, ◌+◌, ◌<◌, ◌≤◌, All, IfOk, length, map};
ghost use Rattle.std.specs.List.{AllByRecursion};
ghost use Rattle.jass_base.specs.declared.limits.TheConstants.{MOST_QUERY_TERMS};
ghost use Rattle.max_score.specs.Cursors.{unread};
ghost use Rattle.max_score.specs.Searches.{AreKnown, query_postings};
ghost use Rattle.max_score.specs.Private.Unread.{IsRead, named_by};
ghost use Rattle.max_score.specs.Private.Lists.{AreBounded};
ghost use Rattle.max_score.specs.declared.term_list.TermList.{TermList};

use crate::cursor::TermCursor;
use crate::term_list::TermList;
use index_file::Source;
use jass_base::{NoMemory, QueryTerm, Steps};
use std::alloc::Global;
use std::sync::ledger::Ledger;

/// A list for each term, which hasn't been read yet, by rising greatest weight.
pub fn new_lists<S: Source>(
    alloc: Global,
    source: &S,
    terms: &[QueryTerm],
) -> Result<Vec<TermList>, NoMemory>
    requires { AreKnown (S.index source.now) terms.now }
    ensures named { IfOk result (λ lists. IsPermutation terms.now (map named_by lists.items)) }
    ensures unread { IfOk result (λ lists.
        All (λ (list : TermList). list.cursor ≡ unread list.cursor.term (length (S.index source.now).names))
        lists.items) }
{
    ask_for_all(alloc, source.docs(), terms.len());
    let mut lists = Vec::new(alloc);
    for named in terms {
        let list = new_list(alloc, source, *named)?;
        lists.push(list)?;
    }
    lists.sort_unstable_by_key(|list| list.greatest);
    Ok(lists)
}

/// Asks for the room of all lists in one piece, and lets go of it. Allocators keep for later what they have had back in
/// one piece. Of many small pieces that are let go together they give the memory back to the system, so that each query
/// would have to take its pages anew.
fn ask_for_all(alloc: Global, docs: u32, lists: usize) {
    let room: Result<Vec<u16>, _> = Vec::with_capacity(
        alloc,
        (docs as usize).saturating_mul(lists),
    );
    drop(room);
}

/// A list of a term, which hasn't been read yet.
fn new_list<S: Source>(alloc: Global, source: &S, named: QueryTerm) -> Result<TermList, NoMemory>
    requires { named.term < length (S.index source.now).terms }
    ensures named { IfOk result (λ list. named_by list ≡ named) }
    ensures unread { IfOk result (λ list. list.cursor ≡ unread list.cursor.term (length (S.index source.now).names)) }
{
    let cursor = TermCursor::new(alloc, source, named.term)?;
    let mut greatest = 0;
    if source.segments(named.term) > 0 {
        greatest = u32::from(source.head(named.term, 0).impact) * u32::from(named.times);
    }
    Ok(TermList {
        cursor,
        times: named.times,
        greatest,
        bound: 0,
    })
}

/// Reads the postings of all lists, and sums up what they add to a score at the most.
pub fn read_lists<S: Source, L: Ledger>(lists: &mut [TermList], source: &S, steps: &mut Steps<L>)
    requires few { length lists.old ≤ MOST_QUERY_TERMS }
    requires unread { AllByRecursion
        (λ list. list.cursor ≡ unread list.cursor.term (length (S.index source.now).names)) lists.old }
    requires known { AllByRecursion (λ list. list.cursor.term < length (S.index source.now).terms) lists.old }
    ensures named { map named_by lists.new ≡ map named_by lists.old }
    ensures read { AllByRecursion (IsRead (S.index source.now)) lists.new }
    ensures bounded { AreBounded lists.new }
    ensures steps { steps.new ≡ steps.old + query_postings (S.index source.now) (map named_by lists.old) }
{
    let mut bound = 0;
    for list in lists.iter_mut() {
        let impact = list.cursor.read(source, steps);
        list.greatest = u32::from(impact) * u32::from(list.times);
        bound += list.greatest;
        list.bound = bound;
    }
}
