ghost use Rattle.std.specs.Prelude.{◌≡◌, ◌*◌, ◌≤◌, ◌++◌, length, IfOk, OnOk};
ghost use Rattle.ranking_model.specs.Postings.{weighted_at, weighted_postings};
ghost use Rattle.ranking_model.specs.Programs.{AreLight};
ghost use Rattle.jass_base.specs.declared.limits.TheConstants.{MOST_QUERY_TERMS};

use crate::entry::Entry;
use jass_base::{NoMemory, QueryTerm, Row};
use std::alloc::Global;

/// One posting of an index as a query weighs it.
#[derive(Clone, Copy, Debug, PartialEq, Eq)]
pub struct WeightedPosting {
    /// The place of its term in the query, from 0.
    pub term_place: u32,
    pub doc: u32,
    /// Impact times how often the query names the term.
    pub weight: u32,
}

/// The weighted postings of a query with these terms, at most 256, on an index with these
/// entries: term by term in the query's order, each term's in the order of the entries.
pub fn weighted_postings(
    alloc: Global,
    entries: &[Entry<u32>],
    terms: &[QueryTerm],
) -> Result<Row<WeightedPosting>, NoMemory>
    requires { length terms.now ≤ MOST_QUERY_TERMS }
    ensures postings { IfOk result (λ postings. postings ≡ weighted_postings entries.now terms.now) }
    ensures light { IfOk result AreLight }
{
    let mut postings = Row::new(alloc);
    for (term_place, named) in terms.iter().enumerate() {
        weigh(entries, term_place as u32, *named, &mut postings)?;
    }
    Ok(postings)
}

fn weigh(
    entries: &[Entry<u32>],
    term_place: u32,
    named: QueryTerm,
    postings: &mut Row<WeightedPosting>,
) -> Result<(), NoMemory>
    ensures postings { OnOk result (postings.new ≡ postings.old ++ weighted_at term_place named entries.now) }
    ensures light { AreLight postings.old → AreLight postings.new }
{
    for entry in entries {
        if entry.term == named.term {
            let posting = WeightedPosting {
                term_place,
                doc: entry.doc,
                weight: weight_of(entry.impact, named.times),
            };
            postings.push(posting).map_err(|refused| refused.1)?;
        }
    }
    Ok(())
}

fn weight_of(impact: u16, times: u8) -> u32
    ensures product { result ≡ impact * times }
    ensures light { result ≤ 16711425 }
{
    u32::from(impact) * u32::from(times)
}
