ghost use Rattle.std.specs.Prelude.{◌≡◌, ◌<◌, ◌≤◌, length, IfOk, All};
ghost use Rattle.std.specs.Ordering.{nat_cmp};
ghost use Rattle.ranking_model.specs.Flat.{IsFlat};
ghost use Rattle.ranking_model.specs.Postings.{AreTerms};
ghost use Rattle.ranking_model.specs.Plan.{plan_of};
ghost use Rattle.ranking_model.specs.Limits.{IsSmall};
ghost use Rattle.ranking_model.specs.Scores.{top_k};
ghost use Rattle.jass_base.specs.declared.answer.Hit.{Hit};
ghost use Rattle.jass_base.specs.declared.limits.TheConstants.{MOST_POSTINGS};

use crate::entry::Entry;
use crate::plan_segment::{PlanSegment, plan_segments};
use crate::posting::weighted_postings;
use crate::rank::first_ranked;
use crate::scores::scores_after;
use jass_base::{Hit, NoMemory, QueryTerm, Row};
use std::alloc::Global;

/// A query on an index: the number of documents, the number of the query's known terms, and the
/// segments of its postings in the order in which they are scored.
#[derive(Debug, Drop)]
pub struct QueryPlan {
    pub docs: u32,
    pub terms: u32,
    pub segments: Row<PlanSegment>,
}

/// The plan of a query with these terms on an index of `docs` documents with these entries, at
/// most 2^29.
#[tactic(auto, unfolding(crate::specs::Plan::plan_of))]
pub fn plan_of(
    alloc: Global,
    docs: u32,
    entries: &[Entry<u32>],
    terms: &[QueryTerm],
) -> Result<QueryPlan, NoMemory>
    requires flat { IsFlat nat_cmp docs entries.now }
    requires terms { AreTerms terms.now }
    requires postings { length entries.now ≤ MOST_POSTINGS }
    ensures plan { IfOk result (λ plan. plan ≡ plan_of docs entries.now terms.now) }
    ensures small { IfOk result (λ plan. IsSmall plan) }
{
    let postings = weighted_postings(alloc, entries, terms)?;
    let segments = plan_segments(alloc, postings.as_slice())?;
    Ok(QueryPlan {
        docs,
        terms: terms.len() as u32,
        segments,
    })
}

/// The answer of at most `k` hits after the first `count` segments.
pub fn top_k(alloc: Global, count: usize, plan: &QueryPlan, k: usize) -> Result<Row<Hit>, NoMemory>
    requires within { count ≤ length plan.now.segments }
    requires small { IsSmall plan.now }
    ensures hits { IfOk result (λ hits. hits ≡ top_k count plan.now k) }
    ensures documents { IfOk result (λ hits. All (λ (hit : Hit). hit.doc < plan.now.docs) hits) }
{
    let scores = scores_after(alloc, count, plan)?;
    let hits = first_ranked(alloc, scores.as_slice(), k)?;
    Ok(hits)
}
