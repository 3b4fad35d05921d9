ghost use Rattle.std.specs.Prelude.{◌≡◌, ℕ, ◌≤◌, ◌<◌, ◌+◌, ◌^◌, length, slice_index, IfOk};
ghost use Rattle.std.specs.List.{AllByRecursion};
ghost use Rattle.ranking_model.specs.Limits.{IsSmall};
ghost use Rattle.ranking_model.specs.Scores.{gain_of, scores_after};

use crate::plan::QueryPlan;
use crate::plan_segment::PlanSegment;
use jass_base::{NoMemory, Row};
use std::alloc::Global;

/// The scores of all documents after the first `count` segments; that of document d stands at
/// place d.
pub fn scores_after(alloc: Global, count: usize, plan: &QueryPlan) -> Result<Row<u32>, NoMemory>
    requires within { count ≤ length plan.now.segments }
    requires small { IsSmall plan.now }
    ensures scores { IfOk result (λ scores. scores ≡ scores_after count plan.now) }
    ensures few { IfOk result (λ scores. length scores < 2 ^ 32) }
{
    let mut scores = match vec![in alloc; 0u32; plan.docs as usize] {
        Ok(scores) => scores,
        Err(_) => return Err(NoMemory),
    };
    for segment in &plan.segments.as_slice()[..count] {
        add_segment(segment, &mut scores);
    }
    Ok(Row::from_vec(scores))
}

fn add_segment(segment: &PlanSegment, scores: &mut [u32])
    requires documents { AllByRecursion (λ doc. doc < length scores.old) segment.now.docs }
    requires room { (doc : ℕ) → doc < length scores.old →
        slice_index scores.old doc + gain_of doc segment.now < 2 ^ 32 }
    ensures { (doc : ℕ) → doc < length scores.old →
        slice_index scores.new doc ≡ slice_index scores.old doc + gain_of doc segment.now }
{
    for doc in segment.docs.as_slice() {
        scores[*doc as usize] += segment.weight;
    }
}
