//! The bound, by one pass over the segments that are left.

ghost use Rattle.std.specs.Prelude.{ℕ, ◌≡◌, ◌≤◌, ◌<◌, ◌^◌, drop, length, slice_index, sum_by, IfOk};
ghost use Rattle.std.specs.List.{range_with_len};
ghost use Rattle.ranking_model.specs.Limits.{IsSmall};
ghost use Rattle.ranking_model.specs.Scores.{bound_after, greatest_weight};

use jass_base::NoMemory;
use ranking_model::{PlanSegment, QueryPlan};
use std::alloc::Global;

/// The most that a document can still gain after the first `count` segments: the sum, over the query's terms, of the
/// greatest weight among the term's other segments.
pub fn bound_after(alloc: Global, count: usize, plan: &QueryPlan) -> Result<u32, NoMemory>
    requires within { count ≤ length plan.now.segments }
    requires small { IsSmall plan.now }
    ensures { IfOk result (λ bound. bound ≡ bound_after count plan.now) }
{
    let Ok(mut weights) = vec![in alloc; 0u32; plan.terms as usize] else {
        return Err(NoMemory);
    };
    Ok(bound_of(&mut weights, count, plan.segments.as_slice()))
}

/// The sum of the greatest weights of each term among its segments from one on. The weights are 0 before.
fn bound_of(weights: &mut [u32], from: usize, segments: &[PlanSegment]) -> u32
    requires within { from ≤ length segments.now }
    requires none { (term : ℕ) → slice_index weights.old term ≡ 0 }
    requires fits { sum_by (λ term. greatest_weight term (drop from segments.now))
        (range_with_len 0 (length weights.old)) < 2 ^ 32 }
    ensures { result ≡ sum_by (λ term. greatest_weight term (drop from segments.now))
        (range_with_len 0 (length weights.old)) }
{
    raise_weights(weights, from, segments);
    sum_of(weights)
}

/// Raises the weight of each term to the greatest among its segments from one on.
fn raise_weights(weights: &mut [u32], from: usize, segments: &[PlanSegment])
    requires within { from ≤ length segments.now }
    requires none { (term : ℕ) → slice_index weights.old term ≡ 0 }
    ensures len { length weights.new ≡ length weights.old }
    ensures greatest { (term : ℕ) → term < length weights.old →
        slice_index weights.new term ≡ greatest_weight term (drop from segments.now) }
{
    for n in from..segments.len() {
        let term = segments[n].term_place as usize;
        if term < weights.len() {
            weights[term] = weights[term].max(segments[n].weight);
        }
    }
}

fn sum_of(weights: &[u32]) -> u32
    requires fits { sum_by (λ weight. weight) weights.now < 2 ^ 32 }
    ensures { result ≡ sum_by (λ weight. weight) weights.now }
{
    let mut sum = 0;
    for weight in weights {
        sum += *weight;
    }
    sum
}
