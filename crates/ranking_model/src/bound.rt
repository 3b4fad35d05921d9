ghost use Rattle.std.specs.Prelude.{◌≡◌, ◌≤◌, ◌<◌, ◌^◌, length};
ghost use Rattle.ranking_model.specs.Scores.{greatest_weight, bound_after};

use crate::plan::QueryPlan;
use crate::plan_segment::PlanSegment;

/// The most that a document can still gain after the first `count` segments: the sum, over the
/// query's terms, of the greatest weight among the term's other segments.
pub fn bound_after(count: usize, plan: &QueryPlan) -> u32
    requires within { count ≤ length plan.now.segments }
    requires fits { bound_after count plan.now < 2 ^ 32 }
    ensures { result ≡ bound_after count plan.now }
{
    let unscored = &plan.segments.as_slice()[count..];
    let mut bound: u32 = 0;
    for term_place in 0..plan.terms {
        bound += greatest_weight(term_place, unscored);
    }
    bound
}

fn greatest_weight(term_place: u32, segments: &[PlanSegment]) -> u32
    ensures { result ≡ greatest_weight term_place segments.now }
{
    let mut greatest: u32 = 0;
    for segment in segments {
        if segment.term_place == term_place {
            greatest = greatest.max(segment.weight);
        }
    }
    greatest
}
