//! Scores as plain sums over an array by document.

ghost use Rattle.std.specs.Prelude.{ℕ, ◌≡◌, ◌+◌, ◌<◌, ◌≤◌, ◌^◌, length, slice_index};
ghost use Rattle.std.specs.List.{AllByRecursion};
ghost use Rattle.ranking_model.specs.Limits.{IsSmall};
ghost use Rattle.ranking_model.specs.Scores.{gain_of, scores_after};

use ranking_model::{PlanSegment, QueryPlan};

/// Makes the scores those of a plan's documents before anything is scored.
pub fn clear_scores(scores: &mut [u32], plan: &QueryPlan)
    requires { length scores.old ≡ plan.now.docs }
    ensures { scores.new ≡ scores_after 0 plan.now }
{
    scores.fill(0);
}

/// Adds the segments of a plan from one on up to another to the scores of their documents.
pub fn add_segments(scores: &mut [u32], plan: &QueryPlan, from: usize, to: usize)
    requires small { IsSmall plan.now }
    requires order { from ≤ to }
    requires within { to ≤ length plan.now.segments }
    requires scored { scores.old ≡ scores_after from plan.now }
    ensures { scores.new ≡ scores_after to plan.now }
{
    let segments = plan.segments.as_slice();
    for n in from..to {
        add_segment(&segments[n], scores);
    }
}

fn add_segment(segment: &PlanSegment, scores: &mut [u32])
    requires documents { AllByRecursion (λ doc. doc < length scores.old) segment.now.docs }
    requires room { (doc : ℕ) → doc < length scores.old →
        slice_index scores.old doc + gain_of doc segment.now < 2 ^ 32 }
    ensures { (doc : ℕ) → doc < length scores.old →
        slice_index scores.new doc ≡ slice_index scores.old doc + gain_of doc segment.now }
{
    for doc in segment.docs.as_slice() {
        scores[*doc as usize] += segment.weight;
    }
}
