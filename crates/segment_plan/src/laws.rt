//! What a plan over segments tells of the plan of definitions that has its shape. Each function
//! does nothing of its own: its contract is the law.

ghost use Rattle.std.specs.Prelude.{◌≡◌, ℕ, ◌+◌, ◌≤◌, Some, List, length, map, take, drop, slice_get};
ghost use Rattle.jass_base.specs.declared.query_term.QueryTerm.{QueryTerm};
ghost use Rattle.ranking_model.specs.declared.plan_segment.PlanSegment.{PlanSegment};
ghost use Rattle.ranking_model.specs.declared.plan.QueryPlan.{QueryPlan};
ghost use Rattle.ranking_model.specs.Order.{sorted};
ghost use Rattle.ranking_model.specs.Plan.{plan_cmp, size_of_first, prefix_within, cutoff_after, next_after};
ghost use Rattle.ranking_model.specs.Scores.{bound_after};
ghost use Rattle.segment_plan.specs.declared.entry.PlanEntry.{PlanEntry};
ghost use Rattle.segment_plan.specs.declared.entry.PlanHead.{PlanHead};
ghost use Rattle.segment_plan.specs.Entries.{PlanView, entry_of, plan_with, postings_of, entries_within, rest_bound};
ghost use Rattle.segment_plan.specs.Shape.{shape, entry_shape, HasShape};

use crate::entry::PlanEntry;
use ranking_model::PlanSegment;
use ranking_model::order_laws::sorted_goes_through_a_map;

/// A plan of heads has the shape of a plan of definitions whose segments have the heads' shapes.
pub fn a_plan_of_heads_has_the_shape()
    ensures { (terms : List QueryTerm) (heads : List PlanHead) (segments : List PlanSegment) (plan : QueryPlan) →
        map shape segments ≡ map (λ head. entry_shape (entry_of terms head)) heads →
        plan.terms ≡ length terms → plan.segments ≡ sorted plan_cmp segments →
        HasShape (plan_with terms heads) plan }
{
    sorted_goes_through_a_map::<PlanSegment, PlanEntry>();
    sorted_goes_through_a_map::<PlanEntry, PlanEntry>();
}

/// A plan has a segment for each entry, of the same place, weight and number of postings.
pub fn a_segment_for_each_entry()
    ensures many { (view : PlanView) (plan : QueryPlan) → HasShape view plan →
        length plan.segments ≡ length view.entries }
    ensures segment { (view : PlanView) (plan : QueryPlan) (n : ℕ) (segment : PlanSegment) (entry : PlanEntry) →
        HasShape view plan →
        slice_get plan.segments n ≡ Some segment → slice_get view.entries n ≡ Some entry →
        shape segment ≡ entry_shape entry }
{}

/// The sizes of prefixes are the numbers of postings of the first entries, also from an entry on.
pub fn prefixes_are_those_of_the_plan()
    ensures size { (view : PlanView) (plan : QueryPlan) (n : ℕ) → HasShape view plan →
        size_of_first n plan.segments ≡ postings_of (take n view.entries) }
    ensures all { (view : PlanView) (plan : QueryPlan) → HasShape view plan →
        size_of_first (length plan.segments) plan.segments ≡ postings_of view.entries }
    ensures prefix { (view : PlanView) (plan : QueryPlan) (budget : ℕ) → HasShape view plan →
        prefix_within budget plan.segments ≡ entries_within budget view.entries }
    ensures resumed { (view : PlanView) (plan : QueryPlan) (from left : ℕ) → HasShape view plan →
        prefix_within left (drop from plan.segments) ≡ entries_within left (drop from view.entries) }
{}

/// The bound, the cutoff and the next weight are those of the plan.
pub fn weights_are_those_of_the_plan()
    ensures bound { (view : PlanView) (plan : QueryPlan) (n : ℕ) → HasShape view plan →
        bound_after n plan ≡ rest_bound n view }
    ensures cutoff { (view : PlanView) (plan : QueryPlan) (n : ℕ) (entry : PlanEntry) → HasShape view plan →
        slice_get view.entries n ≡ Some entry → cutoff_after (n + 1) plan.segments ≡ entry.weight }
    ensures next { (view : PlanView) (plan : QueryPlan) (n : ℕ) (entry : PlanEntry) → HasShape view plan →
        slice_get view.entries n ≡ Some entry → next_after n plan.segments ≡ entry.weight }
    ensures end { (view : PlanView) (plan : QueryPlan) (n : ℕ) → HasShape view plan →
        length view.entries ≤ n → next_after n plan.segments ≡ 0 }
{}
