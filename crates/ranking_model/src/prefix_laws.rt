//! Laws of prefixes that grow: one segment more, and one grant more. Each function does nothing: its
//! contract is the law.

ghost use Rattle.std.specs.Prelude.{◌≡◌, ℕ, ◌+◌, ◌-◌, ◌<◌, ◌≤◌, ◌^◌, List, ◌∷◌, ◌++◌, length, take, drop, slice_get, All};
ghost use Rattle.jass_base.specs.declared.answer.Budget.{Budget};
ghost use Rattle.ranking_model.specs.declared.plan_segment.PlanSegment.{PlanSegment};
ghost use Rattle.ranking_model.specs.declared.plan.QueryPlan.{QueryPlan};
ghost use Rattle.ranking_model.specs.Plan.{size_of_first, prefix_within, granted_with, granted_sum};
ghost use Rattle.ranking_model.specs.Limits.{IsSmall};
ghost use Rattle.ranking_model.specs.Scores.{added, scores_after};
ghost use Rattle.ranking_model.specs.Search.{prefix_granted, prefixes_granted};

/// One segment more adds its weight at each of its documents, which may come in parts.
pub fn one_segment_more_is_added()
    ensures segment { (n : ℕ) (plan : QueryPlan) (segment : PlanSegment) →
        slice_get plan.segments n ≡ Some segment →
        scores_after (n + 1) plan ≡ added segment.weight segment.docs (scores_after n plan) }
    ensures parts { (weight : ℕ) (docs more scores : List ℕ) →
        added weight (docs ++ more) scores ≡ added weight more (added weight docs scores) }
    ensures length { (weight : ℕ) (docs scores : List ℕ) → length (added weight docs scores) ≡ length scores }
{}

/// The scores of a small plan fit 32 bits, and where those after all of some documents are below a
/// limit, those after a part of them are.
pub fn scores_stay_small()
    ensures scores { (n : ℕ) (plan : QueryPlan) → IsSmall plan → All (λ score. score < 2 ^ 32) (scores_after n plan) }
    ensures part { (weight limit : ℕ) (docs more scores : List ℕ) →
        All (λ score. score < limit) (added weight (docs ++ more) scores) →
        All (λ score. score < limit) (added weight docs scores) }
{}

/// A prefix is resumed: the segments that are left are scored as far as what is left of the budget
/// goes, and their postings are added to those before.
pub fn a_prefix_is_resumed()
    ensures size { (n more : ℕ) (segments : List PlanSegment) →
        size_of_first (n + more) segments ≡ size_of_first n segments + size_of_first more (drop n segments) }
    ensures prefix { (before budget n : ℕ) (segments : List PlanSegment) →
        n ≡ prefix_within before segments → before ≤ budget →
        prefix_within budget segments ≡ n + prefix_within (budget - size_of_first n segments) (drop n segments) }
{}

/// One budget more is added to the sum of those before it.
pub fn one_budget_more_is_granted()
    ensures { (budgets : List Budget) (j : ℕ) (budget : Budget) →
        slice_get budgets j ≡ Some budget →
        granted_sum (take (j + 1) budgets) ≡ granted_with (granted_sum (take j budgets)) budget }
{}

/// There is a prefix for each budget, in the order of the budgets.
pub fn each_budget_has_its_prefix()
    ensures many { (budgets : List Budget) (plan : QueryPlan) →
        length (prefixes_granted budgets plan) ≡ length budgets }
    ensures from { (budgets : List Budget) (plan : QueryPlan) (j : ℕ) → j < length budgets →
        let prefixes = prefixes_granted budgets plan in
        drop j prefixes ≡ prefix_granted (j + 1) budgets plan ∷ drop (j + 1) prefixes }
{}
