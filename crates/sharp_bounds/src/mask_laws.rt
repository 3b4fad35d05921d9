//! What masks tell that are marked at each posting. Each function does nothing of its own: its contract is the law, and
//! a caller learns it by the call.

ghost use Rattle.std.specs.Prelude.{◌≡◌, ℕ, ◌+◌, ◌/◌, ◌<◌, ◌≤◌, Some, List, ◌++◌, length, replicate, slice_get, slice_index, slice_set};
ghost use Rattle.ranking_model.specs.declared.plan.QueryPlan.{QueryPlan};
ghost use Rattle.ranking_model.specs.declared.plan_segment.PlanSegment.{PlanSegment};
ghost use Rattle.ranking_model.specs.Scores.{bound_after};
ghost use Rattle.accumulator_pages.specs.Adding.{page_count};
ghost use Rattle.sharp_bounds.specs.Masks.{HasMaskFrame, MasksView};
ghost use Rattle.sharp_bounds.specs.Marks.{AreMarkedTo, marked, next_weights, unseen_sum};
ghost use Rattle.sharp_bounds.specs.Unseen.{unseen_bound};

/// Before the first segment no mask has a bit, and each segment sets that of its term's place for its documents, all at
/// once or in parts.
pub fn each_posting_marks_its_document()
    ensures first { (plan : QueryPlan) → AreMarkedTo 0 plan (replicate plan.docs 0) }
    ensures segment { (n : ℕ) (plan : QueryPlan) (segment : PlanSegment) (masks : List ℕ) →
        slice_get plan.segments n ≡ Some segment → AreMarkedTo n plan masks →
        AreMarkedTo (n + 1) plan (marked segment.term_place segment.docs masks) }
    ensures parts { (place : ℕ) (docs more masks : List ℕ) →
        marked place (docs ++ more) masks ≡ marked place more (marked place docs masks) }
    ensures length { (place : ℕ) (docs masks : List ℕ) → length (marked place docs masks) ≡ length masks }
{}

/// What a document is unseen in is the sum of the next weights of the terms whose bits its mask hasn't.
pub fn the_clear_bits_tell_what_is_unseen()
    ensures { (n doc : ℕ) (plan : QueryPlan) (masks : List ℕ) → AreMarkedTo n plan masks → doc < plan.docs →
        unseen_sum (slice_index masks doc) (next_weights n plan) ≡ unseen_bound n plan doc }
{}

/// A segment changes the next weight of its term alone, by as much as the bound.
pub fn one_weight_falls_with_the_bound()
    ensures many { (n : ℕ) (plan : QueryPlan) → length (next_weights n plan) ≡ plan.terms }
    ensures segment { (n weight : ℕ) (plan : QueryPlan) (segment : PlanSegment) →
        slice_get plan.segments n ≡ Some segment → segment.term_place < plan.terms →
        bound_after n plan + weight
        ≡ bound_after (n + 1) plan + slice_index (next_weights n plan) segment.term_place →
        next_weights (n + 1) plan ≡ slice_set (next_weights n plan) segment.term_place weight }
    ensures falls { (n : ℕ) (plan : QueryPlan) (segment : PlanSegment) →
        slice_get plan.segments n ≡ Some segment → segment.term_place < plan.terms →
        bound_after n plan + slice_index (next_weights (n + 1) plan) segment.term_place
        ≡ bound_after (n + 1) plan + slice_index (next_weights n plan) segment.term_place }
    ensures least { (n : ℕ) (plan : QueryPlan) (segment : PlanSegment) →
        slice_get plan.segments n ≡ Some segment → segment.term_place < plan.terms →
        slice_index (next_weights (n + 1) plan) segment.term_place
        ≤ slice_index (next_weights n plan) segment.term_place }
{}

/// With a frame for each page of 256 documents there is always one for the next document.
pub fn a_frame_for_each_page_is_enough()
    ensures { (view : MasksView) (doc : ℕ) → page_count (length view.masks) ≤ view.frames →
        doc < length view.masks → HasMaskFrame view (doc / 256) }
{}
