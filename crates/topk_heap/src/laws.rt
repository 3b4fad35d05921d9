//! Laws of the definitions that the contracts of this crate cite. Each function does nothing: its contract is the
//! law, and a caller learns it by the call.

ghost use Rattle.std.specs.Prelude.{◌≢◌, ℕ, ◌+◌, ◌<◌, ◌++◌, [], List, length, All, IfSome};
ghost use Rattle.frame_pool.specs.Pool.{PoolView};
ghost use Rattle.frame_pool.specs.ChainView.{LeavesOthers};
ghost use Rattle.accumulator_pages.specs.declared.pages.Pages.{Pages};
ghost use Rattle.accumulator_pages.specs.Pages.{own_chain, pages_places, pages_scores};
ghost use Rattle.accumulator_pages.specs.Adding.{added, raised};
ghost use Rattle.jass_base.specs.declared.answer.Hit.{Hit};
ghost use Rattle.ranking_model.specs.Scores.{runner_up};
ghost use Rattle.topk_heap.specs.Noting.{AreNoted, just_behind};
ghost use Rattle.topk_heap.specs.Standing.{AreFirst, HaveFirst, IsPlaced, IsTouched, TopStands, TopView, with_heap};

/// A heap that stands in some pages still does so after a call on another chain.
pub fn calls_on_other_chains_leave_a_heap()
    ensures { (top : TopView) (pages : Pages) (old new : PoolView) (chain : ℕ) → LeavesOthers old new chain
        → own_chain pages ≢ chain → TopStands top (pages_scores pages old) (pages_places pages old)
        → TopStands top (pages_scores pages new) (pages_places pages new) }
{}

/// Nobody has to be noted where a heap stands, and after that whom each addition raises over the last hit. Where no heap
/// is kept those noted can be cut at any time to the first k + 1 documents, in whatever order. Those noted are what
/// settling asks for and, without a heap, ranking and a cut.
pub fn those_raised_are_noted()
    ensures none { (top : TopView) (scores places : List ℕ) → TopStands top scores places
        → AreNoted top (just_behind (runner_up scores top.k)) scores places [] }
    ensures more { (top : TopView) (last : Hit) (weight : ℕ) (docs scores places noted : List ℕ)
        → AreNoted top last scores places noted → All (λ doc. doc < length scores) docs
        → AreNoted top last (added weight docs scores) places (noted ++ raised weight last docs scores) }
    ensures cut { (top : TopView) (last : Hit) (scores places noted first : List ℕ)
        → AreNoted top last scores places noted → AreFirst scores (top.k + 1) first
        → AreNoted top (just_behind (runner_up scores top.k)) scores places first }
    ensures placed { (top : TopView) (last : Hit) (scores places noted : List ℕ)
        → AreNoted top last scores places noted → IsPlaced top scores places }
    ensures touched { (top : TopView) (last : Hit) (scores places noted : List ℕ)
        → AreNoted top last scores places noted → All (IsTouched scores) noted }
    ensures first { (top : TopView) (last : Hit) (scores places noted : List ℕ)
        → AreNoted top last scores places noted → HaveFirst scores (top.k + 1) (with_heap top noted) }
{}

/// The hit after the first k is of one of the documents.
pub fn the_runner_up_is_a_document()
    ensures { (scores : List ℕ) (k : ℕ) → IfSome (runner_up scores k) (λ hit. hit.doc < length scores) }
{}
