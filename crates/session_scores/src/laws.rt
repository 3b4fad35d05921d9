//! Laws of the definitions that the contracts of this crate cite. Each function does nothing: its contract is the
//! law, and a caller learns it by the call.

ghost use Rattle.std.specs.Prelude.{◌≡◌, ◌≢◌, ◌<◌, ◌≤◌, ℕ, is_some, length};
ghost use Rattle.frame_pool.specs.Pool.{PoolView};
ghost use Rattle.frame_pool.specs.ChainView.{LeavesOthers, number_with_page, view_scores};
ghost use Rattle.accumulator_pages.specs.Adding.{page_count, page_is_touched, touched_pages};
ghost use Rattle.session_scores.specs.Scores.{IsSettled, ScoresStand, docs_of, own_chain, own_view, scores_of};
ghost use Rattle.session_scores.specs.declared.scores.Scores.{Scores};

use accumulator_pages::laws::frames_are_those_of_touched_pages;

/// What the chain of scores that stand in a pool shows: the scores, in frames of the pages that have a touched
/// document, and no other frames.
pub fn the_chain_has_the_scores()
    ensures scores { (scores : Scores) (pool : PoolView)
        → view_scores (docs_of scores) (own_view scores pool) ≡ scores_of scores pool }
    ensures pages { (scores : Scores) (pool : PoolView) (page : ℕ) → ScoresStand scores pool
        → page < page_count (docs_of scores)
        → is_some (number_with_page (own_view scores pool) page) ≡ page_is_touched (scores_of scores pool) page }
    ensures count { (scores : Scores) (pool : PoolView) → ScoresStand scores pool
        → length (own_view scores pool).frames ≡ touched_pages (scores_of scores pool) }
    ensures most { (scores : Scores) (pool : PoolView) → ScoresStand scores pool
        → length (own_view scores pool).frames ≤ page_count (docs_of scores) }
{
    frames_are_those_of_touched_pages();
}

/// Scores that stand in a pool still do so, and see what they saw, after a call on another chain.
pub fn calls_on_other_chains_leave_scores()
    ensures stand { (scores : Scores) (old new : PoolView) (chain : ℕ) → LeavesOthers old new chain
        → own_chain scores ≢ chain → ScoresStand scores old → ScoresStand scores new }
    ensures settled { (scores : Scores) (old new : PoolView) (chain : ℕ) → LeavesOthers old new chain
        → own_chain scores ≢ chain → IsSettled scores old → IsSettled scores new }
    ensures view { (scores : Scores) (old new : PoolView) (chain : ℕ) → LeavesOthers old new chain
        → own_chain scores ≢ chain → own_view scores new ≡ own_view scores old }
    ensures same { (scores : Scores) (old new : PoolView) (chain : ℕ) → LeavesOthers old new chain
        → own_chain scores ≢ chain → scores_of scores new ≡ scores_of scores old }
{}
