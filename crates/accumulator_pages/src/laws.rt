//! Laws of the definitions that the contracts of this crate cite. Each function does nothing: its
//! contract is the law, and a caller learns it by the call.

ghost use Rattle.std.specs.Prelude.{◌≡◌, ◌≢◌, ℕ, ◌/◌, ◌<◌, ◌≤◌, All, AllPairs, Contains, List};
ghost use Rattle.std.specs.Prelude.{is_some, length, slice_index};
ghost use Rattle.frame_pool.specs.Pool.{PoolView};
ghost use Rattle.frame_pool.specs.ChainView.{LeavesOthers, number_with_page};
ghost use Rattle.jass_base.specs.declared.answer.Hit.{Hit};
ghost use Rattle.accumulator_pages.specs.Adding.{added, raised, score_to_pass};
ghost use Rattle.accumulator_pages.specs.Adding.{page_count, page_is_touched, touched_pages};
ghost use Rattle.accumulator_pages.specs.Pages.{HasRoom, HasRoomFor, Stands};
ghost use Rattle.accumulator_pages.specs.Pages.{docs_of, own_chain, own_view, pages_scores};
ghost use Rattle.accumulator_pages.specs.declared.pages.Pages.{Pages};

/// Pages that stand in a pool still do so, and see what they saw, after a call on another chain.
pub fn calls_on_other_chains_leave_pages()
    ensures stands { (pages : Pages) (old new : PoolView) (chain : ℕ) → LeavesOthers old new chain
        → own_chain pages ≢ chain → Stands pages old → Stands pages new }
    ensures view { (pages : Pages) (old new : PoolView) (chain : ℕ) → LeavesOthers old new chain
        → own_chain pages ≢ chain → own_view pages new ≡ own_view pages old }
{}

/// The pages that have a frame are those that have a touched document, and the chain has no other frames.
pub fn frames_are_those_of_touched_pages()
    ensures pages { (pages : Pages) (pool : PoolView) (page : ℕ) → Stands pages pool → page < page_count (docs_of pages)
        → is_some (number_with_page (own_view pages pool) page) ≡ page_is_touched (pages_scores pages pool) page }
    ensures count { (pages : Pages) (pool : PoolView) → Stands pages pool
        → length (own_view pages pool).frames ≡ touched_pages (pages_scores pages pool) }
    ensures most { (pages : Pages) (pool : PoolView) → Stands pages pool
        → length (own_view pages pool).frames ≤ page_count (docs_of pages) }
{}

/// Where there is room for the frames of more documents, there is for that of any one.
pub fn room_for_more_is_room_for_one()
    ensures { (pages : Pages) (pool : PoolView) (doc more : ℕ) → Stands pages pool → doc < docs_of pages → 1 ≤ more
        → HasRoomFor (own_view pages pool) (docs_of pages) more → HasRoom (own_view pages pool) (doc / 256) }
{}

/// The documents that pass a hit by an addition are those whose score was too low for that before and isn't after,
/// each once.
pub fn who_passes_a_hit_is_raised()
    ensures all { (weight doc : ℕ) (last : Hit) (docs scores : List ℕ) → doc < length scores
        → slice_index scores doc < score_to_pass last doc
        → score_to_pass last doc ≤ slice_index (added weight docs scores) doc
        → Contains (raised weight last docs scores) doc }
    ensures only { (weight doc : ℕ) (last : Hit) (docs scores : List ℕ)
        → All (λ other. other < length scores) docs → Contains (raised weight last docs scores) doc
        → (doc < length scores) × (slice_index scores doc < score_to_pass last doc)
        × (score_to_pass last doc ≤ slice_index (added weight docs scores) doc) }
    ensures once { (weight : ℕ) (last : Hit) (docs scores : List ℕ) → All (λ other. other < length scores) docs
        → AllPairs (λ one other. one ≢ other) (raised weight last docs scores) }
{}
