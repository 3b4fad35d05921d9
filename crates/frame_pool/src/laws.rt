//! Laws of the definitions that the contracts of this crate cite. Each function does nothing: its
//! contract is the law, and a caller learns it by the call.

ghost use Rattle.std.specs.Prelude.{◌≡◌, ◌↔◌, ℕ};
ghost use Rattle.frame_pool.specs.Pool.{PoolView, IsInUse, promise_refusal};
ghost use Rattle.frame_pool.specs.ChainView.{LeavesPool};

/// What calls on one chain leave of a pool they leave together, so any number of them.
pub fn calls_on_one_chain()
    ensures none { (pool : PoolView) (chain : ℕ) → LeavesPool pool pool chain }
    ensures two { (first second third : PoolView) (chain : ℕ) → LeavesPool first second chain
        → LeavesPool second third chain → LeavesPool first third chain }
{}

/// A call on one chain leaves all chains in use and refuses no promise that it didn't refuse.
pub fn a_call_on_one_chain_refuses_nothing()
    ensures in_use { (old new : PoolView) (chain other : ℕ) → LeavesPool old new chain
        → IsInUse new other ↔ IsInUse old other }
    ensures refusal { (old new : PoolView) (chain n : ℕ) → LeavesPool old new chain
        → promise_refusal new n ≡ promise_refusal old n }
{}
