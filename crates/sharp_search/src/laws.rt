//! Laws of searches. Each function does nothing of its own: its contract is the law, and a caller learns it by the call.

ghost use Rattle.std.specs.Prelude.{◌≡◌, ◌≢◌, ℕ, ◌≤◌};
ghost use Rattle.frame_pool.specs.ChainView.{LeavesOthers, chain_view};
ghost use Rattle.frame_pool.specs.Pool.{IsInUse, PoolView};
ghost use Rattle.index_model.specs.Index.{IndexData};
ghost use Rattle.index_file.specs.Sources.{IsSearchable};
ghost use Rattle.session_engine.specs.Plans.{need_of};
ghost use Rattle.sharp_bounds.specs.Rule.{stop_at};
ghost use Rattle.sharp_bounds.specs.Sharpness.{IsSharpFinal, IsSharpReport, IsStop};
ghost use Rattle.sharp_search.specs.Standing.{SharpStands, answer_over, chain_of, granted_of, k_of};
ghost use Rattle.sharp_search.specs.Standing.{plan_over, prefix_of, report_of, terms_of};
ghost use Rattle.sharp_search.specs.declared.stopping.SharpSearch.{SharpSearch};

use index_model::laws::the_flat_list_is_flat;
use ranking_model::laws::the_prefix_is_the_longest;
use session_scores::laws::calls_on_other_chains_leave_scores;
use sharp_bounds::laws::{the_rule_decides_which_are_sharply_final, the_rule_says_where_to_stop};

/// A search stops at the first prefix of its plan whose answer no gains can change, and at that of its grants where none
/// before it is such; its report is that of this prefix.
pub fn a_search_stops_as_soon_as_it_may()
    ensures stop { (s : SharpSearch) (index : IndexData) (pool : PoolView) → IsSearchable index →
        SharpStands s index pool → IsStop (granted_of s) (plan_over index s) (k_of s) (prefix_of s) }
    ensures first { (s : SharpSearch) (index : IndexData) (pool : PoolView) → IsSearchable index →
        SharpStands s index pool → prefix_of s ≡ stop_at (granted_of s) (plan_over index s) (k_of s) }
    ensures report { (s : SharpSearch) (index : IndexData) (pool : PoolView) → IsSearchable index →
        SharpStands s index pool → IsSharpReport (prefix_of s) (plan_over index s) (k_of s) (report_of s) }
{
    the_flat_list_is_flat();
    the_rule_decides_which_are_sharply_final();
    the_rule_says_where_to_stop();
}

/// A search that stands has its chain, with the promise that its query needs.
pub fn a_standing_search_has_its_chain()
    ensures in_use { (s : SharpSearch) (index : IndexData) (pool : PoolView) → SharpStands s index pool →
        IsInUse pool (chain_of s) }
    ensures promise { (s : SharpSearch) (index : IndexData) (pool : PoolView) → SharpStands s index pool →
        (chain_view pool (chain_of s)).promise ≡ need_of index (terms_of s) }
{}

/// A search that stands still does so after a call on another chain.
pub fn calls_on_other_chains_leave_searches()
    ensures { (s : SharpSearch) (index : IndexData) (old new : PoolView) (chain : ℕ) → LeavesOthers old new chain →
        chain_of s ≢ chain → SharpStands s index old → SharpStands s index new }
{
    calls_on_other_chains_leave_scores();
}

/// Grants in parts are one grant of their sum: searches of the same terms and k to which the same sum is granted have
/// stopped at the same prefix, and report and answer the same.
pub fn grants_in_parts_are_one_grant()
    ensures prefix { (s t : SharpSearch) (index : IndexData) (pool other : PoolView) → IsSearchable index →
        SharpStands s index pool → SharpStands t index other →
        terms_of s ≡ terms_of t → k_of s ≡ k_of t → granted_of s ≡ granted_of t →
        prefix_of s ≡ prefix_of t }
    ensures report { (s t : SharpSearch) (index : IndexData) (pool other : PoolView) → IsSearchable index →
        SharpStands s index pool → SharpStands t index other →
        terms_of s ≡ terms_of t → k_of s ≡ k_of t → granted_of s ≡ granted_of t →
        report_of s ≡ report_of t }
    ensures answer { (s t : SharpSearch) (index : IndexData) (pool other : PoolView) → IsSearchable index →
        SharpStands s index pool → SharpStands t index other →
        terms_of s ≡ terms_of t → k_of s ≡ k_of t → granted_of s ≡ granted_of t →
        answer_over index s ≡ answer_over index t }
{
    a_search_stops_as_soon_as_it_may();
}

/// Once its answer can't change, a search stays where it is: more grants add nothing.
pub fn grants_after_the_end_add_nothing()
    ensures { (s t : SharpSearch) (index : IndexData) (pool other : PoolView) → IsSearchable index →
        SharpStands s index pool → SharpStands t index other →
        terms_of s ≡ terms_of t → k_of s ≡ k_of t → granted_of s ≤ granted_of t →
        IsSharpFinal (prefix_of s) (plan_over index s) (k_of s) → prefix_of s ≡ prefix_of t }
{
    a_search_stops_as_soon_as_it_may();
    the_prefix_is_the_longest();
    the_rule_says_where_to_stop();
}
