//! Laws of sessions, and of the plans that they follow. Each function does nothing of its own: its contract is the law,
//! and a caller learns it by the call.

ghost use Rattle.std.specs.Prelude.{◌≡◌, ◌≢◌, ℕ, ◌+◌, ◌<◌, ◌≤◌, Some, List, All, is_some, length, map, replicate, slice_get};
ghost use Rattle.std.specs.List.{AllByRecursion};
ghost use Rattle.jass_base.specs.declared.query_term.QueryTerm.{QueryTerm};
ghost use Rattle.ranking_model.specs.Limits.{IsSmall};
ghost use Rattle.ranking_model.specs.Plan.{prefix_within, size_of_first};
ghost use Rattle.ranking_model.specs.Postings.{AreTerms, weighted_postings};
ghost use Rattle.ranking_model.specs.Promises.{IsPromised};
ghost use Rattle.ranking_model.specs.Report.{IsReport};
ghost use Rattle.ranking_model.specs.Scores.{added, scores_after};
ghost use Rattle.index_model.specs.Flat.{numbered_flat};
ghost use Rattle.index_model.specs.Index.{IndexData, IsWellFormed};
ghost use Rattle.index_file.specs.Sources.{IsSearchable};
ghost use Rattle.segment_plan.specs.declared.entry.PlanEntry.{PlanEntry};
ghost use Rattle.segment_plan.specs.Entries.{AreHeads, plan_with};
ghost use Rattle.segment_plan.specs.Shape.{HasShape};
ghost use Rattle.frame_pool.specs.ChainView.{LeavesOthers, chain_view, number_with_page, view_scores};
ghost use Rattle.accumulator_pages.specs.Adding.{page_count, page_is_touched, touched_pages};
ghost use Rattle.frame_pool.specs.Pool.{IsInUse, PoolView};
ghost use Rattle.session_engine.specs.Plans.{AreKnown, HasEntry, NamesSegment, segment_named, docs_named};
ghost use Rattle.session_engine.specs.Plans.{need_of, plan_postings, postings_of_terms, query_heads, session_plan};
ghost use Rattle.session_engine.specs.Standing.{SessionStands, answer_over, chain_of, granted_of, k_of};
ghost use Rattle.session_engine.specs.Standing.{plan_over, prefix_of, report_of, terms_of};
ghost use Rattle.session_engine.specs.declared.session.Session.{Session};
ghost use Rattle.jass_base.specs.declared.limits.TheConstants.{MOST_TIMES};

use final_certificate::laws::a_prefix_has_one_report;
use index_model::laws::{
    a_query_weighs_its_segments, the_flat_list_is_flat, the_plan_has_the_named_segments,
};
use ranking_model::laws::{
    a_plan_has_the_segments_of_its_postings, plans_are_small, reports_keep_their_promises,
    the_prefix_is_the_longest, the_segments_have_all_postings,
};
use ranking_model::prefix_laws::{a_prefix_is_resumed, one_segment_more_is_added};
use session_scores::laws::{calls_on_other_chains_leave_scores, the_chain_has_the_scores};

/// A query's plan has the segments that the entries of its arranged heads name, entry by entry.
#[tactic(auto, unfolding(crate::specs::Plans::session_plan))]
pub fn a_session_plan_names_its_segments()
    ensures docs { (index : IndexData) (terms : List QueryTerm) →
        (session_plan index terms).docs ≡ length index.names }
    ensures heads { (index : IndexData) (terms : List QueryTerm) →
        IsWellFormed index → AreTerms terms → AreKnown index terms →
        AreHeads terms (query_heads index terms) }
    ensures segments { (index : IndexData) (terms : List QueryTerm) →
        IsWellFormed index → AreTerms terms → AreKnown index terms →
        (session_plan index terms).segments
        ≡ map (segment_named index terms) (plan_with terms (query_heads index terms)).entries }
    ensures names { (index : IndexData) (terms : List QueryTerm) →
        IsWellFormed index → AreTerms terms → AreKnown index terms →
        All (NamesSegment index terms) (plan_with terms (query_heads index terms)).entries }
    ensures shape { (index : IndexData) (terms : List QueryTerm) →
        IsWellFormed index → AreTerms terms → AreKnown index terms →
        HasShape (plan_with terms (query_heads index terms)) (session_plan index terms) }
{
    a_plan_has_the_segments_of_its_postings();
    the_plan_has_the_named_segments();
}

/// An entry of the arranged heads names a segment of the index, whose postings are the next segment of the plan.
pub fn one_entry_more_is_scored()
    ensures names { (index : IndexData) (terms : List QueryTerm) (n : ℕ) (entry : PlanEntry) →
        HasEntry index terms n entry → NamesSegment index terms entry }
    ensures segment { (index : IndexData) (terms : List QueryTerm) (n : ℕ) (entry : PlanEntry) →
        HasEntry index terms n entry →
        slice_get (session_plan index terms).segments n ≡ Some (segment_named index terms entry) }
    ensures scores { (index : IndexData) (terms : List QueryTerm) (n : ℕ) (entry : PlanEntry) →
        HasEntry index terms n entry →
        scores_after (n + 1) (session_plan index terms)
        ≡ added entry.weight (docs_named index terms entry) (scores_after n (session_plan index terms)) }
    ensures size { (index : IndexData) (terms : List QueryTerm) (n : ℕ) (entry : PlanEntry) →
        HasEntry index terms n entry →
        size_of_first (n + 1) (session_plan index terms).segments
        ≡ size_of_first n (session_plan index terms).segments + entry.count }
    ensures most { (index : IndexData) (terms : List QueryTerm) (n : ℕ) →
        size_of_first n (session_plan index terms).segments ≤ plan_postings (session_plan index terms) }
{
    a_session_plan_names_its_segments();
    one_segment_more_is_added();
    a_prefix_is_resumed();
}

/// Without a grant nothing is scored.
#[tactic(auto, unfolding(crate::specs::Plans::session_plan))]
pub fn nothing_is_scored_at_first()
    ensures prefix { (index : IndexData) (terms : List QueryTerm) →
        IsWellFormed index → AreTerms terms → AreKnown index terms →
        prefix_within 0 (session_plan index terms).segments ≡ 0 }
    ensures scores { (index : IndexData) (terms : List QueryTerm) →
        scores_after 0 (session_plan index terms) ≡ replicate (length index.names) 0 }
{
    a_session_plan_names_its_segments();
    the_prefix_is_the_longest();
}

/// The numbers of a query's plan fit their types.
#[tactic(auto, unfolding(crate::specs::Plans::session_plan))]
pub fn a_session_plan_is_small()
    ensures { (index : IndexData) (terms : List QueryTerm) →
        IsSearchable index → AreTerms terms → All (λ (n : QueryTerm). n.times ≤ MOST_TIMES) terms →
        IsSmall (session_plan index terms) }
{
    the_flat_list_is_flat();
    plans_are_small();
}

/// A query's plan has the postings of its terms.
#[tactic(auto, unfolding(crate::specs::Plans::session_plan))]
pub fn a_session_plan_has_its_postings()
    ensures { (index : IndexData) (terms : List QueryTerm) →
        plan_postings (session_plan index terms) ≡ postings_of_terms index.terms terms }
{
    a_plan_has_the_segments_of_its_postings();
    a_query_weighs_its_segments();
    the_segments_have_all_postings();
}

/// A session that stands has its chain, with the promise that its query needs, and has scored what its grants pay for.
pub fn a_standing_session_has_its_chain()
    ensures in_use { (s : Session) (index : IndexData) (pool : PoolView) → SessionStands s index pool →
        IsInUse pool (chain_of s) }
    ensures promise { (s : Session) (index : IndexData) (pool : PoolView) → SessionStands s index pool →
        (chain_view pool (chain_of s)).promise ≡ need_of index (terms_of s) }
    ensures prefix { (s : Session) (index : IndexData) (pool : PoolView) → SessionStands s index pool →
        prefix_of s ≡ prefix_within (granted_of s) (plan_over index s).segments }
{}

/// A session that stands still does so after a call on another chain, and so do any number of sessions.
pub fn calls_on_other_chains_leave_sessions()
    ensures one { (s : Session) (index : IndexData) (old new : PoolView) (chain : ℕ) → LeavesOthers old new chain →
        chain_of s ≢ chain → SessionStands s index old → SessionStands s index new }
    ensures all { (sessions : List Session) (index : IndexData) (old new : PoolView) (chain : ℕ) →
        LeavesOthers old new chain → AllByRecursion (λ (s : Session). chain_of s ≢ chain) sessions →
        AllByRecursion (λ (s : Session). SessionStands s index old) sessions →
        AllByRecursion (λ (s : Session). SessionStands s index new) sessions }
{
    calls_on_other_chains_leave_scores();
}

/// Grants in parts are one grant of their sum: sessions of the same terms and k to which the same sum is granted have
/// scored the same, and report and answer the same, whatever their grants and other sessions were.
pub fn grants_in_parts_are_one_grant()
    ensures prefix { (s t : Session) (index : IndexData) (pool other : PoolView) →
        SessionStands s index pool → SessionStands t index other →
        terms_of s ≡ terms_of t → k_of s ≡ k_of t → granted_of s ≡ granted_of t →
        prefix_of s ≡ prefix_of t }
    ensures report { (s t : Session) (index : IndexData) (pool other : PoolView) →
        SessionStands s index pool → SessionStands t index other →
        terms_of s ≡ terms_of t → k_of s ≡ k_of t → granted_of s ≡ granted_of t →
        report_of s ≡ report_of t }
    ensures answer { (s t : Session) (index : IndexData) (pool other : PoolView) →
        SessionStands s index pool → SessionStands t index other →
        terms_of s ≡ terms_of t → k_of s ≡ k_of t → granted_of s ≡ granted_of t →
        answer_over index s ≡ answer_over index t }
{}

/// The report of a session is that of its prefix, and keeps its promises for every later prefix.
#[tactic(auto, unfolding(crate::specs::Plans::session_plan))]
pub fn reports_of_sessions_keep_their_promises()
    ensures report { (s : Session) (index : IndexData) (pool : PoolView) → SessionStands s index pool →
        IsReport (prefix_of s) (plan_over index s) (k_of s) (report_of s) }
    ensures promised { (s : Session) (index : IndexData) (pool : PoolView) →
        IsSearchable index → SessionStands s index pool →
        IsPromised (weighted_postings (numbered_flat index) (terms_of s)) (prefix_of s) (plan_over index s) (k_of s)
        (report_of s) }
{
    the_flat_list_is_flat();
    a_prefix_has_one_report();
    reports_keep_their_promises();
}

/// What a session that stands has in its pool: the scores of its prefix, in frames of the pages of 256 documents that
/// have one with a score, no others, and never more of them than its query needs.
pub fn a_session_has_the_scores_of_its_prefix()
    ensures scores { (s : Session) (index : IndexData) (pool : PoolView) → SessionStands s index pool →
        view_scores (length index.names) (chain_view pool (chain_of s))
        ≡ scores_after (prefix_of s) (plan_over index s) }
    ensures pages { (s : Session) (index : IndexData) (pool : PoolView) (page : ℕ) → SessionStands s index pool →
        page < page_count (length index.names) →
        is_some (number_with_page (chain_view pool (chain_of s)) page)
        ≡ page_is_touched (scores_after (prefix_of s) (plan_over index s)) page }
    ensures frames { (s : Session) (index : IndexData) (pool : PoolView) → SessionStands s index pool →
        length (chain_view pool (chain_of s)).frames ≡ touched_pages (scores_after (prefix_of s) (plan_over index s)) }
    ensures need { (s : Session) (index : IndexData) (pool : PoolView) → SessionStands s index pool →
        length (chain_view pool (chain_of s)).frames ≤ need_of index (terms_of s) }
{
    the_chain_has_the_scores();
    a_session_plan_names_its_segments();
    one_entry_more_is_scored();
}

/// The steps of a session that stands, which its report tells, are paid for by its grants: they are the postings of its
/// prefix, and at most the sum of what was granted.
pub fn grants_pay_for_a_session()
    ensures steps { (s : Session) (index : IndexData) (pool : PoolView) → SessionStands s index pool →
        (report_of s).postings ≡ size_of_first (prefix_of s) (plan_over index s).segments }
    ensures paid { (s : Session) (index : IndexData) (pool : PoolView) → SessionStands s index pool →
        (report_of s).postings ≤ granted_of s }
{
    the_prefix_is_the_longest();
}
