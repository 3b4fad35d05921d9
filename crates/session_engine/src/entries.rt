ghost use Rattle.std.specs.Prelude.{◌≡◌, ℕ, ◌+◌, ◌<◌, ◌≤◌, length};
ghost use Rattle.frame_pool.specs.ChainView.{LeavesPool};
ghost use Rattle.ranking_model.specs.Plan.{size_of_first};
ghost use Rattle.ranking_model.specs.Postings.{AreTerms};
ghost use Rattle.session_scores.specs.Scores.{AreScoresOf, own_chain};
ghost use Rattle.sharp_bounds.specs.Marks.{AreMarkedTo};
ghost use Rattle.session_engine.specs.Plans.{need_of, session_plan};
ghost use Rattle.session_engine.specs.Standing.{IsPlanned, ScoredTo};

use crate::laws::{
    a_session_plan_is_small, a_session_plan_names_its_segments, one_entry_more_is_scored,
};
use crate::marks::Marks;
use crate::scoring::{WeighedSegment, score_segment};
use frame_pool::FramePool;
use frame_pool::laws::calls_on_one_chain;
use index_file::Source;
use jass_base::{QueryTerm, Steps};
use ranking_model::prefix_laws::scores_stay_small;
use segment_plan::Plan;
use session_scores::Scores;
use sharp_bounds::mask_laws::each_posting_marks_its_document;
use std::sync::ledger::Ledger;

/// Scores the entries of a plan from one on up to another, in their order, and marks their documents. It answers how
/// many postings they have.
pub fn score_entries<S: Source, M: Marks, L: Ledger>(
    scores: &mut Scores,
    source: &S,
    pool: &mut FramePool,
    terms: &[QueryTerm],
    plan: &Plan,
    from: u32,
    to: u32,
    marks: &mut M,
    steps: &mut Steps<L>,
) -> u64
    requires terms { AreTerms terms.now }
    requires planned { IsPlanned (S.index source.now) terms.now plan.now }
    requires scored { ScoredTo from (session_plan (S.index source.now) terms.now)
        (need_of (S.index source.now) terms.now) scores.old pool.old }
    requires order { from ≤ to }
    requires within { to ≤ length plan.now.entries }
    requires places { (place : ℕ) → place < length terms.now → M.has_place marks.old place }
    requires marks { (doc : ℕ) → doc < length (S.index source.now).names → M.has_mask marks.old doc }
    ensures scored { ScoredTo to (session_plan (S.index source.now) terms.now) (need_of (S.index source.now) terms.now)
        scores.new pool.new }
    ensures postings { size_of_first from (session_plan (S.index source.now) terms.now).segments + result
        ≡ size_of_first to (session_plan (S.index source.now) terms.now).segments }
    ensures steps { steps.new ≡ steps.old + result }
    ensures same { AreScoresOf scores.old scores.new }
    ensures leaves { LeavesPool pool.old pool.new (own_chain scores.old) }
    ensures marked { AreMarkedTo from (session_plan (S.index source.now) terms.now) (M.masks marks.old)
        → AreMarkedTo to (session_plan (S.index source.now) terms.now) (M.masks marks.new) }
    ensures places { (place : ℕ) → M.has_place marks.old place → M.has_place marks.new place }
    ensures marks { (doc : ℕ) → M.has_mask marks.old doc → M.has_mask marks.new doc }
{
    source.is_searchable();
    a_session_plan_names_its_segments();
    a_session_plan_is_small();
    one_entry_more_is_scored();
    scores_stay_small();
    each_posting_marks_its_document();
    calls_on_one_chain();
    let mut block = [0u32; 128];
    let mut postings: u64 = 0;
    for i in from..to {
        let entry = plan.entry(i);
        let segment = WeighedSegment {
            term_place: entry.term_place,
            term: terms[entry.term_place as usize].term,
            segment: entry.segment,
            weight: entry.weight,
            count: entry.count,
        };
        score_segment(scores, source, pool, segment, &mut block, marks, steps);
        postings += u64::from(entry.count);
    }
    postings
}
