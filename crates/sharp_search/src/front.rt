ghost use Rattle.std.specs.Prelude.{◌≡◌, ℕ, ◌+◌, ◌-◌, ◌<◌, ◌≤◌, true, false, length, slice_index, slice_set, take, if◌then◌else◌};
ghost use Rattle.frame_pool.specs.ChainView.{LeavesPool};
ghost use Rattle.ranking_model.specs.declared.plan.QueryPlan.{QueryPlan};
ghost use Rattle.ranking_model.specs.Plan.{size_of_first};
ghost use Rattle.ranking_model.specs.Postings.{AreTerms};
ghost use Rattle.ranking_model.specs.Report.{report_of};
ghost use Rattle.ranking_model.specs.Scores.{scores_after};
ghost use Rattle.segment_plan.specs.Entries.{postings_of};
ghost use Rattle.segment_plan.specs.Shape.{HasShape};
ghost use Rattle.session_engine.specs.Plans.{session_plan};
ghost use Rattle.session_engine.specs.Standing.{IsPlanned};
ghost use Rattle.session_scores.specs.Scores.{AreScoresOf, IsSettled, ScoresStand, docs_of, k_of, own_chain, scores_of};
ghost use Rattle.sharp_bounds.specs.Marks.{AreMarkedTo, next_weights};
ghost use Rattle.sharp_bounds.specs.Rule.{is_sharp, sharp_grade};
ghost use Rattle.sharp_search.specs.Fronts.{FrontStands};

use crate::deciding::is_settled;
use frame_pool::FramePool;
use frame_pool::laws::calls_on_one_chain;
use index_file::Source;
use jass_base::{Grade, QueryTerm, Report, Steps};
use segment_plan::Plan;
use segment_plan::laws::weights_are_those_of_the_plan;
use session_engine::laws::{
    a_session_plan_is_small, a_session_plan_names_its_segments, one_entry_more_is_scored,
};
use session_engine::{report_at, score_entries};
use session_scores::Scores;
use sharp_bounds::Masks;
use sharp_bounds::mask_laws::{
    one_weight_falls_with_the_bound, the_clear_bits_tell_what_is_unseen,
};
use std::sync::ledger::Ledger;

/// How far a search has come: the scores of the first segments of its plan with the mask of each document, the next
/// weight of each term, how many segments these are, and whether no gains can change their answer.
pub struct Front {
    pub scores: Scores,
    pub masks: Masks,
    pub weights: Vec<u32>,
    pub scored: u32,
    pub settled: bool,
}

/// Whether the answer after the first n segments can't change.
pub fn decide(
    scores: &Scores,
    pool: &FramePool,
    masks: &Masks,
    weights: &[u32],
    plan: &Plan,
    docs: u32,
    k: u32,
    n: u32,
) -> bool
    requires stand { ScoresStand scores.now pool.now }
    requires settled { IsSettled scores.now pool.now }
    requires docs { docs_of scores.now ≡ docs }
    requires asked { k_of scores.now ≡ k }
    requires some { 1 ≤ k }
    requires masks { length masks.now.masks ≡ docs }
    requires few { length weights.now ≤ 64 }
    requires within { n ≤ length plan.now.entries }
    ensures { (defined : QueryPlan) → HasShape plan.now defined → scores_of scores.now pool.now ≡ scores_after n defined
        → AreMarkedTo n defined masks.now.masks → weights.now ≡ next_weights n defined → result ≡ is_sharp n defined k }
{
    weights_are_those_of_the_plan();
    the_clear_bits_tell_what_is_unseen();
    is_settled(scores, pool, masks, weights, docs, k, plan.rest_bound(n))
}

/// Scores segments up to one, marks their documents, and stops before where the answer can't change any more. It answers
/// how many postings they have.
pub fn advance_to<S: Source, L: Ledger>(
    front: &mut Front,
    source: &S,
    pool: &mut FramePool,
    terms: &[QueryTerm],
    plan: &Plan,
    k: u32,
    to: u32,
    steps: &mut Steps<L>,
) -> u64
    requires terms { AreTerms terms.now }
    requires planned { IsPlanned (S.index source.now) terms.now plan.now }
    requires few { length terms.now ≤ 64 }
    requires some { 1 ≤ k }
    requires stands { FrontStands (S.index source.now) terms.now k front.old pool.old }
    requires order { front.old.scored ≤ to }
    requires within { to ≤ length plan.now.entries }
    ensures stands { FrontStands (S.index source.now) terms.now k front.new pool.new }
    ensures within { front.new.scored ≤ to }
    ensures stopped { front.new.scored < to → front.new.settled ≡ true }
    ensures postings { size_of_first front.old.scored (session_plan (S.index source.now) terms.now).segments + result
        ≡ size_of_first front.new.scored (session_plan (S.index source.now) terms.now).segments }
    ensures steps { steps.new ≡ steps.old + result }
    ensures same { AreScoresOf front.old.scores front.new.scores }
    ensures leaves { LeavesPool pool.old pool.new (own_chain front.old.scores) }
{
    source.is_searchable();
    a_session_plan_is_small();
    one_entry_more_is_scored();
    calls_on_one_chain();
    let mut postings: u64 = 0;
    'segments: while !front.settled && front.scored < to {
        let next = front.scored + 1;
        postings += advance(front, source, pool, terms, plan, k, next, steps);
    }
    postings
}

/// Scores one more segment, up to `next`, marks its documents, and decides anew.
fn advance<S: Source, L: Ledger>(
    front: &mut Front,
    source: &S,
    pool: &mut FramePool,
    terms: &[QueryTerm],
    plan: &Plan,
    k: u32,
    next: u32,
    steps: &mut Steps<L>,
) -> u64
    requires terms { AreTerms terms.now }
    requires planned { IsPlanned (S.index source.now) terms.now plan.now }
    requires few { length terms.now ≤ 64 }
    requires some { 1 ≤ k }
    requires stands { FrontStands (S.index source.now) terms.now k front.old pool.old }
    requires unsettled { front.old.settled ≡ false }
    requires one { next ≡ front.old.scored + 1 }
    requires within { next ≤ length plan.now.entries }
    ensures stands { FrontStands (S.index source.now) terms.now k front.new pool.new }
    ensures one { front.new.scored ≡ front.old.scored + 1 }
    ensures postings { size_of_first front.old.scored (session_plan (S.index source.now) terms.now).segments + result
        ≡ size_of_first front.new.scored (session_plan (S.index source.now) terms.now).segments }
    ensures steps { steps.new ≡ steps.old + result }
    ensures same { AreScoresOf front.old.scores front.new.scores }
    ensures leaves { LeavesPool pool.old pool.new (own_chain front.old.scores) }
{
    source.is_searchable();
    a_session_plan_names_its_segments();
    one_entry_more_is_scored();
    one_weight_falls_with_the_bound();
    weights_are_those_of_the_plan();
    calls_on_one_chain();
    let n = front.scored;
    let entry = plan.entry(n);
    let bound = plan.rest_bound(n);
    let rest = plan.rest_bound(next);
    let postings = score_entries(
        &mut front.scores,
        source,
        pool,
        terms,
        plan,
        n,
        next,
        &mut front.masks,
        steps,
    );
    front.scores.settle(pool);
    lower(&mut front.weights, entry.term_place, bound - rest);
    front.scored = next;
    front.settled = decide(
        &front.scores,
        pool,
        &front.masks,
        front.weights.as_slice(),
        plan,
        source.docs(),
        k,
        next,
    );
    postings
}

/// The report of what is scored, which has so many postings.
pub fn report_after(front: &Front, pool: &FramePool, plan: &Plan, k: u32, postings: u64) -> Report
    requires stand { ScoresStand front.now.scores pool.now }
    requires settled { IsSettled front.now.scores pool.now }
    requires asked { k_of front.now.scores ≡ k }
    requires within { front.now.scored ≤ length plan.now.entries }
    requires postings { postings ≡ postings_of (take front.now.scored plan.now.entries) }
    ensures { (defined : QueryPlan) → HasShape plan.now defined
        → scores_of front.now.scores pool.now ≡ scores_after front.now.scored defined
        → front.now.settled ≡ is_sharp front.now.scored defined k
        → result ≡ report_of front.now.scored defined (sharp_grade front.now.scored defined k) }
{
    let report = report_at(&front.scores, pool, plan, k, front.scored, postings);
    graded(report, front.settled)
}

/// A report, which is final where the answer is settled.
fn graded(report: Report, settled: bool) -> Report
    ensures { result ≡ if settled then record report { grade = Grade.Final } else report }
{
    if settled {
        Report {
            grade: Grade::Final,
            ..report
        }
    } else {
        report
    }
}

fn lower(weights: &mut Vec<u32>, place: u32, by: u32)
    requires inside { place < length weights.old.items }
    requires by { by ≤ slice_index weights.old.items place }
    ensures { weights.new.items ≡ slice_set weights.old.items place (slice_index weights.old.items place - by) }
{
    weights[place as usize] -= by;
}
