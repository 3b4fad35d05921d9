ghost use Rattle.std.specs.Prelude.{◌≡◌, ◌≤◌, length, take};
ghost use Rattle.final_certificate.specs.Rule.{report_by};
ghost use Rattle.ranking_model.specs.declared.plan.QueryPlan.{QueryPlan};
ghost use Rattle.ranking_model.specs.Plan.{cutoff_after, next_after};
ghost use Rattle.ranking_model.specs.Scores.{scores_after};
ghost use Rattle.segment_plan.specs.Entries.{postings_of};
ghost use Rattle.segment_plan.specs.Shape.{HasShape};
ghost use Rattle.session_scores.specs.Scores.{IsSettled, ScoresStand, k_of, scores_of};

use final_certificate::grade;
use frame_pool::FramePool;
use jass_base::Report;
use segment_plan::Plan;
use segment_plan::laws::{
    a_segment_for_each_entry, prefixes_are_those_of_the_plan, weights_are_those_of_the_plan,
};
use session_scores::Scores;

/// The report of the first k documents after the first `count` entries of a plan, which have so many postings.
pub fn report_at(
    scores: &Scores,
    pool: &FramePool,
    plan: &Plan,
    k: u32,
    count: u32,
    postings: u64,
) -> Report
    requires stand { ScoresStand scores.now pool.now }
    requires settled { IsSettled scores.now pool.now }
    requires asked { k_of scores.now ≡ k }
    requires within { count ≤ length plan.now.entries }
    requires postings { postings ≡ postings_of (take count plan.now.entries) }
    ensures { (defined : QueryPlan) → HasShape plan.now defined →
        scores_of scores.now pool.now ≡ scores_after count defined → result ≡ report_by count defined k }
{
    a_segment_for_each_entry();
    prefixes_are_those_of_the_plan();
    weights_are_those_of_the_plan();
    let bound = plan.rest_bound(count);
    Report {
        postings,
        segments: count,
        of: plan.len(),
        cutoff: cutoff(plan, count),
        next: next(plan, count),
        bound,
        grade: grade(
            scores.hits(),
            scores.runner_up(),
            scores.least_untouched(pool),
            k,
            bound,
        ),
    }
}

/// The weight of the last of the first `count` entries, 0 where there is none.
fn cutoff(plan: &Plan, count: u32) -> u32
    requires { count ≤ length plan.now.entries }
    ensures { (defined : QueryPlan) → HasShape plan.now defined → result ≡ cutoff_after count defined.segments }
{
    weights_are_those_of_the_plan();
    if count == 0 {
        0
    } else {
        plan.entry(count - 1).weight
    }
}

/// The weight of the entry behind the first `count`, 0 where there is none.
fn next(plan: &Plan, count: u32) -> u32
    requires { count ≤ length plan.now.entries }
    ensures { (defined : QueryPlan) → HasShape plan.now defined → result ≡ next_after count defined.segments }
{
    weights_are_those_of_the_plan();
    if count < plan.len() {
        plan.entry(count).weight
    } else {
        0
    }
}
