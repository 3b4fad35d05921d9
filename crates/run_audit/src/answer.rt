ghost use Rattle.std.specs.Prelude.{◌≡◌, ◌≤◌, ◌<◌, ◌^◌, length, All, IfOk};
ghost use Rattle.jass_base.specs.declared.answer.Hit.{Hit};
ghost use Rattle.jass_base.specs.declared.limits.TheConstants.{MOST_HITS};
ghost use Rattle.ranking_model.specs.Limits.{IsSmall};
ghost use Rattle.ranking_model.specs.Report.{report_of};
ghost use Rattle.ranking_model.specs.Scores.{bound_after, scores_after, top_k};
ghost use Rattle.run_audit.specs.Private.Grading.{report_by};

use crate::bound::bound_after;
use crate::grading::grade;
use crate::standing::standing_of;
use jass_base::{Grade, Hit, NoMemory, Report, Row};
use ranking_model::laws::the_ranking_has_documents_of_the_scores;
use ranking_model::{QueryPlan, Standing, cutoff_after, next_after, size_of_first};
use std::alloc::Global;

/// The first documents after a prefix of a plan, and what is said of them.
#[derive(Drop)]
pub struct Answer {
    pub hits: Row<Hit>,
    pub report: Report,
}

/// The answer after the first `count` segments of a plan, which gave these scores. `scratch` has room for each document.
pub fn answer_of(
    alloc: Global,
    plan: &QueryPlan,
    count: usize,
    scores: &[u32],
    scratch: &mut [Hit],
    k: u32,
) -> Result<Answer, NoMemory>
    requires small { IsSmall plan.now }
    requires within { count ≤ length plan.now.segments }
    requires scored { scores.now ≡ scores_after count plan.now }
    requires few { k ≤ MOST_HITS }
    requires docs { plan.now.docs < 2 ^ 32 }
    requires room { length scratch.old ≡ plan.now.docs }
    ensures hits { IfOk result (λ answer. answer.hits ≡ top_k count plan.now k) }
    ensures report { IfOk result (λ answer. answer.report ≡ report_by count plan.now k) }
    ensures documents { IfOk result (λ answer. All (λ (hit : Hit). hit.doc < plan.now.docs) answer.hits) }
    ensures room { length scratch.new ≡ length scratch.old }
{
    the_ranking_has_documents_of_the_scores();
    let Standing {
        hits,
        runner_up,
        least_untouched,
    } = standing_of(alloc, scores, scratch, k as usize)?;
    let bound = bound_after(alloc, count, plan)?;
    let grade = grade(hits.as_slice(), runner_up, least_untouched, k, bound);
    Ok(Answer {
        hits,
        report: report_with(count, plan, bound, grade),
    })
}

/// The report after the first `count` segments, which has this bound and this grade.
fn report_with(count: usize, plan: &QueryPlan, bound: u32, grade: Grade) -> Report
    requires within { count ≤ length plan.now.segments }
    requires small { IsSmall plan.now }
    requires bound { bound ≡ bound_after count plan.now }
    ensures { result ≡ report_of count plan.now grade }
{
    let segments = plan.segments.as_slice();
    Report {
        postings: size_of_first(count, segments),
        segments: count as u32,
        of: segments.len() as u32,
        cutoff: cutoff_after(count, segments),
        next: next_after(count, segments),
        bound,
        grade,
    }
}
