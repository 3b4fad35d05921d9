ghost use Rattle.std.specs.Prelude.{◌≡◌, ◌≤◌, length};
ghost use Rattle.ranking_model.specs.Limits.{IsSmall};
ghost use Rattle.ranking_model.specs.Report.{report_of};

use crate::bound::bound_after;
use crate::plan::QueryPlan;
use crate::prefix::{cutoff_after, next_after, size_of_first};
use jass_base::{Grade, Report};

/// The report after the first `count` segments, with the grade that the caller found.
pub fn report_of(count: usize, plan: &QueryPlan, grade: Grade) -> Report
    requires within { count ≤ length plan.now.segments }
    requires small { IsSmall plan.now }
    ensures { result ≡ report_of count plan.now grade }
{
    let segments = plan.segments.as_slice();
    Report {
        postings: size_of_first(count, segments),
        segments: count as u32,
        of: segments.len() as u32,
        cutoff: cutoff_after(count, segments),
        next: next_after(count, segments),
        bound: bound_after(count, plan),
        grade,
    }
}
