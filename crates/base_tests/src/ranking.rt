// The plain programs from a flat list to the report and the hits: each call that takes memory, where there is enough.

ghost use Rattle.std.specs.Prelude.{◌≤◌, IfOk, length};
ghost use Rattle.ranking_model.specs.Limits.{IsSmall};

use jass_base::{Grade, Hit, NoMemory, QueryTerm, Report};
use ranking_model::{
    Entry, QueryPlan, Standing, plan_of, prefix_within, report_of, scores_after, standing_of, top_k,
};
use std::alloc::Global;

/// `cat` in documents 0, 1 and 3, and `dog` in documents 1 and 2.
const ENTRIES: [Entry<u32>; 5] = [
    Entry {
        term: 0,
        doc: 0,
        impact: 3,
    },
    Entry {
        term: 0,
        doc: 1,
        impact: 1,
    },
    Entry {
        term: 0,
        doc: 3,
        impact: 1,
    },
    Entry {
        term: 1,
        doc: 2,
        impact: 3,
    },
    Entry {
        term: 1,
        doc: 1,
        impact: 2,
    },
];

const CAT_AND_DOG: [QueryTerm; 2] = [
    QueryTerm { term: 0, times: 1 },
    QueryTerm { term: 1, times: 1 },
];

const REPORT: Report = Report {
    postings: 3,
    segments: 3,
    of: 4,
    cutoff: 2,
    next: 1,
    bound: 1,
    grade: Grade::Open,
};

const HITS: [Hit; 3] = [
    Hit { doc: 0, score: 3 },
    Hit { doc: 2, score: 3 },
    Hit { doc: 1, score: 2 },
];

fn planned(alloc: Global) -> Result<QueryPlan, NoMemory>
    ensures { IfOk result (λ plan. IsSmall plan) }
{
    plan_of(alloc, 4, &ENTRIES, &CAT_AND_DOG)
}

/// Whether the third hit is the one behind two, and document 3 the least without a score.
fn is_standing(standing: &Standing) -> bool {
    standing.runner_up == Some(HITS[2]) && standing.least_untouched == Some(3)
}

/// Whether so many segments leave two hits in this standing.
fn has_standing(alloc: Global, plan: &QueryPlan, count: usize) -> Result<bool, NoMemory>
    requires within { count ≤ length plan.now.segments }
    requires small { IsSmall plan.now }
{
    let scores = scores_after(alloc, count, plan)?;
    let standing = standing_of(alloc, scores.as_slice(), 2)?;
    Ok(is_standing(&standing))
}

/// Whether four postings give the report and the hits.
fn is_answered(alloc: Global, plan: &QueryPlan) -> Result<bool, NoMemory>
    requires small { IsSmall plan.now }
{
    let count = prefix_within(4, plan.segments.as_slice());
    let hits = top_k(alloc, count, plan, 4)?;
    let stands = has_standing(alloc, plan, count)?;
    Ok(
        stands
            && report_of(count, plan, Grade::Open) == REPORT
            && hits.as_slice() == HITS.as_slice(),
    )
}

fn cat_and_dog(alloc: Global) -> Result<bool, NoMemory> {
    let plan = planned(alloc)?;
    is_answered(alloc, &plan)
}

#[test]
fn four_postings_of_cat_and_dog(rt: HostRuntime) {
    assert!(&rt; cat_and_dog(rt.alloc()).is_ok_and(|right| right));
}
