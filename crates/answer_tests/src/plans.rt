// A plan of `cat dog` and what it answers, where there is memory.

ghost use Rattle.std.specs.Prelude.{◌≡◌, [], ◌∷◌, length};

use jass_base::{Query, QueryTerm, Row, Text};
use segment_plan::examples::segments_of_cat_dog;
use segment_plan::{Plan, PlanEntry, PlanHead};
use std::alloc::Global;
use std::process::Abort;

/// `cat` and `dog`, each named once.
const TERMS: [QueryTerm; 2] = [
    QueryTerm { term: 0, times: 1 },
    QueryTerm { term: 1, times: 1 },
];

/// The heads of their segments.
const HEADS: [PlanHead; 4] = [
    PlanHead {
        term_place: 0,
        segment: 0,
        impact: 3,
        count: 1,
    },
    PlanHead {
        term_place: 0,
        segment: 1,
        impact: 1,
        count: 2,
    },
    PlanHead {
        term_place: 1,
        segment: 0,
        impact: 3,
        count: 1,
    },
    PlanHead {
        term_place: 1,
        segment: 1,
        impact: 2,
        count: 1,
    },
];

/// The plan of `cat` in documents 0, 1 and 3, and `dog` in documents 1 and 2.
fn plan_of_both(rt: &impl Abort, alloc: Global) -> Plan {
    segments_of_cat_dog();
    let query = query(rt, alloc);
    let plan = Plan::new(alloc, &query, &HEADS);
    drop(query);
    plan.expect(rt, "no memory")
}

/// Whether the plan has these weights behind its entries.
fn has_bounds(plan: &Plan) -> bool
    requires { length plan.now.entries ≡ 4 }
{
    plan.rest_bound(0) == 6 && plan.rest_bound(1) == 4 && plan.rest_bound(4) == 0
}

/// Whether so many of its entries are within budgets.
fn has_prefixes(plan: &Plan) -> bool
    requires { length plan.now.entries ≡ 4 }
{
    plan.within(0, 4) == 3
        && plan.within(0, 5) == 4
        && plan.within(2, u64::MAX) == 2
        && plan.within(2, 0) == 0
}

/// The second entry of the plan: the first segment of `dog`.
const SECOND_ENTRY: PlanEntry = PlanEntry {
    term_place: 1,
    segment: 0,
    weight: 3,
    count: 1,
};

/// Whether the plan has four entries, the second one as told, and the bounds and prefixes of both terms.
fn is_of_both(plan: &Plan) -> bool {
    plan.len() == 4 && plan.entry(1) == SECOND_ENTRY && has_bounds(plan) && has_prefixes(plan)
}

/// The plan is that of both terms.
fn check_plan(rt: &impl Abort, alloc: Global) {
    let plan = plan_of_both(rt, alloc);
    let right = is_of_both(&plan);
    drop(plan);
    assert!(rt; right);
}

fn query(rt: &impl Abort, alloc: Global) -> Query
    ensures { length result.terms ≡ 2 }
{
    Query {
        id: Text::from_str(alloc, "q").expect(rt, "no memory"),
        terms: terms(rt, alloc),
        unknown: 0,
    }
}

fn terms(rt: &impl Abort, alloc: Global) -> Row<QueryTerm>
    ensures { result ≡ record { term = 0; times = 1 } ∷ record { term = 1; times = 1 } ∷ [] }
{
    let mut terms = Row::new(alloc);
    terms.extend(&TERMS).expect(rt, "no memory");
    terms
}

#[test]
fn cat_and_dog(rt: HostRuntime) {
    check_plan(&rt, rt.alloc());
}
