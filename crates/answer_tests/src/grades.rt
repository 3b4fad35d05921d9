// The grades of the small indexes after a prefix of their plans.

use final_certificate::grade;
use jass_base::{Grade, Hit};
use std::process::Abort;

/// Hits, the document behind them, the least one without a score, how many are asked for, what a score may still gain,
/// and the grade.
type Case<'a> = (&'a [Hit], Option<Hit>, Option<u32>, u32, u32, Grade);

const FIRST_3: Hit = Hit { doc: 0, score: 3 };

const FIRST_9: Hit = Hit { doc: 0, score: 9 };

const SECOND_5: Hit = Hit { doc: 1, score: 5 };

const SECOND_3: Hit = Hit { doc: 1, score: 3 };

/// Cases, each group under what it shows.
const CASES: [Case<'static>; 10] = [
    // Two of three may be passed.
    (
        &[FIRST_3, Hit { doc: 2, score: 3 }],
        None,
        Some(1),
        2,
        3,
        Grade::Open,
    ),
    // Hits that are far ahead.
    (&[FIRST_9], None, Some(1), 1, 5, Grade::Final),
    (&[FIRST_9, SECOND_5], None, Some(2), 2, 1, Grade::Final),
    (&[FIRST_9, SECOND_5], None, Some(2), 3, 1, Grade::Open),
    // A tie goes to the lower document.
    (&[FIRST_3], None, Some(1), 1, 3, Grade::Final),
    (&[SECOND_3], None, Some(0), 1, 3, Grade::Open),
    // A final answer may open again.
    (&[FIRST_9], None, Some(1), 1, 8, Grade::Final),
    (
        &[FIRST_9],
        Some(Hit { doc: 1, score: 8 }),
        Some(2),
        1,
        7,
        Grade::Open,
    ),
    // All documents are hit, but may swap.
    (
        &[SECOND_3, Hit { doc: 0, score: 2 }],
        None,
        None,
        2,
        1,
        Grade::Set,
    ),
    (
        &[SECOND_3, Hit { doc: 0, score: 2 }],
        None,
        None,
        2,
        0,
        Grade::Final,
    ),
];

/// Whether hits have this grade.
fn is_graded(
    hits: &[Hit],
    runner_up: Option<Hit>,
    least_untouched: Option<u32>,
    k: u32,
    bound: u32,
    want: Grade,
) -> bool {
    grade(hits, runner_up, least_untouched, k, bound) == want
}

/// Each case has the grade that stands beside it.
fn check_cases(rt: &impl Abort, cases: &[Case<'_>]) {
    for (hits, runner_up, least_untouched, k, bound, want) in cases {
        assert!(rt; is_graded(hits, *runner_up, *least_untouched, *k, *bound, *want));
    }
}

#[test]
fn small_indexes_are_graded(rt: HostRuntime) {
    check_cases(&rt, &CASES);
}
