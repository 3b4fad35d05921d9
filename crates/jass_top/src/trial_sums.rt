ghost use Rattle.std.specs.Prelude.{ℕ, ◌≡◌, ◌+◌, ◌*◌, ◌<◌, ◌≤◌, ◌^◌, length, if◌then◌else◌};
ghost use Rattle.jass_top.specs.TrialMeaning.{hit_scores, is_final};
ghost use Rattle.jass_top.specs.TrialSums.{no_sums, with_answer};
ghost use Rattle.jass_top.specs.Private.SmallSums.{AreSmallSums, IsSmallSum};
ghost use Rattle.jass_words.specs.declared.word_limits.TheConstants.{MOST_QUERIES};

use jass_base::{Grade, Hit, Report};

/// What the answers to some queries sum up to after one of their grants.
#[derive(Clone, Copy)]
pub struct BudgetSum {
    /// Postings scored so far.
    pub postings: u64,
    /// Queries whose report is final.
    pub finals: u64,
    /// The scores of all hits.
    pub scores: u64,
}

/// The same after each of the three grants.
#[derive(Clone, Copy)]
pub struct TrialSums {
    pub first: BudgetSum,
    pub second: BudgetSum,
    pub last: BudgetSum,
}

impl TrialSums {
    /// Of no answers.
    pub fn new() -> TrialSums
        ensures none { result ≡ no_sums }
        ensures small { AreSmallSums 0 result }
    {
        let none = BudgetSum {
            postings: 0,
            finals: 0,
            scores: 0,
        };
        TrialSums {
            first: none,
            second: none,
            last: none,
        }
    }
}

impl BudgetSum {
    /// With one answer more, of at most 10,001.
    pub fn with(self, report: Report, hits: &[Hit]) -> BudgetSum
        requires small { IsSmallSum MOST_QUERIES self }
        requires postings { report.postings < 2 ^ 32 }
        requires few { length hits.now ≤ 10 }
        ensures sum { result ≡ with_answer self report hits.now }
        ensures small { (n : ℕ) → IsSmallSum n self → IsSmallSum (n + 1) result }
    {
        BudgetSum {
            postings: self.postings + report.postings,
            finals: self.finals + finals_of(report.grade),
            scores: self.scores + scores_of(hits),
        }
    }
}

/// 1 where the grade is final.
fn finals_of(grade: Grade) -> u64
    ensures is { result ≡ (if is_final grade then 1 else 0) }
    ensures small { result ≤ 1 }
{
    match grade {
        Grade::Final => 1,
        Grade::Set => 0,
        Grade::Open => 0,
    }
}

/// The sum of the scores of at most ten hits.
fn scores_of(hits: &[Hit]) -> u64
    requires { length hits.now ≤ 10 }
    ensures is { result ≡ hit_scores hits.now }
    ensures small { result ≤ 10 * 2 ^ 32 }
{
    let mut sum = 0;
    for hit in hits {
        sum += u64::from(hit.score);
    }
    sum
}
