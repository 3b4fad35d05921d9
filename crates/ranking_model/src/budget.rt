ghost use Rattle.std.specs.Prelude.{◌≡◌};
ghost use Rattle.ranking_model.specs.Plan.{amount_of, granted_with, granted_sum};

use jass_base::Budget;

/// The budgets granted so far as one number of postings. It stops at 2^64 - 1, which is also
/// what a budget for all postings counts as.
pub fn granted_sum(budgets: &[Budget]) -> u64
    ensures { result ≡ granted_sum budgets.now }
{
    let mut sum: u64 = 0;
    for budget in budgets {
        sum = granted_with(sum, *budget);
    }
    sum
}

/// What one more budget makes of what was granted before it, as one number of postings. It stops at
/// 2^64 - 1.
pub fn granted_with(granted: u64, budget: Budget) -> u64
    ensures { result ≡ granted_with granted budget }
{
    granted.saturating_add(amount_of(budget))
}

fn amount_of(budget: Budget) -> u64
    ensures { result ≡ amount_of budget }
{
    match budget {
        Budget::Postings(count) => count,
        Budget::All => u64::MAX,
    }
}
