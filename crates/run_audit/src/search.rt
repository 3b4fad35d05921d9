ghost use Rattle.std.specs.Prelude.{◌≤◌, length};
ghost use Rattle.jass_base.specs.declared.limits.TheConstants.{MOST_HITS};
ghost use Rattle.run_audit.specs.declared.search.TheConstants.{MOST_BUDGETS};

use jass_base::Budget;

/// The most grants of a search.
pub const MOST_BUDGETS: usize = 16;

/// What a search asks of each query.
#[derive(Clone, Copy)]
pub struct Search<'a> {
    /// The most hits of an answer, 1 to 100,000.
    pub k: u32,
    /// 1 to 16 grants, each of which has an answer.
    pub budgets: &'a [Budget],
    /// The last column of the run lines. With more than one grant a point and the grant's number follow it.
    pub tag: &'a str,
    pub ghost some: { 1 ≤ k },
    pub ghost few: { k ≤ MOST_HITS },
    pub ghost granted: { 1 ≤ length budgets.now },
    pub ghost few_grants: { length budgets.now ≤ MOST_BUDGETS },
}
