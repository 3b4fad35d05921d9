ghost use Rattle.std.specs.Prelude.{◌≡◌, ◌≤◌, length, take};
ghost use Rattle.jass_words.specs.declared.word_limits.TheConstants.{MOST_BUDGETS};

use crate::word_limits::MOST_BUDGETS;
use jass_base::Budget;

/// The budgets of a search, which are granted one after the other: the first `count` of the items.
#[derive(Clone, Copy)]
pub struct Grants {
    pub items: [Budget; MOST_BUDGETS],
    /// 1 to 16.
    pub count: usize,
    pub ghost few: { (1 ≤ count) × (count ≤ MOST_BUDGETS) },
}

impl Grants {
    pub fn as_slice(&self) -> &[Budget]
        ensures items { result.now ≡ take self.now.count self.now.items }
        ensures some { 1 ≤ length result.now }
        ensures few { length result.now ≤ MOST_BUDGETS }
    {
        &self.items[..self.count]
    }
}
