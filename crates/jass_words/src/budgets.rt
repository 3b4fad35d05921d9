ghost use Rattle.std.specs.Prelude.{◌≡◌, ◌≤◌, ◌++◌, ◌∷◌, [], IfSome, None, length};
ghost use Rattle.jass_base.specs.declared.answer.Budget.TheVariants.{All};
ghost use Rattle.jass_words.specs.Grants.{granted};
ghost use Rattle.jass_words.specs.declared.word_limits.TheConstants.{MOST_BUDGETS};

use crate::grants::Grants;
use crate::word_limits::MOST_BUDGETS;
use jass_base::Budget;
use std::marker::Model;

/// At most 16 budgets, in order. Contracts see their list.
#[derive(Clone, Copy)]
pub struct Budgets {
    items: [Budget; MOST_BUDGETS],
    count: usize,
}

impl Model for Budgets {
    ghost use Rattle.std.specs.Prelude.{◌≡◌, ◌≤◌, ◌++◌, ◌-◌, List, length, take, drop, replicate};
    ghost use Rattle.std.proofs.Common.{arith, sym, ap, ◌∙◌, take-append-drop, length-take-le};
    ghost use Rattle.jass_base.specs.declared.answer.Budget.{Budget};
    ghost use Rattle.jass_base.specs.declared.answer.Budget.TheVariants.{All};
    ghost use Rattle.jass_words.specs.declared.word_limits.TheConstants.{MOST_BUDGETS};

    ghost Value = { List Budget };

    ghost view = { λ b. take b.count b.items };

    // Budgets that are no part of the list are `all`, so that the list gives the fields back.
    ghost invariant = { λ b. (b.count ≤ MOST_BUDGETS) × (length b.items ≡ MOST_BUDGETS)
        × (drop b.count b.items ≡ replicate (MOST_BUDGETS - b.count) All) };

    ghost inverse = { λ v. record { items = v ++ replicate (MOST_BUDGETS - length v) All; count = length v } };

    ghost inverse_ok = { λ b h. (let size = length-take-le b.count b.items (omega (arith, h.0, h.1)) in (λ i. record {
      items = (ap (λ n. take b.count b.items ++ replicate (MOST_BUDGETS - n) All) size
          ∙ ap (λ rest. take b.count b.items ++ rest) (sym h.2) ∙ take-append-drop b.count b.items) i;
      count = size i;
    })) };
}

impl Budgets {
    /// No budget.
    pub fn none() -> Budgets
        ensures { result ≡ [] }
    {
        Budgets {
            items: [Budget::All; MOST_BUDGETS],
            count: 0,
        }
    }

    /// The budget of all postings alone.
    pub fn all() -> Budgets
        ensures { result ≡ All ∷ [] }
    {
        Budgets {
            items: [Budget::All; MOST_BUDGETS],
            count: 1,
        }
    }

    /// These budgets and one more; `None` where there are 16.
    pub fn with(self, budget: Budget) -> Option<Budgets>
        ensures some { IfSome result (λ more. more ≡ self ++ budget ∷ []) }
        ensures few { IfSome result (λ more. length more ≤ MOST_BUDGETS) }
        ensures none { result ≡ None → MOST_BUDGETS ≤ length self }
    {
        if self.count == MOST_BUDGETS {
            return None;
        }
        let mut items = self.items;
        items[self.count] = budget;
        Some(Budgets {
            items,
            count: self.count + 1,
        })
    }

    /// These budgets as they are granted.
    pub fn grants(self) -> Grants
        requires { 1 ≤ length self }
        ensures { granted result ≡ self }
    {
        let items = self.items;
        Grants {
            items,
            count: self.count,
        }
    }
}
