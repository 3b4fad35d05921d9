//! Laws of order, for items of any kind and any total order of them. Each function does nothing:
//! its contract is the law.

ghost use Rattle.std.specs.Prelude.{◌≡◌, List, map, IsPermutation, IsSorted};
ghost use Rattle.std.specs.List.Sorted.{IsStable};
ghost use Rattle.std.specs.declared.cmp.Ordering.{Ordering};
ghost use Rattle.std.specs.Cmp.{IsTotalOrder};
ghost use Rattle.std.specs.FinMap.{IsAntisymmetric};
ghost use Rattle.ranking_model.specs.Flat.{entry_cmp};
ghost use Rattle.ranking_model.specs.Order.{sorted};
ghost use Rattle.ranking_model.specs.Plan.{plan_cmp};
ghost use Rattle.ranking_model.specs.Scores.{rank_cmp};

/// Items stand in order in one way: two lists in order with the same items are equal, where only
/// equal items tie.
pub fn order_is_one<T>()
    ensures { (cmp : T → T → Ordering) (xs ys : List T) → IsTotalOrder cmp → IsAntisymmetric cmp →
        IsPermutation xs ys → IsSorted cmp xs → IsSorted cmp ys → xs ≡ ys }
{}

/// `sorted` gives the items of a list in order.
pub fn sorted_is_in_order<T>()
    ensures order { (cmp : T → T → Ordering) (xs : List T) → IsTotalOrder cmp → IsSorted cmp (sorted cmp xs) }
    ensures items { (cmp : T → T → Ordering) (xs : List T) → IsPermutation xs (sorted cmp xs) }
{}

/// Whatever a sort of std leaves is `sorted`: of a stable one always, and of any where only equal
/// items tie.
pub fn sorts_leave_sorted<T>()
    ensures stable { (cmp : T → T → Ordering) (xs ys : List T) → IsTotalOrder cmp →
        IsSorted cmp ys → IsStable cmp xs ys → ys ≡ sorted cmp xs }
    ensures unstable { (cmp : T → T → Ordering) (xs ys : List T) → IsTotalOrder cmp → IsAntisymmetric cmp →
        IsPermutation xs ys → IsSorted cmp ys → ys ≡ sorted cmp xs }
{}

/// A map that keeps the order can be taken before or after `sorted`.
pub fn sorted_goes_through_a_map<T, U>()
    ensures { (f : T → U) (cmp : T → T → Ordering) (mapped : U → U → Ordering) (xs : List T) →
        ((x y : T) → mapped (f x) (f y) ≡ cmp x y) → sorted mapped (map f xs) ≡ map f (sorted cmp xs) }
{}

/// The order of a flat list is total where that of its terms is, and only equal entries tie.
pub fn entries_have_a_total_order<T>()
    ensures total { (cmp : T → T → Ordering) → IsTotalOrder cmp → IsTotalOrder (entry_cmp cmp) }
    ensures differ { (cmp : T → T → Ordering) → IsAntisymmetric cmp → IsAntisymmetric (entry_cmp cmp) }
{}

/// The orders of a plan and of a ranking are total, and only equal hits tie.
pub fn plans_and_rankings_have_a_total_order()
    ensures plan { IsTotalOrder plan_cmp }
    ensures ranking { IsTotalOrder rank_cmp }
    ensures differ { IsAntisymmetric rank_cmp }
{}
