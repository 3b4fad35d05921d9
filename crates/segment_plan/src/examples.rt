//! The definitions run on the segments of `cat` in documents 0, 1 and 3, and of `dog` in documents
//! 1 and 2: each clause is proved by computing both sides.

ghost use Rattle.std.specs.Prelude.{◌≡◌, List, [], ◌∷◌, length, drop, map};
ghost use Rattle.jass_base.specs.declared.query_term.QueryTerm.{QueryTerm};
ghost use Rattle.segment_plan.specs.Entries.{AreHeads, postings_of, entries_within, rest_bound};
ghost use Rattle.segment_plan.specs.Examples.{plan_entry, cat_dog_heads, cat_dog, dog_cat, cat_twice_dog};

/// The segments of `cat dog` are those of a query of two terms.
pub fn segments_of_cat_dog()
    ensures { (terms : List QueryTerm) → length terms ≡ 2 → AreHeads terms cat_dog_heads }
{}

/// Plans of `cat dog`, of `dog cat`, and of `cat` named twice with `dog`: equal weights stand by
/// the number of postings before the place.
pub fn plans_of_queries()
    ensures cat_dog { cat_dog.entries ≡
        plan_entry 0 0 3 1 ∷ plan_entry 1 0 3 1 ∷ plan_entry 1 1 2 1 ∷ plan_entry 0 1 1 2 ∷ [] }
    ensures dog_cat { dog_cat.entries ≡
        plan_entry 0 0 3 1 ∷ plan_entry 1 0 3 1 ∷ plan_entry 0 1 2 1 ∷ plan_entry 1 1 1 2 ∷ [] }
    ensures cat_twice_dog { cat_twice_dog.entries ≡
        plan_entry 0 0 6 1 ∷ plan_entry 1 0 3 1 ∷ plan_entry 1 1 2 1 ∷ plan_entry 0 1 2 2 ∷ [] }
{}

/// What `cat dog` has, what budgets pay for, and the bounds.
pub fn numbers_of_cat_dog()
    ensures postings { postings_of cat_dog.entries ≡ 5 }
    ensures budgets { map (λ budget. entries_within budget cat_dog.entries) (0 ∷ 1 ∷ 3 ∷ 4 ∷ 5 ∷ 9 ∷ []) ≡
        0 ∷ 1 ∷ 3 ∷ 3 ∷ 4 ∷ 4 ∷ [] }
    ensures resumed { map (λ left. entries_within left (drop 2 cat_dog.entries)) (0 ∷ 1 ∷ 2 ∷ 3 ∷ []) ≡
        0 ∷ 1 ∷ 1 ∷ 2 ∷ [] }
    ensures bounds { map (λ n. rest_bound n cat_dog) (0 ∷ 1 ∷ 2 ∷ 3 ∷ 4 ∷ []) ≡ 6 ∷ 4 ∷ 3 ∷ 1 ∷ 0 ∷ [] }
    ensures swapped { map (λ n. rest_bound n dog_cat) (0 ∷ 1 ∷ 2 ∷ 3 ∷ 4 ∷ []) ≡ 6 ∷ 5 ∷ 3 ∷ 1 ∷ 0 ∷ [] }
{}
