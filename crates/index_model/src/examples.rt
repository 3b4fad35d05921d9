//! The definitions run on the index of three documents and the term `a`, and on that of four
//! documents and the terms `cat` and `dog`, and unions on the first and another
//! (`specs/Examples.antt`): each clause is proved by computing both sides.

ghost use Rattle.std.specs.Prelude.{◌≡◌, [], ◌∷◌, codes};
ghost use Rattle.ranking_model.specs.Order.{sorted};
ghost use Rattle.ranking_model.specs.Plan.{plan_cmp};
ghost use Rattle.index_model.specs.Flat.{flat_of, numbered_flat};
ghost use Rattle.index_model.specs.Querying.{query_segments};
ghost use Rattle.index_model.specs.Unions.{union_of};
ghost use Rattle.index_model.specs.Examples.{
  both_as_one,
  flat_entry,
  more_terms,
  named,
  nothing,
  one_term,
  plan_segment,
  two_terms,
};

/// The entries of an index, by the terms' bytes and by their numbers.
pub fn flat_lists()
    ensures a { flat_of one_term ≡
        flat_entry (codes "a") 0 9 ∷ flat_entry (codes "a") 1 5 ∷ flat_entry (codes "a") 2 1 ∷ [] }
    ensures numbers { numbered_flat two_terms ≡
        flat_entry 0 0 3 ∷ flat_entry 0 1 1 ∷ flat_entry 0 3 1 ∷ flat_entry 1 2 3 ∷ flat_entry 1 1 2 ∷ [] }
{}

/// The segments of a query: of `cat` named twice and `dog` once, the other way round, and of no
/// term.
pub fn segments_of_queries()
    ensures cat_dog { query_segments two_terms (named 0 2 ∷ named 1 1 ∷ []) ≡
        plan_segment 0 6 (0 ∷ []) ∷ plan_segment 0 2 (1 ∷ 3 ∷ [])
        ∷ plan_segment 1 3 (2 ∷ []) ∷ plan_segment 1 2 (1 ∷ []) ∷ [] }
    ensures dog_cat { query_segments two_terms (named 1 1 ∷ named 0 1 ∷ []) ≡
        plan_segment 0 3 (2 ∷ []) ∷ plan_segment 0 2 (1 ∷ [])
        ∷ plan_segment 1 3 (0 ∷ []) ∷ plan_segment 1 1 (1 ∷ 3 ∷ []) ∷ [] }
    ensures none { query_segments two_terms [] ≡ [] }
    ensures plan { sorted plan_cmp (query_segments two_terms (named 0 2 ∷ named 1 1 ∷ [])) ≡
        plan_segment 0 6 (0 ∷ []) ∷ plan_segment 1 3 (2 ∷ [])
        ∷ plan_segment 1 2 (1 ∷ []) ∷ plan_segment 0 2 (1 ∷ 3 ∷ []) ∷ [] }
{}

/// The union of two parts, of no part, and of a part between two that have nothing.
#[tactic(auto, unfolding(crate::specs::Unions::union_of, crate::specs::Grouping::index_with))]
pub fn unions()
    ensures both { union_of (one_term ∷ more_terms ∷ []) ≡ both_as_one }
    ensures none { union_of [] ≡ nothing }
    ensures alone { union_of (nothing ∷ one_term ∷ nothing ∷ []) ≡ one_term }
{}
