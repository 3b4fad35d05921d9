//! The definitions run on small indexes (`specs/Examples.antt`): each clause is proved by computing
//! both sides. The reports beside these answers stand in the module `graded`.

#![tactic(auto, unfolding(crate::specs::Plan::plan_of))]

ghost use Rattle.std.specs.Prelude.{◌≡◌, ℕ, map, drop, ◌^◌, ◌-◌, [], ◌∷◌, codes};
ghost use Rattle.std.specs.Ordering.{nat_cmp};
ghost use Rattle.std.specs.Cmp.Lexicographic.{slice_cmp};
ghost use Rattle.ranking_model.specs.declared.entry.Entry.{Entry};
ghost use Rattle.ranking_model.specs.Flat.{IsFlat, numbered};
ghost use Rattle.ranking_model.specs.Plan.{size_of_first, prefix_within, granted_with, granted_sum, most};
ghost use Rattle.ranking_model.specs.Scores.{added, scores_after, top_k, runner_up, least_untouched};
ghost use Rattle.ranking_model.specs.Search.{prefixes_granted, query_run};
ghost use Rattle.ranking_model.specs.Examples.{hit, plan_segment, pets, falling, pet_names, cat_dog, dog_cat, cat_twice_dog, a_once, a_twice, close_a};
ghost use Rattle.ranking_model.specs.Examples.{p_q_lower, p_q_higher, p_q_swapping, nothing_known};

use jass_base::Budget;

/// The small indexes are in order, with terms of their own numbers.
pub fn the_small_indexes_are_flat()
    ensures pets { IsFlat (slice_cmp nat_cmp) 4 pets }
    ensures falling { IsFlat (slice_cmp nat_cmp) 3 falling }
    ensures numbers { map (λ (e : Entry ℕ). e.term) (numbered pets) ≡ 0 ∷ 0 ∷ 0 ∷ 1 ∷ 1 ∷ [] }
{}

/// The plan of `cat dog` and of `dog cat`: segments by falling weight; of equal weight and number
/// of postings, the one of the term that is named first.
pub fn plans_of_two_terms()
    ensures cat_dog { cat_dog.segments
        ≡ plan_segment 0 3 (0 ∷ []) ∷ plan_segment 1 3 (2 ∷ []) ∷ plan_segment 1 2 (1 ∷ [])
        ∷ plan_segment 0 1 (1 ∷ 3 ∷ []) ∷ [] }
    ensures dog_cat { dog_cat.segments
        ≡ plan_segment 0 3 (2 ∷ []) ∷ plan_segment 1 3 (0 ∷ []) ∷ plan_segment 0 2 (1 ∷ [])
        ∷ plan_segment 1 1 (1 ∷ 3 ∷ []) ∷ [] }
    ensures cat_twice { cat_twice_dog.segments
        ≡ plan_segment 0 6 (0 ∷ []) ∷ plan_segment 1 3 (2 ∷ [])
        ∷ plan_segment 1 2 (1 ∷ []) ∷ plan_segment 0 2 (1 ∷ 3 ∷ []) ∷ [] }
{}

/// `cat dog` with a budget for all postings.
pub fn everything_is_scored()
    ensures prefix { prefix_within most cat_dog.segments ≡ 4 }
    ensures scores { scores_after 4 cat_dog ≡ 3 ∷ 3 ∷ 3 ∷ 1 ∷ [] }
    ensures answer { top_k 4 cat_dog 4 ≡ hit 0 3 ∷ hit 1 3 ∷ hit 2 3 ∷ hit 3 1 ∷ [] }
{}

/// `cat dog` with 4 postings, of which the last segment would need 2: it is left whole.
pub fn a_segment_is_left_whole()
    ensures prefix { prefix_within 4 cat_dog.segments ≡ 3 }
    ensures scores { scores_after 3 cat_dog ≡ 3 ∷ 2 ∷ 3 ∷ 0 ∷ [] }
    ensures answer { top_k 3 cat_dog 4 ≡ hit 0 3 ∷ hit 2 3 ∷ hit 1 2 ∷ [] }
{}

/// `cat dog` with no postings.
pub fn nothing_is_scored()
    ensures prefix { prefix_within 0 cat_dog.segments ≡ 0 }
    ensures scores { scores_after 0 cat_dog ≡ 0 ∷ 0 ∷ 0 ∷ 0 ∷ [] }
    ensures answer { top_k 0 cat_dog 4 ≡ [] }
{}

/// `cat dog` with 2 postings and two hits; with all postings they are others.
pub fn two_postings()
    ensures prefix { prefix_within 2 cat_dog.segments ≡ 2 }
    ensures scores { scores_after 2 cat_dog ≡ 3 ∷ 0 ∷ 3 ∷ 0 ∷ [] }
    ensures answer { top_k 2 cat_dog 2 ≡ hit 0 3 ∷ hit 2 3 ∷ [] }
    ensures exhaustive { top_k 4 cat_dog 2 ≡ hit 0 3 ∷ hit 1 3 ∷ [] }
{}

/// `a` with 1, with 2 and with all postings.
pub fn one_term()
    ensures first { prefix_within 1 a_once.segments ≡ 1 }
    ensures first_scores { scores_after 1 a_once ≡ 9 ∷ 0 ∷ 0 ∷ [] }
    ensures first_answer { top_k 1 a_once 1 ≡ hit 0 9 ∷ [] }
    ensures second { prefix_within 2 a_once.segments ≡ 2 }
    ensures second_scores { scores_after 2 a_once ≡ 9 ∷ 5 ∷ 0 ∷ [] }
    ensures second_answer { top_k 2 a_once 3 ≡ hit 0 9 ∷ hit 1 5 ∷ [] }
    ensures second_answer_of_two { top_k 2 a_once 2 ≡ hit 0 9 ∷ hit 1 5 ∷ [] }
    ensures all { prefix_within most a_once.segments ≡ 3 }
    ensures all_scores { scores_after 3 a_once ≡ 9 ∷ 5 ∷ 1 ∷ [] }
    ensures all_answer { top_k 3 a_once 3 ≡ hit 0 9 ∷ hit 1 5 ∷ hit 2 1 ∷ [] }
{}

/// `p q`, where the documents tie and the lower number is scored first, or the higher.
pub fn documents_that_tie()
    ensures lower { prefix_within 1 p_q_lower.segments ≡ 1 }
    ensures lower_scores { scores_after 1 p_q_lower ≡ 3 ∷ 0 ∷ [] }
    ensures lower_answer { top_k 1 p_q_lower 1 ≡ hit 0 3 ∷ [] }
    ensures higher { prefix_within 1 p_q_higher.segments ≡ 1 }
    ensures higher_scores { scores_after 1 p_q_higher ≡ 0 ∷ 3 ∷ [] }
    ensures higher_answer { top_k 1 p_q_higher 1 ≡ hit 1 3 ∷ [] }
    ensures exhaustive { top_k 2 p_q_higher 1 ≡ hit 0 3 ∷ [] }
{}

/// `a a`, and `cat^2 dog`: a term weighs as often as it is named.
pub fn terms_named_twice()
    ensures twice_all { prefix_within most a_twice.segments ≡ 3 }
    ensures twice_scores { scores_after 3 a_twice ≡ 18 ∷ 10 ∷ 2 ∷ [] }
    ensures twice { top_k 3 a_twice 4 ≡ hit 0 18 ∷ hit 1 10 ∷ hit 2 2 ∷ [] }
    ensures one_twice_all { prefix_within most cat_twice_dog.segments ≡ 4 }
    ensures one_twice_scores { scores_after 4 cat_twice_dog ≡ 6 ∷ 4 ∷ 3 ∷ 2 ∷ [] }
    ensures one_twice { top_k 4 cat_twice_dog 4 ≡ hit 0 6 ∷ hit 1 4 ∷ hit 2 3 ∷ hit 3 2 ∷ [] }
{}

/// A query that names no known term.
pub fn no_term_is_known()
    ensures plan { nothing_known.segments ≡ [] }
    ensures prefix { prefix_within most nothing_known.segments ≡ 0 }
    ensures scores { scores_after 0 nothing_known ≡ 0 ∷ 0 ∷ 0 ∷ 0 ∷ [] }
    ensures answer { top_k 0 nothing_known 4 ≡ [] }
{}

/// `p q`, where the two documents can only change places.
pub fn documents_that_swap()
    ensures prefix { prefix_within 2 p_q_swapping.segments ≡ 2 }
    ensures scores { scores_after 2 p_q_swapping ≡ 2 ∷ 3 ∷ [] }
    ensures answer { top_k 2 p_q_swapping 2 ≡ hit 1 3 ∷ hit 0 2 ∷ [] }
    ensures all_scores { scores_after 3 p_q_swapping ≡ 3 ∷ 3 ∷ [] }
    ensures exhaustive { top_k 3 p_q_swapping 2 ≡ hit 0 3 ∷ hit 1 3 ∷ [] }
{}

/// Three close documents: what comes next to the first hit.
pub fn close_documents()
    ensures first { scores_after 1 close_a ≡ 9 ∷ 0 ∷ 0 ∷ [] }
    ensures first_answer { top_k 1 close_a 1 ≡ hit 0 9 ∷ [] }
    ensures first_runner_up { runner_up (scores_after 1 close_a) 1 ≡ None }
    ensures first_untouched { least_untouched (scores_after 1 close_a) ≡ Some 1 }
    ensures second { scores_after 2 close_a ≡ 9 ∷ 8 ∷ 0 ∷ [] }
    ensures second_answer { top_k 2 close_a 1 ≡ hit 0 9 ∷ [] }
    ensures second_runner_up { runner_up (scores_after 2 close_a) 1 ≡ Some (hit 1 8) }
    ensures second_untouched { least_untouched (scores_after 2 close_a) ≡ Some 2 }
{}

/// Grants add up, and stop at the greatest number that 64 bits hold.
pub fn grants_add_up()
    ensures two { granted_sum (Budget.Postings 1 ∷ Budget.Postings 2 ∷ []) ≡ 3 }
    ensures all { granted_sum (Budget.All ∷ Budget.Postings 1 ∷ []) ≡ 2 ^ 64 - 1 }
    ensures stops { let greatest = Budget.Postings 18446744073709551615 in
        granted_sum (greatest ∷ greatest ∷ []) ≡ 2 ^ 64 - 1 }
{}

/// One grant more, and one after which nothing is left to grant.
pub fn one_grant_more()
    ensures two { granted_with 3 (Budget.Postings 2) ≡ 5 }
    ensures all { granted_with 3 Budget.All ≡ 2 ^ 64 - 1 }
    ensures stops { granted_with (2 ^ 64 - 1) (Budget.Postings 1) ≡ 2 ^ 64 - 1 }
{}

/// `cat dog` with 2 postings and then 3 more: the segments that are left, and the scores of the last.
pub fn a_search_is_resumed()
    ensures first { size_of_first 2 cat_dog.segments ≡ 2 }
    ensures more { prefix_within 3 (drop 2 cat_dog.segments) ≡ 2 }
    ensures last { added 1 (1 ∷ 3 ∷ []) (scores_after 3 cat_dog) ≡ 3 ∷ 3 ∷ 3 ∷ 1 ∷ [] }
{}

/// The run of `cat dog` with two hits, at a budget of 2 postings and then of all: an answer for
/// each, as the parts 1 and 2 of the run. A single budget makes no parts.
pub fn a_run_of_two_budgets()
    ensures prefixes { prefixes_granted (Budget.Postings 2 ∷ Budget.All ∷ []) cat_dog ≡ 2 ∷ 4 ∷ [] }
    ensures two { query_run pet_names cat_dog (codes "301") 2 (2 ∷ 4 ∷ []) (codes "jass")
        ≡ codes "301 Q0 d0 1 3 jass.1\n301 Q0 d2 2 3 jass.1\n301 Q0 d0 1 3 jass.2\n301 Q0 d1 2 3 jass.2\n" }
    ensures one { query_run pet_names cat_dog (codes "301") 2 (4 ∷ []) (codes "jass")
        ≡ codes "301 Q0 d0 1 3 jass\n301 Q0 d1 2 3 jass\n" }
{}
