//! The rule run on small lists and plans: each clause is proved by computing both sides.

#![tactic(auto, unfolding(ranking_model::specs::Plan::plan_of))]

ghost use Rattle.std.specs.Prelude.{◌≡◌, Some, None, [], ◌∷◌};
ghost use Rattle.ranking_model.specs.Examples.{hit};
ghost use Rattle.sharp_bounds.specs.Examples.{p_q};
ghost use Rattle.certain_hits.specs.Rule.{certain_after, certain_count, rival};

/// What a hit may gain itself doesn't put it out: the first of two reaches 9, and so does the other.
pub fn the_best_reach_is_no_rival_of_its_own()
    ensures rival { rival 1 (4 ∷ 0 ∷ []) (5 ∷ 3 ∷ []) ≡ Some (hit 1 3) }
    ensures count { certain_count 1 (4 ∷ 0 ∷ []) (5 ∷ 3 ∷ []) ≡ 1 }
{}

/// A document without a score can enter: of two hits one is certain.
pub fn a_document_without_a_score_can_enter()
    ensures none { certain_count 1 (0 ∷ 4 ∷ 0 ∷ []) (3 ∷ 0 ∷ 2 ∷ []) ≡ 0 }
    ensures one { certain_count 2 (0 ∷ 4 ∷ 0 ∷ []) (3 ∷ 0 ∷ 2 ∷ []) ≡ 1 }
{}

/// Of equal numbers the lesser document comes first.
pub fn documents_decide_a_tie()
    ensures ahead { certain_count 1 (0 ∷ 2 ∷ []) (5 ∷ 3 ∷ []) ≡ 1 }
    ensures behind { certain_count 1 (2 ∷ 0 ∷ []) (3 ∷ 5 ∷ []) ≡ 0 }
{}

/// Where no more than k documents can reach anything, all hits are certain.
pub fn few_documents_are_certain()
    ensures rival { rival 3 (1 ∷ 0 ∷ 4 ∷ []) (5 ∷ 0 ∷ 0 ∷ []) ≡ None }
    ensures count { certain_count 3 (1 ∷ 0 ∷ 4 ∷ []) (5 ∷ 0 ∷ 0 ∷ []) ≡ 1 }
    ensures fewer { certain_count 1 (1 ∷ 0 ∷ 6 ∷ []) (5 ∷ 0 ∷ 0 ∷ []) ≡ 0 }
{}

/// `p q` after its prefixes: nothing is certain at first, then both of two hits by their numbers, and at last all.
pub fn certain_documents_grow_more()
    ensures start { certain_after 0 p_q 2 ≡ 0 }
    ensures first { certain_after 1 p_q 1 ≡ 0 }
    ensures both { certain_after 1 p_q 2 ≡ 2 }
    ensures best { certain_after 2 p_q 1 ≡ 1 }
    ensures all { certain_after 4 p_q 3 ≡ 3 }
{}
