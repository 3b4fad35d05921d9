//! The definitions run on small indexes (`specs/Examples.antt`): each clause is proved by computing
//! both sides.

#![tactic(auto, unfolding(ranking_model::specs::Plan::plan_of, final_certificate::specs::Rule::grade_by, crate::specs::Rule::settles))]

ghost use Rattle.std.specs.Prelude.{◌≡◌, true, false, [], ◌∷◌};
ghost use Rattle.ranking_model.specs.Plan.{most, prefix_within};
ghost use Rattle.ranking_model.specs.Scores.{scores_after, top_k};
ghost use Rattle.ranking_model.specs.Report.{report_of};
ghost use Rattle.ranking_model.specs.Examples.{hit, plan_segment, report};
ghost use Rattle.final_certificate.specs.Rule.{report_by};
ghost use Rattle.sharp_bounds.specs.Unseen.{unseen_bounds};
ghost use Rattle.sharp_bounds.specs.Rule.{is_sharp, stop_at, sharp_grade};
ghost use Rattle.sharp_bounds.specs.Examples.{p_q, one_term};

use jass_base::Grade;

/// `p q` has four segments. After two of them the best document has nothing left to gain and the
/// others can't reach it.
pub fn two_segments_are_enough()
    ensures plan { p_q.segments ≡ plan_segment 1 5 (0 ∷ 1 ∷ []) ∷ plan_segment 0 4 (1 ∷ [])
        ∷ plan_segment 0 3 (0 ∷ []) ∷ plan_segment 1 1 (2 ∷ []) ∷ [] }
    ensures scores { scores_after 2 p_q ≡ 5 ∷ 9 ∷ 0 ∷ [] }
    ensures unseen { unseen_bounds 2 p_q ≡ 3 ∷ 0 ∷ 4 ∷ [] }
    ensures open { is_sharp 1 p_q 1 ≡ false }
    ensures sharp { is_sharp 2 p_q 1 ≡ true }
    ensures stop { stop_at most p_q 1 ≡ 2 }
    ensures answer { top_k 2 p_q 1 ≡ hit 1 9 ∷ [] }
    ensures report { report_of 2 p_q (sharp_grade 2 p_q 1) ≡ report 3 2 4 4 3 4 Grade.Final }
{}

/// One bound for all documents leaves the same answer open.
pub fn the_bound_leaves_it_open()
    ensures report { report_by 2 p_q 1 ≡ report 3 2 4 4 3 4 Grade.Open }
{}

/// With a budget that ends before, the prefix is that of the budget, and the answer is open.
pub fn a_budget_ends_before()
    ensures stop { stop_at 2 p_q 1 ≡ 1 }
    ensures report { report_of 1 p_q (sharp_grade 1 p_q 1) ≡ report 2 1 4 5 4 5 Grade.Open }
{}

/// Of one term, each document has one posting: as soon as there are k hits, no order changes.
pub fn one_term_ends_with_the_hits()
    ensures none { is_sharp 0 one_term 1 ≡ false }
    ensures one { stop_at most one_term 1 ≡ 1 }
    ensures two { stop_at most one_term 2 ≡ 2 }
    ensures all { stop_at most one_term 4 ≡ 3 }
{}
