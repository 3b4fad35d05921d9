//! The reports of the small indexes with their grades: where the answer stands, for all gains, and
//! where it doesn't, by gains that change it.

#![tactic(auto, unfolding(crate::specs::Plan::plan_of))]

ghost use Rattle.std.specs.Prelude.{[], ◌∷◌};
ghost use Rattle.ranking_model.specs.Finality.{IsGrade, IsGradeWithin};
ghost use Rattle.ranking_model.specs.Report.{IsReport};
ghost use Rattle.ranking_model.specs.Search.{AreReports};
ghost use Rattle.ranking_model.specs.Examples.{report, cat_dog, a_once, a_twice, cat_twice_dog, close_a};
ghost use Rattle.ranking_model.specs.Examples.{p_q_lower, p_q_higher, p_q_swapping, nothing_known};

use jass_base::{Budget, Grade};

/// Where all is scored, nothing can be gained.
pub fn exhaustive_answers_are_final()
    ensures cat_dog { IsReport 4 cat_dog 4 (report 5 4 4 1 0 0 Grade.Final) }
    ensures a { IsReport 3 a_once 3 (report 3 3 3 1 0 0 Grade.Final) }
    ensures a_twice { IsReport 3 a_twice 4 (report 3 3 3 2 0 0 Grade.Final) }
    ensures cat_twice_dog { IsReport 4 cat_twice_dog 4 (report 5 4 4 2 0 0 Grade.Final) }
    ensures p_q { IsReport 3 p_q_swapping 2 (report 3 3 3 1 0 0 Grade.Final) }
    ensures nothing { IsReport 0 nothing_known 4 (report 0 0 0 0 0 0 Grade.Final) }
{}

/// The last segment of `cat dog` can bring a fourth document.
pub fn a_document_may_come()
    ensures { IsReport 3 cat_dog 4 (report 3 3 4 2 1 1 Grade.Open) }
{}

/// Nothing is scored, and each document may come.
pub fn each_document_may_come()
    ensures { IsReport 0 cat_dog 4 (report 0 0 4 0 3 6 Grade.Open) }
{}

/// A third document can reach the score of the two hits, and comes before one of them.
pub fn a_document_may_pass()
    ensures { IsReport 2 cat_dog 2 (report 2 2 4 3 2 3 Grade.Open) }
{}

/// The first document is too far ahead to be reached.
pub fn one_document_is_ahead()
    ensures { IsReport 1 a_once 1 (report 1 1 3 9 5 5 Grade.Final) }
{}

/// With two hits the answer stands; with three the third document may come.
pub fn two_documents_are_ahead()
    ensures two { IsReport 2 a_once 2 (report 2 2 3 5 1 1 Grade.Final) }
    ensures three { IsReport 2 a_once 3 (report 2 2 3 5 1 1 Grade.Open) }
{}

/// A tie goes to the lower document, so it decides whether the hit can be passed.
pub fn a_tie_may_come()
    ensures lower { IsReport 1 p_q_lower 1 (report 1 1 2 3 3 3 Grade.Final) }
    ensures higher { IsReport 1 p_q_higher 1 (report 1 1 2 3 3 3 Grade.Open) }
{}

/// Two documents of two can only change places.
pub fn two_documents_may_swap()
    ensures { IsReport 2 p_q_swapping 2 (report 2 2 3 2 1 1 Grade.Set) }
{}

/// A final answer can be open again after more segments, though it stays the same.
pub fn a_final_answer_opens_again()
    ensures first { IsReport 1 close_a 1 (report 1 1 3 9 8 8 Grade.Final) }
    ensures second { IsReport 2 close_a 1 (report 2 2 3 8 7 7 Grade.Open) }
{}

/// Where the first two documents have had their posting of the only term, they gain nothing more:
/// the bound leaves the answer open, and a limit for each document settles it.
pub fn limits_settle_more_than_a_bound()
    ensures bound { IsGrade (9 ∷ 8 ∷ 0 ∷ []) 1 7 Grade.Open }
    ensures limits { IsGradeWithin (9 ∷ 8 ∷ 0 ∷ []) 1 (0 ∷ 0 ∷ 7 ∷ []) Grade.Final }
{}

/// The reports of `cat dog` with two hits, at a budget of 2 postings and then of all.
pub fn reports_of_two_budgets()
    ensures { AreReports cat_dog 2 (Budget.Postings 2 ∷ Budget.All ∷ [])
        (report 2 2 4 3 2 3 Grade.Open ∷ report 5 4 4 1 0 0 Grade.Final ∷ []) }
{}
