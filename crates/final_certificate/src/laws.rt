//! What the grades promise, over the definitions. Each function does nothing of its own: its
//! contract is the law, and a caller learns it by the call.

ghost use Rattle.std.specs.Prelude.{◌≡◌, ℕ, ◌≤◌, List, length, replicate, IsPermutation};
ghost use Rattle.std.specs.List.{AllByRecursion};
ghost use Rattle.std.specs.Ordering.{nat_cmp};
ghost use Rattle.jass_base.specs.declared.answer.Report.{Report};
ghost use Rattle.jass_base.specs.declared.query_term.QueryTerm.{QueryTerm};
ghost use Rattle.ranking_model.specs.declared.entry.Entry.{Entry};
ghost use Rattle.ranking_model.specs.declared.plan.QueryPlan.{QueryPlan};
ghost use Rattle.final_certificate.specs.Rule.{grade_by, report_by};
ghost use Rattle.ranking_model.specs.Flat.{IsFlat};
ghost use Rattle.ranking_model.specs.Plan.{plan_of};
ghost use Rattle.ranking_model.specs.Scores.{scores_after, standing_of};
ghost use Rattle.ranking_model.specs.Report.{IsReport};
ghost use Rattle.ranking_model.specs.Finality.{first_documents, IsFinal, IsSet, IsGrade};
ghost use Rattle.ranking_model.specs.Finality.{AreGains, AreGainsWithin, IsSettled, IsSettledWithin, IsKept, IsKeptWithin};

use ranking_model::laws::{the_grade_is_one, the_rest_gains_at_most_the_bound};

/// A final answer has the same documents in the same order after any more segments, so at the end.
pub fn a_final_answer_stands()
    ensures { (docs n m k : ℕ) (flat : List (Entry ℕ)) (terms : List QueryTerm) →
        IsFlat nat_cmp docs flat → n ≤ m →
        let plan = plan_of docs flat terms in
        IsFinal n plan k → first_documents (scores_after m plan) k ≡ first_documents (scores_after n plan) k }
{
    the_rest_gains_at_most_the_bound();
}

/// A set answer has the same documents after any more segments, so at the end, in some order.
pub fn a_set_answer_keeps_its_documents()
    ensures { (docs n m k : ℕ) (flat : List (Entry ℕ)) (terms : List QueryTerm) →
        IsFlat nat_cmp docs flat → n ≤ m →
        let plan = plan_of docs flat terms in
        IsSet n plan k →
        IsPermutation (first_documents (scores_after n plan) k) (first_documents (scores_after m plan) k) }
{
    the_rest_gains_at_most_the_bound();
}

/// Gains up to a bound are gains with that limit for each document, and what is settled or kept by
/// a bound is so by limits up to it.
pub fn a_bound_is_a_limit_for_each()
    ensures gains { (scores gains : List ℕ) (bound : ℕ) →
        AreGains bound scores gains → AreGainsWithin (replicate (length scores) bound) scores gains }
    ensures limits { (scores gains : List ℕ) (bound : ℕ) →
        AreGainsWithin (replicate (length scores) bound) scores gains → AreGains bound scores gains }
    ensures settled { (scores limits : List ℕ) (k bound : ℕ) →
        AllByRecursion (λ limit. limit ≤ bound) limits → IsSettled scores k bound → IsSettledWithin scores k limits }
    ensures kept { (scores limits : List ℕ) (k bound : ℕ) →
        AllByRecursion (λ limit. limit ≤ bound) limits → IsKept scores k bound → IsKeptWithin scores k limits }
{}

/// Where all segments are scored, the answer is final.
pub fn everything_scored_is_final()
    ensures { (n k : ℕ) (plan : QueryPlan) → length plan.segments ≤ n → IsFinal n plan k }
{}

/// The rule gives each standing its grade.
pub fn the_rule_gives_the_grade()
    ensures { (scores : List ℕ) (k bound : ℕ) → IsGrade scores k bound (grade_by k bound (standing_of scores k)) }
{}

/// A prefix of a plan has one report, which the rule gives.
pub fn a_prefix_has_one_report()
    ensures report { (n k : ℕ) (plan : QueryPlan) → IsReport n plan k (report_by n plan k) }
    ensures one { (n k : ℕ) (plan : QueryPlan) (report : Report) →
        IsReport n plan k report → report ≡ report_by n plan k }
{
    the_grade_is_one();
}
