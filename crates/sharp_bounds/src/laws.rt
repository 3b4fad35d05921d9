//! What sharply final answers promise, over the definitions, and that the rule decides which they
//! are. Each function does nothing of its own: its contract is the law, and a caller learns it by
//! the call.

ghost use Rattle.std.specs.Prelude.{◌≡◌, ℕ, ◌≤◌, true, false, List, length};
ghost use Rattle.std.specs.List.{AllZip};
ghost use Rattle.std.specs.Ordering.{nat_cmp};
ghost use Rattle.jass_base.specs.declared.answer.Grade.{Grade};
ghost use Rattle.jass_base.specs.declared.query_term.QueryTerm.{QueryTerm};
ghost use Rattle.ranking_model.specs.declared.entry.Entry.{Entry};
ghost use Rattle.ranking_model.specs.declared.plan.QueryPlan.{QueryPlan};
ghost use Rattle.ranking_model.specs.Flat.{IsFlat};
ghost use Rattle.ranking_model.specs.Postings.{AreTerms};
ghost use Rattle.ranking_model.specs.Plan.{plan_of};
ghost use Rattle.ranking_model.specs.Scores.{scores_after, bound_after};
ghost use Rattle.ranking_model.specs.Finality.{AreGainsWithin, GainsBy, raised, first_documents};
ghost use Rattle.ranking_model.specs.Finality.{IsFinal, IsSettledWithin};
ghost use Rattle.sharp_bounds.specs.Unseen.{unseen_bounds};
ghost use Rattle.sharp_bounds.specs.Sharpness.{IsSharpFinal, IsChangedWithin, IsStop, IsSharpGrade};
ghost use Rattle.sharp_bounds.specs.Rule.{AreLimits, settles, is_sharp, stop_at, sharp_grade};

/// What settles an answer for the same gains of all documents settles it for gains within what each
/// is unseen in.
pub fn a_final_answer_is_sharply_final()
    ensures { (n k : ℕ) (plan : QueryPlan) → IsFinal n plan k → IsSharpFinal n plan k }
{}

/// Later scores are earlier ones with gains within what each document was unseen in, and what each
/// may still reach never rises.
pub fn later_scores_are_within_reach()
    ensures gains { (docs n m : ℕ) (flat : List (Entry ℕ)) (terms : List QueryTerm) →
        IsFlat nat_cmp docs flat → n ≤ m →
        let plan = plan_of docs flat terms in
        GainsBy (AreGainsWithin (unseen_bounds n plan) (scores_after n plan))
        (scores_after n plan) (scores_after m plan) }
    ensures reach { (docs n m : ℕ) (flat : List (Entry ℕ)) (terms : List QueryTerm) →
        IsFlat nat_cmp docs flat → n ≤ m →
        let plan = plan_of docs flat terms in
        AllZip (λ later earlier. later ≤ earlier) (raised (scores_after m plan) (unseen_bounds m plan))
        (raised (scores_after n plan) (unseen_bounds n plan)) }
{}

/// What is settled between some scores and what limits let them reach is settled in every narrower
/// interval.
pub fn a_narrower_interval_is_settled()
    ensures { (scores limits later left : List ℕ) (k : ℕ) → length limits ≡ length scores →
        AllZip (λ low high. low ≤ high) scores later →
        AllZip (λ low high. low ≤ high) (raised later left) (raised scores limits) →
        IsSettledWithin scores k limits → IsSettledWithin later k left }
{}

/// A sharply final answer has the same documents in the same order after any more segments, so at
/// the end, and it stays sharply final.
pub fn a_sharply_final_answer_stands()
    ensures answer { (docs n m k : ℕ) (flat : List (Entry ℕ)) (terms : List QueryTerm) →
        IsFlat nat_cmp docs flat → n ≤ m →
        let plan = plan_of docs flat terms in
        IsSharpFinal n plan k → first_documents (scores_after m plan) k ≡ first_documents (scores_after n plan) k }
    ensures sharpness { (docs n m k : ℕ) (flat : List (Entry ℕ)) (terms : List QueryTerm) →
        IsFlat nat_cmp docs flat → n ≤ m →
        let plan = plan_of docs flat terms in
        IsSharpFinal n plan k → IsSharpFinal m plan k }
{}

/// The rule decides what limits settle: where it fails, some gains within them change the answer.
pub fn the_rule_decides_what_is_settled()
    ensures settled { (scores limits : List ℕ) (k bound : ℕ) → AreLimits bound scores limits →
        settles k bound limits scores ≡ true → IsSettledWithin scores k limits }
    ensures changed { (scores limits : List ℕ) (k bound : ℕ) → AreLimits bound scores limits →
        settles k bound limits scores ≡ false → IsChangedWithin scores k limits }
{}

/// What each document is unseen in are limits of its gains, so the rule decides which answers of a
/// query are sharply final.
pub fn the_rule_decides_which_are_sharply_final()
    ensures limits { (docs n : ℕ) (flat : List (Entry ℕ)) (terms : List QueryTerm) →
        IsFlat nat_cmp docs flat → AreTerms terms →
        let plan = plan_of docs flat terms in
        AreLimits (bound_after n plan) (scores_after n plan) (unseen_bounds n plan) }
    ensures sharp { (docs n k : ℕ) (flat : List (Entry ℕ)) (terms : List QueryTerm) →
        IsFlat nat_cmp docs flat → AreTerms terms →
        let plan = plan_of docs flat terms in
        is_sharp n plan k ≡ true → IsSharpFinal n plan k }
    ensures changed { (docs n k : ℕ) (flat : List (Entry ℕ)) (terms : List QueryTerm) →
        IsFlat nat_cmp docs flat → AreTerms terms →
        let plan = plan_of docs flat terms in
        is_sharp n plan k ≡ false → IsChangedWithin (scores_after n plan) k (unseen_bounds n plan) }
{}

/// There is one prefix at which to stop, which the rule finds, and one grade of its answer, which
/// the rule gives.
pub fn the_rule_says_where_to_stop()
    ensures stop { (docs budget k : ℕ) (flat : List (Entry ℕ)) (terms : List QueryTerm) →
        IsFlat nat_cmp docs flat → AreTerms terms →
        let plan = plan_of docs flat terms in
        IsStop budget plan k (stop_at budget plan k) }
    ensures one_stop { (budget k first second : ℕ) (plan : QueryPlan) →
        IsStop budget plan k first → IsStop budget plan k second → first ≡ second }
    ensures grade { (docs n k : ℕ) (flat : List (Entry ℕ)) (terms : List QueryTerm) →
        IsFlat nat_cmp docs flat → AreTerms terms →
        let plan = plan_of docs flat terms in
        IsSharpGrade n plan k (sharp_grade n plan k) }
    ensures one_grade { (n k : ℕ) (plan : QueryPlan) (first second : Grade) →
        IsSharpGrade n plan k first → IsSharpGrade n plan k second → first ≡ second }
{}
