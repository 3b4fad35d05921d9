//! What certain documents promise, and that the rule counts them. Each function does nothing of its own: its contract
//! is the law, and a caller learns it by the call.

ghost use Rattle.std.specs.Prelude.{◌≡◌, ℕ, ◌≤◌, List, length, replicate, Contains};
ghost use Rattle.std.specs.List.{AllZip};
ghost use Rattle.std.specs.Ordering.{nat_cmp};
ghost use Rattle.jass_base.specs.declared.query_term.QueryTerm.{QueryTerm};
ghost use Rattle.ranking_model.specs.declared.entry.Entry.{Entry};
ghost use Rattle.ranking_model.specs.declared.plan.QueryPlan.{QueryPlan};
ghost use Rattle.ranking_model.specs.Flat.{IsFlat};
ghost use Rattle.ranking_model.specs.Plan.{plan_of};
ghost use Rattle.ranking_model.specs.Finality.{raised, first_documents, IsKeptWithin};
ghost use Rattle.ranking_model.specs.Scores.{scores_after, first_ranked, top_k};
ghost use Rattle.sharp_bounds.specs.Marks.{AreMarkedTo, next_weights};
ghost use Rattle.sharp_bounds.specs.Rule.{AreLimits};
ghost use Rattle.sharp_bounds.specs.Unseen.{unseen_bounds};
ghost use Rattle.sharp_search.specs.Deciding.{limits_of};
ghost use Rattle.sharp_bounds.specs.Sharpness.{IsSharpFinal};
ghost use Rattle.certain_hits.specs.Certain.{IsCertain, IsCertainCount, IsCertainCountAfter};
ghost use Rattle.certain_hits.specs.Certain.{IsCertainUpTo, IsCertainWithin};
ghost use Rattle.certain_hits.specs.Rule.{certain_after, certain_count};

use sharp_bounds::mask_laws::the_clear_bits_tell_what_is_unseen;

/// A certain document is one of the first k, and the rule counts the certain ones.
pub fn the_rule_counts_the_certain()
    ensures first { (scores limits : List ℕ) (k doc : ℕ) → length limits ≡ length scores →
        IsCertainWithin scores k limits doc → Contains (first_documents scores k) doc }
    ensures count { (scores limits : List ℕ) (k : ℕ) → length limits ≡ length scores →
        IsCertainCount scores k limits (certain_count k limits scores) }
    ensures after { (n k : ℕ) (plan : QueryPlan) → IsCertainCountAfter n plan k (certain_after n plan k) }
    ensures one { (scores limits : List ℕ) (k first second : ℕ) →
        IsCertainCount scores k limits first → IsCertainCount scores k limits second → first ≡ second }
{}

/// What is certain by gains up to a bound is so by the bound as the limit of each document.
pub fn a_bound_is_a_limit_for_all()
    ensures up_to { (scores : List ℕ) (k bound doc : ℕ) → IsCertainWithin scores k (replicate (length scores) bound) doc
        → IsCertainUpTo scores k bound doc }
    ensures within { (scores : List ℕ) (k bound doc : ℕ) → IsCertainUpTo scores k bound doc
        → IsCertainWithin scores k (replicate (length scores) bound) doc }
    ensures limits { (scores : List ℕ) (bound : ℕ) → AreLimits bound scores (replicate (length scores) bound) }
{}

/// What is certain between some scores and what limits let them reach is certain in every narrower interval.
pub fn a_narrower_interval_is_as_certain()
    ensures certain { (scores limits later left : List ℕ) (k doc : ℕ) → length limits ≡ length scores →
        AllZip (λ low high. low ≤ high) scores later →
        AllZip (λ low high. low ≤ high) (raised later left) (raised scores limits) →
        IsCertainWithin scores k limits doc → IsCertainWithin later k left doc }
    ensures count { (scores limits later left : List ℕ) (k : ℕ) →
        length limits ≡ length scores → length left ≡ length later →
        AllZip (λ low high. low ≤ high) scores later →
        AllZip (λ low high. low ≤ high) (raised later left) (raised scores limits) →
        certain_count k limits scores ≤ certain_count k left later }
{}

/// A certain document is among the first k after any more segments, so at the end, and it stays certain; so there are
/// never fewer.
pub fn a_certain_document_stands()
    ensures answer { (docs n m k doc : ℕ) (flat : List (Entry ℕ)) (terms : List QueryTerm) →
        IsFlat nat_cmp docs flat → n ≤ m →
        let plan = plan_of docs flat terms in
        IsCertain n plan k doc → Contains (first_documents (scores_after m plan) k) doc }
    ensures certain { (docs n m k doc : ℕ) (flat : List (Entry ℕ)) (terms : List QueryTerm) →
        IsFlat nat_cmp docs flat → n ≤ m →
        let plan = plan_of docs flat terms in
        IsCertain n plan k doc → IsCertain m plan k doc }
    ensures never_fewer { (docs n m k : ℕ) (flat : List (Entry ℕ)) (terms : List QueryTerm) →
        IsFlat nat_cmp docs flat → n ≤ m →
        let plan = plan_of docs flat terms in
        certain_after n plan k ≤ certain_after m plan k }
{}

/// Where limits keep the first k documents, all of them are certain; so are those of a sharply final answer. Where k
/// are certain, the limits keep them.
pub fn a_kept_answer_is_certain()
    ensures kept { (scores limits : List ℕ) (k : ℕ) → length limits ≡ length scores →
        IsKeptWithin scores k limits → certain_count k limits scores ≡ length (first_ranked scores k) }
    ensures sharp { (n k : ℕ) (plan : QueryPlan) →
        IsSharpFinal n plan k → certain_after n plan k ≡ length (top_k n plan k) }
    ensures keeps { (scores limits : List ℕ) (k : ℕ) → length limits ≡ length scores →
        certain_count k limits scores ≡ k → IsKeptWithin scores k limits }
{}

/// What a count by masks tells: masks that are marked at each posting, with the next weights, have what each document
/// is unseen in.
pub fn masks_tell_what_is_unseen()
    ensures { (n : ℕ) (plan : QueryPlan) (masks weights : List ℕ) →
        AreMarkedTo n plan masks → weights ≡ next_weights n plan → limits_of masks weights ≡ unseen_bounds n plan }
{
    the_clear_bits_tell_what_is_unseen();
}
