//! Who is out, and who can't change places: both are for good. Each function does nothing of its
//! own: its contract is the law, and a caller learns it by the call.

ghost use Rattle.std.specs.Prelude.{◌≡◌, ◌≢◌, ℕ, ◌<◌, ◌≤◌, ◌⊎◌, true, List, length, slice_index};
ghost use Rattle.std.specs.List.{AllByRecursion};
ghost use Rattle.std.specs.Ordering.{nat_cmp};
ghost use Rattle.jass_base.specs.declared.query_term.QueryTerm.{QueryTerm};
ghost use Rattle.ranking_model.specs.declared.entry.Entry.{Entry};
ghost use Rattle.ranking_model.specs.declared.plan.QueryPlan.{QueryPlan};
ghost use Rattle.ranking_model.specs.Flat.{IsFlat};
ghost use Rattle.ranking_model.specs.Postings.{AreTerms};
ghost use Rattle.ranking_model.specs.Plan.{plan_of};
ghost use Rattle.ranking_model.specs.Scores.{scores_after, bound_after, top_k, least_untouched};
ghost use Rattle.sharp_bounds.specs.Out.{AreHitsApart, AreOthersOut, IsApart, IsOut};
ghost use Rattle.sharp_bounds.specs.Sharpness.{IsSharpFinal};
ghost use Rattle.sharp_bounds.specs.Rule.{do_untouched_stay};

/// Whoever is out is no hit, and is out after any more segments.
pub fn who_is_out_stays_out()
    ensures later { (docs n m k doc : ℕ) (flat : List (Entry ℕ)) (terms : List QueryTerm) →
        IsFlat nat_cmp docs flat → n ≤ m → doc < docs →
        let plan = plan_of docs flat terms in
        IsOut n plan k doc → IsOut m plan k doc }
    ensures no_hit { (n k doc : ℕ) (plan : QueryPlan) →
        IsOut n plan k doc → AllByRecursion (λ hit. hit.doc ≢ doc) (top_k n plan k) }
{}

/// Documents that can't change places can't after any more segments.
pub fn who_is_apart_stays_apart()
    ensures { (docs n m ahead behind : ℕ) (flat : List (Entry ℕ)) (terms : List QueryTerm) →
        IsFlat nat_cmp docs flat → n ≤ m → ahead < docs → behind < docs →
        let plan = plan_of docs flat terms in
        IsApart n plan ahead behind → IsApart m plan ahead behind }
{}

/// Where k are hit and the least untouched document can't enter, each untouched one is out.
pub fn who_is_untouched_is_out()
    ensures { (docs n k doc : ℕ) (flat : List (Entry ℕ)) (terms : List QueryTerm) →
        IsFlat nat_cmp docs flat → AreTerms terms → doc < docs →
        let plan = plan_of docs flat terms in
        length (top_k n plan k) ≡ k →
        do_untouched_stay k (bound_after n plan) (top_k n plan k) (least_untouched (scores_after n plan)) ≡ true →
        slice_index (scores_after n plan) doc ≡ 0 → IsOut n plan k doc }
{}

/// An answer is sharply final exactly where all others are out and no two hits can change places.
pub fn all_others_out_and_all_hits_apart_is_sharply_final()
    ensures sharp { (docs n k : ℕ) (flat : List (Entry ℕ)) (terms : List QueryTerm) →
        IsFlat nat_cmp docs flat → AreTerms terms →
        let plan = plan_of docs flat terms in
        AreOthersOut n plan k → AreHitsApart n plan k → IsSharpFinal n plan k }
    ensures out { (docs n k : ℕ) (flat : List (Entry ℕ)) (terms : List QueryTerm) →
        IsFlat nat_cmp docs flat → AreTerms terms →
        let plan = plan_of docs flat terms in
        IsSharpFinal n plan k → AreOthersOut n plan k }
    ensures apart { (docs n k : ℕ) (flat : List (Entry ℕ)) (terms : List QueryTerm) →
        IsFlat nat_cmp docs flat → AreTerms terms →
        let plan = plan_of docs flat terms in
        IsSharpFinal n plan k → AreHitsApart n plan k }
{}
