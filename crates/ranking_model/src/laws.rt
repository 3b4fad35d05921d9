//! Laws over the definitions. Each function does nothing: its contract is the law, and a caller
//! learns it by the call.

ghost use Rattle.std.specs.Prelude.{◌≡◌, ◌≢◌, ℕ, ◌<◌, ◌≤◌, ◌⊎◌, nat_le};
ghost use Rattle.std.specs.Prelude.{List, [], ◌++◌, length, take, drop, flat_map, sum_by, count_by, All, AllPairs, Contains, IsPermutation, IsSorted};
ghost use Rattle.std.specs.List.{AllByRecursion};
ghost use Rattle.std.specs.Ordering.{nat_cmp};
ghost use Rattle.jass_base.specs.declared.answer.Hit.{Hit};
ghost use Rattle.jass_base.specs.declared.answer.Grade.{Grade};
ghost use Rattle.jass_base.specs.declared.answer.Report.{Report};
ghost use Rattle.ranking_model.specs.declared.plan.QueryPlan.{QueryPlan};
ghost use Rattle.jass_base.specs.declared.query_term.QueryTerm.{QueryTerm};
ghost use Rattle.ranking_model.specs.declared.entry.Entry.{Entry};
ghost use Rattle.ranking_model.specs.declared.posting.WeightedPosting.{WeightedPosting};
ghost use Rattle.ranking_model.specs.declared.plan_segment.PlanSegment.{PlanSegment};
ghost use Rattle.ranking_model.specs.Flat.{IsFlat};
ghost use Rattle.ranking_model.specs.Order.{sorted};
ghost use Rattle.ranking_model.specs.Postings.{AreTerms, weighted_postings};
ghost use Rattle.ranking_model.specs.Plan.{postings_of, plan_of, plan_cmp, plan_segments};
ghost use Rattle.ranking_model.specs.Plan.{size_of_first, prefix_within, cutoff_after, next_after};
ghost use Rattle.ranking_model.specs.Scores.{adds, gain_of, bound_after, scores_after, rank_cmp, hits_from, first_ranked};
ghost use Rattle.ranking_model.specs.Scores.{AreAhead, AreHitsOf, HaveAllFrom};
ghost use Rattle.ranking_model.specs.Limits.{IsSmall};
ghost use Rattle.ranking_model.specs.Finality.{GainsUpTo, IsSettled, IsKept, IsGrade};
ghost use Rattle.ranking_model.specs.Finality.{IsGradeWithin};
ghost use Rattle.ranking_model.specs.Heaviest.{IsHeaviest};
ghost use Rattle.ranking_model.specs.Report.{IsReport};
ghost use Rattle.ranking_model.specs.Promises.{IsPromised};
ghost use Rattle.jass_base.specs.declared.limits.TheConstants.{MOST_POSTINGS, MOST_TIMES};

/// The prefix that a budget pays for fits it, and no longer one does.
pub fn the_prefix_is_the_longest()
    ensures fits { (budget : ℕ) (segments : List PlanSegment) →
        size_of_first (prefix_within budget segments) segments ≤ budget }
    ensures there { (budget : ℕ) (segments : List PlanSegment) →
        prefix_within budget segments ≤ length segments }
    ensures longest { (budget n : ℕ) (segments : List PlanSegment) →
        n ≤ length segments → size_of_first n segments ≤ budget → n ≤ prefix_within budget segments }
{}

/// Scored segments weigh at least the cutoff, and the others at most the next weight, which is at
/// most the cutoff where anything is scored.
pub fn the_cutoff_parts_scored_from_unscored()
    ensures scored { (postings : List WeightedPosting) (n : ℕ) →
        let segments = plan_segments postings in
        AllByRecursion (λ segment. cutoff_after n segments ≤ segment.weight) (take n segments) }
    ensures unscored { (postings : List WeightedPosting) (n : ℕ) →
        let segments = plan_segments postings in
        AllByRecursion (λ segment. segment.weight ≤ next_after n segments) (drop n segments) }
    ensures parted { (postings : List WeightedPosting) (n : ℕ) →
        1 ≤ n → next_after n (plan_segments postings) ≤ cutoff_after n (plan_segments postings) }
{}

/// The postings of a prefix of the plan are the heaviest of their number.
pub fn the_scored_prefix_is_the_heaviest()
    ensures { (n : ℕ) (postings : List WeightedPosting) → IsHeaviest n postings }
{}

/// All segments together have all postings, and give each document the sum of the weights of its
/// postings.
pub fn the_segments_have_all_postings()
    ensures number { (postings : List WeightedPosting) →
        let segments = plan_segments postings in
        size_of_first (length segments) segments ≡ length postings }
    ensures scores { (postings : List WeightedPosting) (doc : ℕ) →
        sum_by (gain_of doc) (plan_segments postings) ≡ sum_by (adds doc) postings }
{}

/// What a plan is, for which nobody has to open it.
#[tactic(auto, unfolding(crate::specs::Plan::plan_of))]
pub fn a_plan_has_the_segments_of_its_postings()
    ensures docs { (docs : ℕ) (flat : List (Entry ℕ)) (terms : List QueryTerm) → (plan_of docs flat terms).docs ≡ docs }
    ensures terms { (docs : ℕ) (flat : List (Entry ℕ)) (terms : List QueryTerm) →
        (plan_of docs flat terms).terms ≡ length terms }
    ensures segments { (docs : ℕ) (flat : List (Entry ℕ)) (terms : List QueryTerm) →
        (plan_of docs flat terms).segments ≡ plan_segments (weighted_postings flat terms) }
{}

/// The numbers of a plan fit their types, where each term is named at most 255 times and the index
/// has at most 2^29 postings.
pub fn plans_are_small()
    ensures { (docs : ℕ) (flat : List (Entry ℕ)) (terms : List QueryTerm) →
        IsFlat nat_cmp docs flat → AreTerms terms → All (λ named. named.times ≤ MOST_TIMES) terms →
        length flat ≤ MOST_POSTINGS →
        IsSmall (plan_of docs flat terms) }
{}

/// Segments that differ in their term's place or in weight, put down one after the other, are the plan's.
pub fn segments_make_a_plan()
    ensures { (segments : List PlanSegment) →
        AllByRecursion (λ segment. segment.docs ≢ []) segments →
        AllPairs (λ a b. a.term_place ≡ b.term_place → a.weight ≢ b.weight) segments →
        plan_segments (flat_map postings_of segments) ≡ sorted plan_cmp segments }
{}

/// The ranking from a part of the hits: where none of the part comes after one of the rest, and the
/// part has m hits or all, the part in order is the first m.
pub fn the_hits_ahead_are_the_first()
    ensures in_order { (scores : List ℕ) (m : ℕ) (hits rest : List Hit) →
        IsPermutation (hits_from 0 scores) (hits ++ rest) → AreAhead hits rest →
        length hits ≤ m → (length hits < m → rest ≡ []) →
        IsSorted rank_cmp hits → hits ≡ first_ranked scores m }
    ensures in_any_order { (scores : List ℕ) (m : ℕ) (hits rest : List Hit) →
        IsPermutation (hits_from 0 scores) (hits ++ rest) → AreAhead hits rest →
        length hits ≤ m → (length hits < m → rest ≡ []) →
        sorted rank_cmp hits ≡ first_ranked scores m }
{}

/// The ranking from candidates: where the first m are among them, they are the first m of the
/// candidates in order. They are among them where all hits down to a floor are, and m reach it.
pub fn the_candidates_have_the_first()
    ensures among { (scores : List ℕ) (m : ℕ) (candidates : List Hit) →
        AreHitsOf scores candidates →
        AllByRecursion (λ hit. Contains candidates hit) (first_ranked scores m) →
        take m (sorted rank_cmp candidates) ≡ first_ranked scores m }
    ensures down_to { (scores : List ℕ) (m floor : ℕ) (candidates : List Hit) →
        AreHitsOf scores candidates → HaveAllFrom floor scores candidates →
        (floor ≤ 1) ⊎ (m ≤ count_by (λ hit. nat_le floor hit.score) candidates) →
        take m (sorted rank_cmp candidates) ≡ first_ranked scores m }
{}

/// A shorter ranking is the front of a longer one.
pub fn the_first_are_first_of_more()
    ensures { (scores : List ℕ) (m n : ℕ) → m ≤ n → take m (first_ranked scores n) ≡ first_ranked scores m }
{}

/// There is a score for each document of the index, and a ranking has documents of its scores.
pub fn the_ranking_has_documents_of_the_scores()
    ensures all { (n : ℕ) (plan : QueryPlan) → length (scores_after n plan) ≡ plan.docs }
    ensures documents { (scores : List ℕ) (m : ℕ) →
        All (λ (hit : Hit). hit.doc < length scores) (first_ranked scores m) }
{}

/// Scores have one grade at most, and an answer that is settled is kept.
pub fn the_grade_is_one()
    ensures one { (scores : List ℕ) (k bound : ℕ) (first second : Grade) →
        IsGrade scores k bound first → IsGrade scores k bound second → first ≡ second }
    ensures kept { (scores : List ℕ) (k bound : ℕ) → IsSettled scores k bound → IsKept scores k bound }
    ensures one_within { (scores limits : List ℕ) (k : ℕ) (first second : Grade) →
        IsGradeWithin scores k limits first → IsGradeWithin scores k limits second → first ≡ second }
{}

/// What is unscored gives no document more than the bound: the scores after more segments are those
/// after fewer, with gains up to the bound of the fewer.
pub fn the_rest_gains_at_most_the_bound()
    ensures { (docs n m : ℕ) (flat : List (Entry ℕ)) (terms : List QueryTerm) →
        IsFlat nat_cmp docs flat → n ≤ m →
        let plan = plan_of docs flat terms in
        GainsUpTo (bound_after n plan) (scores_after n plan) (scores_after m plan) }
{}

/// A report of a query on an index keeps its promises. Those of its grade are for every later
/// prefix of the plan, so for the exhaustive answer.
pub fn reports_keep_their_promises()
    ensures { (docs n k : ℕ) (flat : List (Entry ℕ)) (terms : List QueryTerm) (report : Report) →
        IsFlat nat_cmp docs flat →
        let plan = plan_of docs flat terms in
        IsReport n plan k report → IsPromised (weighted_postings flat terms) n plan k report }
{}
