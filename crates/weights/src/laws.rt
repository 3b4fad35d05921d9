//! Laws of the definitions. Each function does nothing; its clauses hold of all numbers, for proofs about whole
//! collections.

ghost use Rattle.std.specs.Prelude.{◌≡◌, ℕ, ◌-◌, ◌^◌, ◌<◌, ◌≤◌, List, length, All, Contains, IsPermutation};
ghost use Rattle.weights.specs.declared.quantizing.Bits.{Bits};
ghost use Rattle.weights.specs.declared.quantizing.Range.{Range};
ghost use Rattle.weights.specs.Weighting.{saturated};
ghost use Rattle.weights.specs.Quantizing.{range_of, IsInRange, impact_of};
ghost use Rattle.weights.specs.declared.impact_limit.TheConstants.{GREATEST_IMPACT};

/// BM25 rises with the term frequency, and falls where a document slows its growth further.
pub fn bm25_follows_frequencies()
    ensures rises { (rare tf more norm : ℕ) → 1 ≤ tf → tf ≤ more → saturated rare tf norm ≤ saturated rare more norm }
    ensures falls { (rare tf norm more : ℕ) → 1 ≤ tf → norm ≤ more → saturated rare tf more ≤ saturated rare tf norm }
{}

/// A heavier posting never has the lower impact, and the ends of a range have the least and the greatest impact.
pub fn impacts_follow_weights()
    ensures rises { (bits : Bits) (range : Range) (v w : ℕ) → IsInRange bits range w → v ≤ w
        → impact_of bits range v ≤ impact_of bits range w }
    ensures least { (b : ℕ) (range : Range) → impact_of (Bits.Of b) range range.least ≡ 1 }
    ensures greatest { (b : ℕ) (range : Range) → 1 ≤ b → range.least < range.greatest
        → impact_of (Bits.Of b) range range.greatest ≡ 2 ^ b - 1 }
{}

/// The range of some weights holds each of them, ends at two of them, and doesn't depend on their order.
pub fn ranges_end_at_weights()
    ensures from_least { (weights : List ℕ) (w : ℕ) → Contains weights w → (range_of weights).least ≤ w }
    ensures to_greatest { (weights : List ℕ) (w : ℕ) → Contains weights w → w ≤ (range_of weights).greatest }
    ensures least { (weights : List ℕ) → 0 < length weights → All (λ w. w < 2 ^ 64) weights
        → Contains weights (range_of weights).least }
    ensures greatest { (weights : List ℕ) → 0 < length weights → Contains weights (range_of weights).greatest }
    ensures any_order { (weights others : List ℕ) → IsPermutation weights others → range_of weights ≡ range_of others }
{}

/// The limit of impacts.
pub fn the_greatest_impact_is()
    ensures impact { GREATEST_IMPACT ≡ 65535 }
{}
