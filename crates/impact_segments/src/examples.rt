//! The flat list of small collections (`specs/Examples.antt`), and the terms of lists by themselves,
//! by computation.

ghost use Rattle.std.specs.Prelude.{◌≡◌, [], ◌∷◌, codes, map};
ghost use Rattle.ranking_model.specs.Examples.{pets, falling};
ghost use Rattle.weights.specs.Quantizing.{empty_range};
ghost use Rattle.impact_segments.specs.Collections.{index_of, lengths_of, total_of};
ghost use Rattle.impact_segments.specs.Examples.{flat_entry, lists_by_term, one_term, terms_in_index, two_terms};
ghost use Rattle.impact_segments.specs.ListTerms.{list_term};

use weights::{Bits, Rule};

/// With raw term frequencies each posting's impact is its tf. Terms stand by their bytes in
/// whatever order the lists come, and a term without postings has no entry.
pub fn impacts_are_term_frequencies()
    ensures a { index_of one_term Rule.Tf Bits.Raw ≡ falling }
    ensures pets { index_of two_terms Rule.Tf Bits.Raw ≡ pets }
{}

/// BM25 weighs the postings of `a` 572, 549 and 401, which are impacts of 8 bits in the range from
/// 401 to 572.
#[tactic(auto, unfolding(weights::specs::Logarithm::exponent_of))]
pub fn impacts_of_eight_bits()
    ensures { index_of one_term Rule.Bm25 (Bits.Of 8)
        ≡ flat_entry (codes "a") 0 255 ∷ flat_entry (codes "a") 1 220 ∷ flat_entry (codes "a") 2 1 ∷ [] }
{}

/// Each list of `cat` and `dog` by itself becomes a term of their index.
#[tactic(auto, unfolding(crate::specs::ListTerms::list_segments))]
pub fn lists_become_terms()
    ensures { map (list_term Rule.Tf (lengths_of two_terms.docs) (total_of (lengths_of two_terms.docs)) Bits.Raw
        empty_range) lists_by_term ≡ terms_in_index }
{}
