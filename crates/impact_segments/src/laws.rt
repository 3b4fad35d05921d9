//! Laws over the definitions, by which an index can be made a list at a time. Each function does
//! nothing: its contract is the law, and a caller learns it by the call.

ghost use Rattle.std.specs.Prelude.{◌≡◌, ℕ, ◌≤◌, [], ◌∷◌, ◌++◌, List, None, false, All, IsPermutation, fold, length, map};
ghost use Rattle.jass_base.specs.Ciff.{CollectionData, FitsList, ListData};
ghost use Rattle.weights.specs.declared.weighting.Rule.{Rule};
ghost use Rattle.weights.specs.declared.quantizing.Bits.{Bits};
ghost use Rattle.weights.specs.declared.quantizing.Range.{Range};
ghost use Rattle.weights.specs.Quantizing.{empty_range, impact_of, range_of, widened};
ghost use Rattle.index_model.specs.Grouping.{index_with};
ghost use Rattle.impact_segments.specs.Bounds.{can_widen, most_tf};
ghost use Rattle.impact_segments.specs.Collections.{index_of, lengths_of, total_of, weights_in, weights_of};
ghost use Rattle.impact_segments.specs.ListTerms.{AreByTerm, list_term, lists_in_use, widened_by};
ghost use Rattle.impact_segments.specs.OneList.{EndsLow, norms_in, outside};
ghost use Rattle.jass_base.specs.declared.limits.TheConstants.{MOST_DOCUMENTS};

use weights::laws::bm25_follows_frequencies;

/// The terms of the lists that have postings, by rising bytes, are those of the collection's index,
/// where the impacts are those in the range of all weights.
pub fn lists_by_term_make_the_index()
    ensures { (c : CollectionData) (rule : Rule) (bits : Bits) (range : Range) (names : List (List ℕ))
        (lists : List ListData) → AreByTerm c lists
        → ((w : ℕ) → impact_of bits range w ≡ impact_of bits (range_of (weights_of c rule)) w)
        → index_with names (index_of c rule bits) ≡ record {
          names = names;
          terms = map (list_term rule (lengths_of c.docs) (total_of (lengths_of c.docs)) bits range) lists;
        } }
{}

/// Raw impacts ask for no range. One that was widened by the lists that have postings, in whatever
/// order, is the range of all weights, also where there is no posting; it holds each weight of these
/// lists, and it ends low enough for impacts of any bits.
pub fn widened_lists_have_the_range()
    ensures raw { (range other : Range) (w : ℕ) → impact_of Bits.Raw range w ≡ impact_of Bits.Raw other w }
    ensures one_more { (rule : Rule) (lengths : List ℕ) (total : ℕ) (range : Range) (lists : List ListData)
        (l : ListData) → widened_by rule lengths total range (lists ++ l ∷ [])
        ≡ fold widened (widened_by rule lengths total range lists) (weights_in rule lengths total l.postings) }
    ensures range { (c : CollectionData) (rule : Rule) (lists : List ListData)
        → IsPermutation lists (lists_in_use c.lists)
        → widened_by rule (lengths_of c.docs) (total_of (lengths_of c.docs)) empty_range lists
        ≡ range_of (weights_of c rule) }
    ensures inside { (rule : Rule) (bits : Bits) (lengths : List ℕ) (total : ℕ) (range : Range)
        (lists : List ListData) → All (λ (l : ListData). outside bits (widened_by rule lengths total range lists)
        (weights_in rule lengths total l.postings) ≡ None) lists }
    ensures low { (rule : Rule) (bits : Bits) (lengths : List ℕ) (total : ℕ) (lists : List ListData)
        → length lengths ≤ MOST_DOCUMENTS → All (FitsList (length lengths)) lists
        → EndsLow bits (widened_by rule lengths total empty_range lists) }
{}

/// A list that can't widen a range leaves it as it is, for all that its postings are.
pub fn lists_inside_leave_the_range()
    ensures { (rule : Rule) (lengths : List ℕ) (total : ℕ) (range : Range) (l : ListData)
        → length lengths ≤ MOST_DOCUMENTS → FitsList (length lengths) l → 1 ≤ length l.postings
        → can_widen rule (length lengths) (length l.postings) (most_tf l.postings)
        (range_of (norms_in lengths total)) range ≡ false
        → fold widened range (weights_in rule lengths total l.postings) ≡ range }
{
    bm25_follows_frequencies();
}
