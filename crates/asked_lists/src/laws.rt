//! A law over the definitions. The function does nothing: its contract is the law, and a caller
//! learns it by the call.

ghost use Rattle.std.specs.Prelude.{◌≡◌, ◌≢◌, ℕ, List, AllPairs};
ghost use Rattle.jass_base.specs.Ciff.{CollectionData, ListData};
ghost use Rattle.jass_base.specs.CiffViews.{collection_data};
ghost use Rattle.jass_base.specs.declared.collection.Collection.{Collection};
ghost use Rattle.weights.specs.declared.weighting.Rule.{Rule};
ghost use Rattle.weights.specs.declared.quantizing.Bits.{Bits};
ghost use Rattle.impact_segments.specs.Collections.{collection_index};
ghost use Rattle.asked_lists.specs.Asked.{AnswerAlike, asked_of};

use impact_segments::laws::{lists_by_term_make_the_index, widened_lists_have_the_range};
use index_model::laws::a_query_weighs_its_segments;

/// Where the terms of a collection's lists differ, and impacts are weights as they stand, the index
/// of the lists that some words ask for answers these words as the index of all lists does. The terms
/// of a `Collection` differ.
pub fn asked_lists_answer_alike()
    ensures lists { (c : CollectionData) (rule : Rule) (words : List (List ℕ))
        → AllPairs (λ (a b : ListData). a.term ≢ b.term) c.lists
        → AnswerAlike words (collection_index rule Bits.Raw (asked_of c words)) (collection_index rule Bits.Raw c) }
    ensures collection { (c : Collection) (rule : Rule) (words : List (List ℕ)) → AnswerAlike words
        (collection_index rule Bits.Raw (asked_of (collection_data c) words))
        (collection_index rule Bits.Raw (collection_data c)) }
{
    lists_by_term_make_the_index();
    widened_lists_have_the_range();
    a_query_weighs_its_segments();
}
