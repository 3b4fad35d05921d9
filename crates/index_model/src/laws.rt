//! Laws over the definitions. Each function does nothing: its contract is the law, and a caller
//! learns it by the call.

ghost use Rattle.std.specs.Prelude.{◌≡◌, ◌≤◌, List, length, map, flat_map};
ghost use Rattle.std.specs.Ordering.{nat_cmp};
ghost use Rattle.std.specs.Cmp.Lexicographic.{slice_cmp};
ghost use Rattle.jass_base.specs.declared.impact_index.ImpactIndex.{ImpactIndex};
ghost use Rattle.jass_base.specs.declared.query_term.QueryTerm.{QueryTerm};
ghost use Rattle.jass_base.specs.declared.term_segments.TermSegments.{TermSegments};
ghost use Rattle.ranking_model.specs.Flat.{IsFlat, terms_of, numbered};
ghost use Rattle.ranking_model.specs.Order.{sorted};
ghost use Rattle.ranking_model.specs.Plan.{postings_of, plan_cmp, plan_segments};
ghost use Rattle.ranking_model.specs.Postings.{AreTerms, weighted_postings};
ghost use Rattle.index_model.specs.Index.{TermData, IndexData, IsIndex, IsWellFormed};
ghost use Rattle.index_model.specs.Flat.{flat_of, numbered_flat};
ghost use Rattle.index_model.specs.Grouping.{index_with};
ghost use Rattle.index_model.specs.Querying.{query_segments};
ghost use Rattle.index_model.specs.Views.{index_data};
ghost use Rattle.jass_base.specs.declared.limits.TheConstants.{GREATEST_IMPACT};

use ranking_model::laws::segments_make_a_plan;

/// An index is well formed: of its limits that on the number of its terms is left open.
pub fn indexes_are_well_formed()
    ensures { (index : IndexData) → IsIndex index → IsWellFormed index }
{}

/// The flat list of an index is flat, by the bytes of its terms and by their numbers. Its terms are
/// those of the index, each once and in the same order, so that a term's number is its place in
/// both.
pub fn the_flat_list_is_flat()
    ensures bytes { (index : IndexData) → IsWellFormed index →
        IsFlat (slice_cmp nat_cmp) (length index.names) (flat_of index) }
    ensures numbers { (index : IndexData) → IsWellFormed index →
        IsFlat nat_cmp (length index.names) (numbered_flat index) }
    ensures terms { (index : IndexData) → IsWellFormed index →
        terms_of (flat_of index) ≡ map (λ (t : TermData). t.term) index.terms }
    ensures numbered { (index : IndexData) → IsWellFormed index → numbered (flat_of index) ≡ numbered_flat index }
{}

/// The weighted postings of a query are those of the segments that it names.
pub fn a_query_weighs_its_segments()
    ensures { (index : IndexData) (query : List QueryTerm) →
        weighted_postings (numbered_flat index) query ≡ flat_map postings_of (query_segments index query) }
{}

/// A query's plan has the segments that the query names, in the plan's order.
pub fn the_plan_has_the_named_segments()
    ensures { (index : IndexData) (query : List QueryTerm) → IsWellFormed index → AreTerms query →
        plan_segments (weighted_postings (numbered_flat index) query) ≡ sorted plan_cmp (query_segments index query) }
{
    segments_make_a_plan();
    a_query_weighs_its_segments();
}

/// An index in memory is an index, as its impacts have 16 bits, and its terms are those of its flat
/// list.
pub fn indexes_in_memory_are_indexes()
    ensures index { (index : ImpactIndex) → index.greatest ≤ GREATEST_IMPACT → IsIndex (index_data index) }
    ensures terms { (index : ImpactIndex) →
        terms_of (flat_of (index_data index)) ≡ map (λ (t : TermSegments). t.term) index.terms }
{}

/// An index is that of its names and its flat list, so that these determine it.
pub fn an_index_is_that_of_its_flat_list()
    ensures { (index : IndexData) → IsWellFormed index → index_with index.names (flat_of index) ≡ index }
{}
