// What the parts of an index file are, and that their sizes fit 64 bits. Each function does nothing:
// its contract is the law, and a caller learns it by the call.

ghost use Rattle.std.specs.Prelude.{◌≡◌, ◌<◌, ◌≤◌, ◌+◌, ◌*◌, ◌^◌, ◌⊎◌, [], ◌∷◌, ◌++◌, List, ℕ, Option, None, length, map, take, All, AllPairs};
ghost use Rattle.std.specs.List.{sum_by};
ghost use Rattle.jass_base.specs.Gaps.{AreDocs};
ghost use Rattle.jass_base.specs.Outside.{Extends, Files, Sets};
ghost use Rattle.jass_base.specs.Terms.{greatest_impact};
ghost use Rattle.jass_base.specs.declared.impact_index.ImpactIndex.{ImpactIndex};
ghost use Rattle.jass_base.specs.declared.segment.Segment.{Segment};
ghost use Rattle.jass_base.specs.declared.term_segments.TermSegments.{TermSegments};
ghost use Rattle.segment_codecs.specs.Codecs.{chosen_codec, payload_size};
ghost use Rattle.index_model.specs.Index.{FallsTo as SegmentFalls, IndexData, IsIndex, IsTerm, SegmentData, TermData};
ghost use Rattle.index_model.specs.Views.{index_data};
ghost use Rattle.index_layout.specs.Heads.{HeadData, all_heads, payloads_size};
ghost use Rattle.index_layout.specs.Heads.{TermHeads as EntryData};
ghost use Rattle.index_layout.specs.Heads.{greatest_of as greatest_head};
ghost use Rattle.index_layout.specs.Layout.{file_length, front_bytes, names_bytes, terms_bytes};
ghost use Rattle.index_layout.specs.Totals.{index_greatest, totals_of};
ghost use Rattle.index_layout.specs.View.{index_postings, index_text};
ghost use Rattle.index_write.specs.Chosen.{chosen_entry, chosen_heads, chosen_payloads, chosen_terms, table_payloads};
ghost use Rattle.index_write.specs.Private.Table.{table_of};
ghost use Rattle.index_write.specs.Saving.{LeavesPrefix};
ghost use Rattle.index_write.specs.Streaming.{AreEntries, AreNames, FallsTo, IsEntry, IsHead, change_of, entries_totals, entry_data};
ghost use Rattle.index_write.specs.declared.term_heads.TermHeads.{TermHeads};
ghost use Rattle.jass_base.specs.declared.limits.TheConstants.{GREATEST_IMPACT, LONGEST_TERM, MOST_DOCUMENTS, MOST_POSTINGS};

use index_layout::laws::lengths_are_known;
use index_model::laws::indexes_in_memory_are_indexes;
use segment_codecs::laws::{codecs_have_their_numbers, payloads_have_few_bytes};

/// A segment has at most as many documents as the index, and its payload has few bytes.
pub(crate) fn segments_are_small()
    ensures docs { (d : ℕ) (docs : List ℕ) → AreDocs d docs → length docs ≤ MOST_DOCUMENTS }
    ensures bytes { (d : ℕ) (docs : List ℕ) → AreDocs d docs → payload_size d docs (chosen_codec d docs) ≤ 2 ^ 28 }
{
    payloads_have_few_bytes();
}

/// The documents of each segment are those of a segment, and a term has few segments.
pub(crate) fn terms_have_documents()
    ensures few { (index : ImpactIndex) → index.greatest ≤ GREATEST_IMPACT
        → All (λ (t : TermSegments). length t.segments ≤ MOST_DOCUMENTS) index.terms }
    ensures docs { (index : ImpactIndex) → index.greatest ≤ GREATEST_IMPACT
        → All (λ (t : TermSegments). All (λ (s : Segment). AreDocs (length index.names) s.docs) t.segments)
        index.terms }
{
    indexes_in_memory_are_indexes();
}

/// The text of an index is its front and its payloads, and the heads of all terms are its table.
pub(crate) fn texts_have_their_parts()
    ensures text { (index : IndexData) → index_text index
        ≡ front_bytes index.names (chosen_terms (length index.names) index.terms)
        ++ table_payloads (length index.names) index.terms }
    ensures length { (index : IndexData) → length (index_text index)
        ≡ file_length index.names (chosen_terms (length index.names) index.terms) }
    ensures heads { (d : ℕ) (index : IndexData) → all_heads (chosen_terms d index.terms) ≡ table_of d index.terms }
{
    lengths_are_known();
}

/// What the table sums up to.
pub(crate) fn tables_have_their_sums()
    ensures sizes { (d : ℕ) (index : IndexData) → sum_by (λ (h : HeadData). h.size) (table_of d index.terms)
        ≡ length (table_payloads d index.terms) }
    ensures counts { (d : ℕ) (index : IndexData) → sum_by (λ (h : HeadData). h.count) (table_of d index.terms)
        ≡ index_postings index }
    ensures postings { (index : ImpactIndex) → index_postings (index_data index)
        ≡ sum_by (λ (t : TermSegments). sum_by (λ (s : Segment). length s.docs) t.segments) index.terms }
    ensures impacts { (d : ℕ) (index : IndexData) → greatest_head (table_of d index.terms) ≡ index_greatest index }
    ensures greatest { (index : ImpactIndex) → index_greatest (index_data index) ≡ greatest_impact index.terms }
{}

/// No part of the file of an index, and no sum over it, comes near 2^64.
pub(crate) fn parts_are_small()
    ensures names { (index : IndexData) → IsIndex index → length (names_bytes index.names) ≤ 2 ^ 47 }
    ensures terms { (index : IndexData) → IsIndex index
        → length (terms_bytes [] (chosen_terms (length index.names) index.terms)) ≤ 2 ^ 54 }
    ensures payloads { (index : IndexData) → IsIndex index
        → length (table_payloads (length index.names) index.terms) ≤ 2 ^ 52 }
    ensures postings { (index : IndexData) → IsIndex index → index_postings index ≤ 2 ^ 50 }
{
    payloads_have_few_bytes();
}

/// The text of an index has what stands before its payloads and the payloads, of at most four bytes
/// for each posting.
pub(crate) fn indexes_have_four_bytes_a_posting()
    ensures length { (index : IndexData) → length (index_text index) ≡ 40 + length (names_bytes index.names)
        + length (terms_bytes [] (chosen_terms (length index.names) index.terms))
        + length (table_payloads (length index.names) index.terms) }
    ensures few { (index : IndexData) → IsIndex index
        → length (table_payloads (length index.names) index.terms) ≤ 4 * index_postings index }
{
    texts_have_their_parts();
    payloads_have_few_bytes();
}

/// Names, and terms with their heads, have few bytes, and there are few heads.
pub(crate) fn entries_are_small()
    ensures names { (names : List (List ℕ)) → AreNames names → length (names_bytes names) ≤ 2 ^ 47 }
    ensures terms { (entries : List EntryData) → AreEntries entries → length (terms_bytes [] entries) ≤ 2 ^ 42 }
    ensures heads { (entries : List EntryData) → AreEntries entries → length (all_heads entries) ≤ MOST_POSTINGS }
    ensures fit { (entries : List TermHeads) → AreEntries (map entry_data entries)
        → All (λ (t : TermHeads). length t.term ≤ LONGEST_TERM) entries }
    ensures few { (entries : List TermHeads) → AreEntries (map entry_data entries)
        → All (λ (t : TermHeads). length t.heads < 2 ^ 32) entries }
{}

/// Heads have no change exactly where they are the kept ones.
pub fn changes_are_found()
    ensures none { (kept found : List HeadData) → change_of kept found ≡ None → found ≡ kept }
    ensures same { (heads : List HeadData) → change_of heads heads ≡ None }
{
    codecs_have_their_numbers();
}

/// A file that was begun with what stands before the payloads of an index, and to which the payloads
/// of each of its terms were appended in turn, is the text of the index once no term is left.
pub fn appended_payloads_make_the_text()
    ensures text { (index : IndexData) → index_text index
        ≡ front_bytes index.names (chosen_terms (length index.names) index.terms)
        ++ table_payloads (length index.names) index.terms }
    ensures length { (index : IndexData) → length (index_text index)
        ≡ file_length index.names (chosen_terms (length index.names) index.terms) }
    ensures none { (d : ℕ) → table_payloads d [] ≡ [] }
    ensures more { (d : ℕ) (terms : List TermData) (t : TermData) → table_payloads d (terms ++ t ∷ [])
        ≡ table_payloads d terms ++ chosen_payloads d t.segments }
    ensures file { (old mid new : Option Files) (name text part : List ℕ) → Sets old mid name text
        → Extends mid new name part → Sets old new name (text ++ part) }
    ensures prefix { (old mid new : Option Files) (name text part : List ℕ) → Sets old mid name text
        → (new ≡ mid) ⊎ ((n : ℕ) × Extends mid new name (take n part)) → LeavesPrefix old new name (text ++ part) }
    ensures totals { (index : IndexData) → entries_totals (length index.names)
        (chosen_terms (length index.names) index.terms) ≡ totals_of index }
    ensures sizes { (d : ℕ) (terms : List TermData) → length (table_payloads d terms)
        ≡ payloads_size (chosen_terms d terms) }
{
    texts_have_their_parts();
    tables_have_their_sums();
}

/// The heads that are made of an index's segments are those that a writer asks for.
pub fn made_heads_are_entries()
    ensures heads { (d : ℕ) (segments : List SegmentData)
        → All (λ (s : SegmentData). (1 ≤ s.impact) × AreDocs d s.docs) segments
        → All IsHead (chosen_heads d segments) }
    ensures falling { (d : ℕ) (segments : List SegmentData) → AllPairs SegmentFalls segments
        → AllPairs FallsTo (chosen_heads d segments) }
    ensures entry { (d : ℕ) (t : TermData) → IsTerm d t → IsEntry (chosen_entry d t) }
    ensures entries { (index : IndexData) → IsIndex index → index_postings index ≤ MOST_POSTINGS
        → AreEntries (chosen_terms (length index.names) index.terms) }
{
    payloads_have_few_bytes();
}
