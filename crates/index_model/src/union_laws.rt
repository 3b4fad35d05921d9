//! Laws of the union of parts: what it is made of, and what it has of a term and an impact. Each
//! function does nothing: its contract is the law.

ghost use Rattle.std.specs.Prelude.{ℕ, ◌≡◌, ◌≤◌, List, [], All, Contains, Some, length, map, sum_by};
ghost use Rattle.std.specs.List.{slice_get};
ghost use Rattle.std.specs.Ordering.{nat_cmp};
ghost use Rattle.std.specs.Cmp.Lexicographic.{slice_cmp};
ghost use Rattle.jass_base.specs.Limits.{IsName, IsText};
ghost use Rattle.jass_base.specs.declared.limits.TheConstants.{LONGEST_TERM, MOST_DOCUMENTS};
ghost use Rattle.ranking_model.specs.declared.entry.Entry.{Entry};
ghost use Rattle.ranking_model.specs.Flat.{entry_cmp, IsFlat};
ghost use Rattle.ranking_model.specs.Order.{sorted};
ghost use Rattle.index_model.specs.Index.{SegmentData, TermData, IndexData, IsIndex, IsWellFormed};
ghost use Rattle.index_model.specs.Flat.{flat_of};
ghost use Rattle.index_model.specs.Grouping.{index_with};
ghost use Rattle.index_model.specs.Merging.{
  docs_of,
  segments_of,
  union_docs,
  union_impacts,
  union_segments,
  union_terms,
  union_texts,
};
ghost use Rattle.index_model.specs.Querying.{segments_at};
ghost use Rattle.index_model.specs.Unions.{union_entries, union_names, union_of};

/// Names within their limits and any flat list, whose terms are texts of at most 65,535 bytes, make
/// a well-formed index, which has that flat list.
pub fn an_index_is_made_of_any_flat_list()
    ensures well_formed { (names : List (List ℕ)) (flat : List (Entry (List ℕ))) →
        length names ≤ MOST_DOCUMENTS → All IsName names → All IsText names →
        IsFlat (slice_cmp nat_cmp) (length names) flat →
        All (λ (e : Entry (List ℕ)). IsText e.term × (length e.term ≤ LONGEST_TERM)) flat →
        IsWellFormed (index_with names flat) }
    ensures flat { (names : List (List ℕ)) (flat : List (Entry (List ℕ))) →
        flat_of (index_with names flat) ≡ flat }
{}

/// The union of indexes is well formed, where they have few enough documents together. How many
/// terms it has is left open.
pub fn a_union_is_well_formed()
    ensures { (parts : List IndexData) → All IsIndex parts → length (union_names parts) ≤ MOST_DOCUMENTS →
        IsWellFormed (union_of parts) }
{}

/// The union of indexes has their names one part after the other, and their terms merged.
pub fn a_union_merges_its_parts()
    ensures { (parts : List IndexData) → All IsIndex parts →
        union_of parts ≡ record { names = union_names parts; terms = union_terms 0 parts } }
{}

/// The union of parts has their entries in order, as many as the parts have together, and as many
/// documents.
pub fn a_union_has_the_entries_of_its_parts()
    ensures entries { (parts : List IndexData) →
        flat_of (union_of parts) ≡ sorted (entry_cmp (slice_cmp nat_cmp)) (union_entries 0 parts) }
    ensures postings { (parts : List IndexData) →
        length (flat_of (union_of parts)) ≡ sum_by (λ (p : IndexData). length (flat_of p)) parts }
    ensures sizes { (parts : List IndexData) →
        sum_by (λ (t : TermData). sum_by (λ (s : SegmentData). length s.docs) t.segments) (union_of parts).terms
        ≡ sum_by (λ (p : IndexData). sum_by (λ (t : TermData). sum_by (λ (s : SegmentData). length s.docs) t.segments)
        p.terms) parts }
    ensures documents { (parts : List IndexData) →
        length (union_of parts).names ≡ sum_by (λ (p : IndexData). length p.names) parts }
{}

/// The union's terms are those of its parts, and of each term it has the segments of its parts: the
/// documents of an impact part after part, each raised by the number of documents of the parts
/// before.
pub fn a_union_has_the_segments_of_its_parts()
    ensures terms { (parts : List IndexData) → All IsIndex parts →
        map (λ (t : TermData). t.term) (union_of parts).terms ≡ union_texts parts }
    ensures segments { (parts : List IndexData) (bytes : List ℕ) → All IsIndex parts →
        segments_of bytes (union_of parts).terms ≡ union_segments bytes 0 parts }
    ensures impacts { (parts : List IndexData) (bytes : List ℕ) → All IsIndex parts →
        map (λ (s : SegmentData). s.impact) (segments_of bytes (union_of parts).terms) ≡ union_impacts bytes parts }
    ensures documents { (parts : List IndexData) (bytes : List ℕ) (impact : ℕ) → All IsIndex parts →
        docs_of impact (segments_of bytes (union_of parts).terms) ≡ union_docs bytes impact 0 parts }
{}

/// The segments of a term by its bytes are those by its number, and there is none where there is no
/// such term; so are the documents of a segment by its impact those by its place.
pub fn segments_are_found_by_bytes_and_impacts()
    ensures number { (index : IndexData) (number : ℕ) (bytes : List ℕ) → IsWellFormed index →
        slice_get (map (λ (t : TermData). t.term) index.terms) number ≡ Some bytes →
        segments_of bytes index.terms ≡ segments_at index.terms number }
    ensures no_term { (index : IndexData) (bytes : List ℕ) →
        ¬ Contains (map (λ (t : TermData). t.term) index.terms) bytes → segments_of bytes index.terms ≡ [] }
    ensures place { (index : IndexData) (number place : ℕ) (segment : SegmentData) → IsWellFormed index →
        slice_get (segments_at index.terms number) place ≡ Some segment →
        docs_of segment.impact (segments_at index.terms number) ≡ segment.docs }
    ensures no_segment { (segments : List SegmentData) (impact : ℕ) →
        ¬ Contains (map (λ (s : SegmentData). s.impact) segments) impact → docs_of impact segments ≡ [] }
{}
