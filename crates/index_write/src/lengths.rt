//! How many bytes the parts of an index file have.

ghost use Rattle.std.specs.Prelude.{◌≡◌, ◌≤◌, ◌<◌, ◌+◌, ◌*◌, ◌^◌, [], length, map, All, IfSome, IsNone};
ghost use Rattle.std.specs.List.{sum_by};
ghost use Rattle.jass_base.specs.Gaps.{AreDocs};
ghost use Rattle.jass_base.specs.declared.segment.Segment.{Segment};
ghost use Rattle.index_model.specs.Views.{segment_data, term_data, index_data};
ghost use Rattle.index_layout.specs.Heads.{payloads_size};
ghost use Rattle.index_layout.specs.Layout.{file_length, front_bytes, names_bytes, rest_behind, shared_with, terms_bytes};
ghost use Rattle.index_layout.specs.View.{index_text};
ghost use Rattle.index_write.specs.Chosen.{head_data, chosen_payloads, chosen_terms, table_payloads};
ghost use Rattle.index_write.specs.Private.Table.{table_of};
ghost use Rattle.index_write.specs.Streaming.{AreEntries, AreNames, entry_data};
ghost use Rattle.index_write.specs.declared.head.PayloadHead.{PayloadHead};
ghost use Rattle.jass_base.specs.declared.limits.TheConstants.{GREATEST_IMPACT};

use crate::head::PayloadHead;
use crate::laws::{
    entries_are_small, indexes_have_four_bytes_a_posting, parts_are_small, tables_have_their_sums,
    terms_have_documents, texts_have_their_parts,
};
use crate::sums::postings_in;
use crate::term_heads::TermHeads;
use index_model::laws::indexes_in_memory_are_indexes;
use jass_base::{ImpactIndex, Segment, Text};
use segment_codecs::shortest;

/// The bytes of names, each behind its length.
pub fn names_len(names: &[Text]) -> u64
    requires { length (names_bytes names.now) < 2 ^ 62 }
    ensures len { result ≡ length (names_bytes names.now) }
    ensures few { result < 2 ^ 62 }
{
    let mut len = 0;
    for name in names {
        len += 4 + name.as_str().len() as u64;
    }
    len
}

/// How many bytes a term has in common with the one before.
pub fn shared_len(before: &[u8], term: &[u8]) -> usize
    ensures shared { result ≡ shared_with before.now term.now }
    ensures within { result ≤ length term.now }
{
    let most = before.len().min(term.len());
    let mut shared = 0;
    'bytes: while shared < most && before[shared] == term[shared] {
        shared += 1;
    }
    shared
}

/// The bytes of a term behind the one before it, with so many heads.
fn term_len(before: &[u8], term: &[u8], heads: usize) -> u64
    requires { 8 + length (rest_behind before.now term.now) + 11 * heads < 2 ^ 62 }
    ensures { result ≡ 8 + length (rest_behind before.now term.now) + 11 * heads }
{
    let rest = term.len() - shared_len(before, term);
    8 + rest as u64 + 11 * heads as u64
}

/// The bytes of all terms with their heads.
fn terms_len(index: &ImpactIndex) -> u64
    requires { length (terms_bytes [] (chosen_terms (length index.now.names) (map term_data index.now.terms)))
        < 2 ^ 62 }
    ensures len { result
        ≡ length (terms_bytes [] (chosen_terms (length index.now.names) (map term_data index.now.terms))) }
    ensures few { result < 2 ^ 62 }
{
    let mut len = 0;
    let mut before: &[u8] = b"";
    for term in index.terms.as_slice() {
        let bytes = term.term.as_str().as_bytes();
        len += term_len(before, bytes, term.segments.len());
        before = bytes;
    }
    len
}

/// The bytes of the payloads.
fn payloads_len(heads: &[PayloadHead]) -> u64
    requires { sum_by (λ (h : PayloadHead). h.bytes) heads.now < 2 ^ 62 }
    ensures len { result ≡ sum_by (λ (h : PayloadHead). h.bytes) heads.now }
    ensures few { result < 2 ^ 62 }
{
    let mut len = 0;
    for head in heads {
        len += u64::from(head.bytes);
    }
    len
}

/// The bytes of the file, by its names, its terms and its heads.
pub fn index_len(index: &ImpactIndex, heads: &[PayloadHead]) -> u64
    requires greatest { index.now.greatest ≤ GREATEST_IMPACT }
    requires heads { map head_data heads.now ≡ table_of (length index.now.names) (map term_data index.now.terms) }
    ensures { result ≡ length (index_text (index_data index.now)) }
{
    indexes_in_memory_are_indexes();
    parts_are_small();
    texts_have_their_parts();
    tables_have_their_sums();
    40 + names_len(index.names.as_slice()) + terms_len(index) + payloads_len(heads)
}

/// The bytes of the payloads of segments, each in its shortest codec, in an index of `d` documents.
fn segments_len(segments: &[Segment], d: u32) -> u64
    requires docs { All (λ (s : Segment). AreDocs d s.docs) segments.now }
    requires few { length (chosen_payloads d (map segment_data segments.now)) < 2 ^ 62 }
    ensures { result ≡ length (chosen_payloads d (map segment_data segments.now)) }
{
    let mut len = 0;
    for segment in segments {
        len += shortest(segment.docs.as_slice(), d).size;
    }
    len
}

/// The bytes of the payloads of all terms, each in its shortest codec.
fn all_payloads_len(index: &ImpactIndex) -> u64
    requires { index.now.greatest ≤ GREATEST_IMPACT }
    ensures len { result ≡ length (table_payloads (length index.now.names) (map term_data index.now.terms)) }
    ensures few { result < 2 ^ 62 }
{
    indexes_in_memory_are_indexes();
    parts_are_small();
    terms_have_documents();
    let d = index.names.len() as u32;
    let mut len = 0;
    for term in index.terms.as_slice() {
        len += segments_len(term.segments.as_slice(), d);
    }
    len
}

/// The bytes of the file of an index, if they are more than so many. It takes no memory. No payload has
/// more than four bytes for each posting, so that a smaller index needs no pass over its documents.
pub fn length_above(index: &ImpactIndex, most: u64) -> Option<u64>
    requires { index.now.greatest ≤ GREATEST_IMPACT }
    ensures some { IfSome result (λ len. (length (index_text (index_data index.now)) ≡ len) × (most < len)) }
    ensures none { IsNone result → length (index_text (index_data index.now)) ≤ most }
{
    indexes_in_memory_are_indexes();
    parts_are_small();
    indexes_have_four_bytes_a_posting();
    let front = 40 + names_len(index.names.as_slice()) + terms_len(index);
    if front + 4 * postings_in(index) <= most {
        return None;
    }
    let len = front + all_payloads_len(index);
    if len > most { Some(len) } else { None }
}

/// The bytes of terms with their heads.
fn entries_len(entries: &[TermHeads]) -> u64
    requires { length (terms_bytes [] (map entry_data entries.now)) < 2 ^ 62 }
    ensures { result ≡ length (terms_bytes [] (map entry_data entries.now)) }
{
    let mut len = 0;
    let mut before: &[u8] = b"";
    for entry in entries {
        let bytes = entry.term.as_str().as_bytes();
        len += term_len(before, bytes, entry.heads.len());
        before = bytes;
    }
    len
}

/// The bytes of what stands before the payloads of terms with their heads.
pub fn front_len(names: &[Text], entries: &[TermHeads]) -> u64
    requires names { AreNames names.now }
    requires entries { AreEntries (map entry_data entries.now) }
    ensures len { result ≡ length (front_bytes names.now (map entry_data entries.now)) }
    ensures file { result + payloads_size (map entry_data entries.now)
        ≡ file_length names.now (map entry_data entries.now) }
    ensures few { result < 2 ^ 62 }
{
    entries_are_small();
    40 + names_len(names) + entries_len(entries)
}
