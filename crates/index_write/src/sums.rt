ghost use Rattle.std.specs.Prelude.{◌≡◌, ◌≤◌, ◌<◌, ◌*◌, ◌^◌, length, map};
ghost use Rattle.std.specs.List.{sum_by};
ghost use Rattle.jass_base.specs.declared.segment.Segment.{Segment};
ghost use Rattle.jass_base.specs.declared.term_segments.TermSegments.{TermSegments};
ghost use Rattle.index_model.specs.Views.{index_data};
ghost use Rattle.index_layout.specs.Heads.{HeadData, all_heads, greatest_impact, greatest_of, head_postings, payloads_size};
ghost use Rattle.index_layout.specs.Totals.{totals_of};
ghost use Rattle.index_layout.specs.View.{index_postings};
ghost use Rattle.index_write.specs.Chosen.{head_data};
ghost use Rattle.index_write.specs.Streaming.{entry_data};
ghost use Rattle.jass_base.specs.declared.limits.TheConstants.{GREATEST_IMPACT, MOST_POSTINGS};

use crate::head::PayloadHead;
use crate::laws::{parts_are_small, tables_have_their_sums};
use crate::term_heads::TermHeads;
use index_model::laws::indexes_in_memory_are_indexes;
use jass_base::{ImpactIndex, Segment, TermSegments, Totals};

/// The postings of segments.
fn segments_postings(segments: &[Segment]) -> u64
    requires { sum_by (λ (s : Segment). length s.docs) segments.now < 2 ^ 62 }
    ensures { result ≡ sum_by (λ (s : Segment). length s.docs) segments.now }
{
    let mut postings = 0;
    for segment in segments {
        postings += segment.docs.len() as u64;
    }
    postings
}

/// The postings of terms.
fn terms_postings(terms: &[TermSegments]) -> u64
    requires { sum_by (λ (t : TermSegments). sum_by (λ (s : Segment). length s.docs) t.segments) terms.now < 2 ^ 62 }
    ensures { result ≡ sum_by (λ (t : TermSegments). sum_by (λ (s : Segment). length s.docs) t.segments) terms.now }
{
    let mut postings = 0;
    for term in terms {
        postings += segments_postings(term.segments.as_slice());
    }
    postings
}

/// The postings of an index.
pub fn postings_in(index: &ImpactIndex) -> u64
    requires { index.now.greatest ≤ GREATEST_IMPACT }
    ensures { result ≡ index_postings (index_data index.now) }
{
    indexes_in_memory_are_indexes();
    parts_are_small();
    tables_have_their_sums();
    terms_postings(index.terms.as_slice())
}

/// The size of an index: documents, terms, postings, and the greatest impact.
pub fn totals(index: &ImpactIndex) -> Totals
    ensures { result ≡ totals_of (index_data index.now) }
{
    let _greatest = index.greatest;
    let postings = postings_in(index);
    tables_have_their_sums();
    Totals {
        docs: index.names.len() as u32,
        terms: index.terms.len() as u32,
        postings,
        greatest: index.greatest,
    }
}

/// What heads sum up to.
#[derive(Clone, Copy)]
pub struct HeadSums {
    pub postings: u64,
    /// The greatest impact, 0 where there is no head.
    pub greatest: u16,
    /// How many bytes the payloads have.
    pub payloads: u64,
}

/// The sums of the heads of a term.
pub fn term_sums(heads: &[PayloadHead]) -> HeadSums
    requires { length heads.now ≤ MOST_POSTINGS }
    ensures postings { result.postings ≡ sum_by (λ (h : HeadData). h.count) (map head_data heads.now) }
    ensures greatest { result.greatest ≡ greatest_of (map head_data heads.now) }
    ensures payloads { result.payloads ≡ sum_by (λ (h : HeadData). h.size) (map head_data heads.now) }
    ensures few_postings { result.postings ≤ 2 ^ 32 * length heads.now }
    ensures few_bytes { result.payloads ≤ 2 ^ 32 * length heads.now }
{
    let mut postings = 0;
    let mut greatest: u16 = 0;
    let mut payloads = 0;
    for head in heads {
        postings += u64::from(head.count);
        greatest = greatest.max(head.impact);
        payloads += u64::from(head.bytes);
    }
    HeadSums {
        postings,
        greatest,
        payloads,
    }
}

/// The sums of the heads of terms, in one pass over them.
pub fn heads_sums(entries: &[TermHeads]) -> HeadSums
    requires { length (all_heads (map entry_data entries.now)) ≤ MOST_POSTINGS }
    ensures postings { result.postings ≡ head_postings (map entry_data entries.now) }
    ensures greatest { result.greatest ≡ greatest_impact (map entry_data entries.now) }
    ensures payloads { result.payloads ≡ payloads_size (map entry_data entries.now) }
    ensures few_bytes { result.payloads ≤ 2 ^ 32 * length (all_heads (map entry_data entries.now)) }
{
    let mut postings = 0;
    let mut greatest: u16 = 0;
    let mut payloads = 0;
    for entry in entries {
        let here = term_sums(entry.heads.as_slice());
        postings += here.postings;
        greatest = greatest.max(here.greatest);
        payloads += here.payloads;
    }
    HeadSums {
        postings,
        greatest,
        payloads,
    }
}
