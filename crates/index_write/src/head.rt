ghost use Rattle.std.specs.Prelude.{◌≡◌, ◌≤◌, ◌++◌, length, map, All, OnOk, IfOk};
ghost use Rattle.jass_base.specs.Gaps.{AreDocs};
ghost use Rattle.jass_base.specs.declared.segment.Segment.{Segment};
ghost use Rattle.segment_codecs.specs.Codecs.{chosen_codec, payload_of, payload_size};
ghost use Rattle.index_model.specs.Views.{segment_data, term_data};
ghost use Rattle.index_write.specs.Chosen.{head_data, chosen_head, chosen_heads};
ghost use Rattle.jass_base.specs.declared.limits.TheConstants.{GREATEST_IMPACT};
ghost use Rattle.index_write.specs.Private.Table.{table_of};

use crate::laws::{segments_are_small, terms_have_documents};
use jass_base::{ImpactIndex, NoMemory, Row, Segment};
use segment_codecs::{Choice, Codec, put_shortest, shortest};
use std::alloc::Global;

/// What stands in an index file before the payload of a segment. The fields stand by falling size, for
/// the least memory.
#[derive(Clone, Copy, Debug, PartialEq, Eq)]
pub struct PayloadHead {
    /// How many documents.
    pub count: u32,
    /// How many bytes the payload has.
    pub bytes: u32,
    pub impact: u16,
    pub codec: Codec,
}

impl PayloadHead {
    /// The head of a segment in its shortest codec, in an index of `d` documents.
    #[inline(always)]
    pub fn new(segment: &Segment, d: u32) -> PayloadHead
        requires { AreDocs d segment.now.docs }
        ensures { head_data result ≡ chosen_head d (segment_data segment.now) }
    {
        PayloadHead::of(segment.impact, segment.docs.as_slice(), d)
    }

    /// The head of the segment of an impact and these documents in its shortest codec, in an index
    /// of `d` documents. It is inlined, so that a row gets it from registers.
    #[inline(always)]
    pub fn of(impact: u16, docs: &[u32], d: u32) -> PayloadHead
        requires { AreDocs d docs.now }
        ensures { head_data result ≡ chosen_head d (record { impact = impact; docs = docs.now }) }
    {
        PayloadHead::chosen(impact, docs, d, shortest(docs, d))
    }

    /// Appends the payload of the documents in its shortest codec, and gives the head that `of`
    /// gives. The codec is chosen as the payload is appended.
    #[inline(always)]
    pub fn put(
        impact: u16,
        docs: &[u32],
        d: u32,
        out: &mut Row<u8>,
    ) -> Result<PayloadHead, NoMemory>
        requires { AreDocs d docs.now }
        ensures head { IfOk result (λ head.
            head_data head ≡ chosen_head d (record { impact = impact; docs = docs.now })) }
        ensures payload { OnOk result (out.new ≡ out.old ++ payload_of (chosen_codec d docs.now) d docs.now) }
    {
        let choice = put_shortest(docs, d, out)?;
        Ok(PayloadHead::chosen(impact, docs, d, choice))
    }

    /// The head of documents whose codec was chosen.
    #[inline(always)]
    fn chosen(impact: u16, docs: &[u32], d: u32, choice: Choice) -> PayloadHead
        requires docs { AreDocs d docs.now }
        requires codec { choice.codec ≡ chosen_codec d docs.now }
        requires size { choice.size ≡ payload_size d docs.now (chosen_codec d docs.now) }
        ensures { head_data result ≡ chosen_head d (record { impact = impact; docs = docs.now }) }
    {
        segments_are_small();
        PayloadHead {
            impact,
            count: docs.len() as u32,
            codec: choice.codec,
            bytes: choice.size as u32,
        }
    }
}

/// Appends the heads of segments.
pub fn push_heads(
    segments: &[Segment],
    d: u32,
    heads: &mut Row<PayloadHead>,
) -> Result<(), NoMemory>
    requires { All (λ (s : Segment). AreDocs d s.docs) segments.now }
    ensures { OnOk result (map head_data heads.new
        ≡ map head_data heads.old ++ chosen_heads d (map segment_data segments.now)) }
{
    for segment in segments {
        heads.push(PayloadHead::new(segment, d))?;
    }
    Ok(())
}

/// The heads of segments, each in its shortest codec, in an index of `d` documents.
pub fn payload_heads(
    alloc: Global,
    segments: &[Segment],
    d: u32,
) -> Result<Row<PayloadHead>, NoMemory>
    requires { All (λ (s : Segment). AreDocs d s.docs) segments.now }
    ensures { IfOk result (λ heads. map head_data heads ≡ chosen_heads d (map segment_data segments.now)) }
{
    let mut heads = Row::with_room(alloc, segments.len())?;
    match push_heads(segments, d, &mut heads) {
        Ok(()) => Ok(heads),
        Err(_) => {
            drop(heads);
            Err(NoMemory)
        }
    }
}

/// Appends the heads of all terms' segments.
fn push_all_heads(index: &ImpactIndex, heads: &mut Row<PayloadHead>) -> Result<(), NoMemory>
    requires { index.now.greatest ≤ GREATEST_IMPACT }
    ensures { OnOk result (map head_data heads.new ≡ map head_data heads.old
        ++ table_of (length index.now.names) (map term_data index.now.terms)) }
{
    terms_have_documents();
    let d = index.names.len() as u32;
    for term in index.terms.as_slice() {
        push_heads(term.segments.as_slice(), d, heads)?;
    }
    Ok(())
}

/// The heads of all terms' segments.
pub fn index_heads(alloc: Global, index: &ImpactIndex) -> Result<Row<PayloadHead>, NoMemory>
    requires { index.now.greatest ≤ GREATEST_IMPACT }
    ensures { IfOk result (λ heads. map head_data heads
        ≡ table_of (length index.now.names) (map term_data index.now.terms)) }
{
    let mut heads = Row::new(alloc);
    match push_all_heads(index, &mut heads) {
        Ok(()) => Ok(heads),
        Err(_) => {
            drop(heads);
            Err(NoMemory)
        }
    }
}
