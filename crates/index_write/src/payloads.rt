//! The payloads of the segments.

ghost use Rattle.std.specs.Prelude.{◌≡◌, ◌≤◌, ◌++◌, length, map, All, OnOk};
ghost use Rattle.jass_base.specs.Gaps.{AreDocs};
ghost use Rattle.jass_base.specs.declared.segment.Segment.{Segment};
ghost use Rattle.segment_codecs.specs.Codecs.{chosen_codec, payload_of};
ghost use Rattle.index_model.specs.Views.{segment_data, term_data};
ghost use Rattle.index_write.specs.Chosen.{head_data, chosen_heads, chosen_payloads, table_payloads};
ghost use Rattle.jass_base.specs.declared.limits.TheConstants.{GREATEST_IMPACT};
ghost use Rattle.index_write.specs.Private.Table.{table_of};

use crate::head::PayloadHead;
use crate::laws::terms_have_documents;
use jass_base::{ImpactIndex, NoMemory, Row, Segment};
use segment_codecs::encode;

/// Appends the payload of documents in the codec of their head.
fn put_payload(docs: &[u32], head: &PayloadHead, d: u32, out: &mut Row<u8>) -> Result<(), NoMemory>
    requires docs { AreDocs d docs.now }
    requires codec { head.now.codec ≡ chosen_codec d docs.now }
    ensures { OnOk result (out.new ≡ out.old ++ payload_of (chosen_codec d docs.now) d docs.now) }
{
    encode(head.codec, docs, d, out)
}

/// Appends the payloads of a term's segments.
pub fn put_payloads(
    segments: &[Segment],
    heads: &[PayloadHead],
    d: u32,
    out: &mut Row<u8>,
) -> Result<(), NoMemory>
    requires docs { All (λ (s : Segment). AreDocs d s.docs) segments.now }
    requires heads { map head_data heads.now ≡ chosen_heads d (map segment_data segments.now) }
    ensures { OnOk result (out.new ≡ out.old ++ chosen_payloads d (map segment_data segments.now)) }
{
    for (i, segment) in segments.iter().enumerate() {
        put_payload(segment.docs.as_slice(), &heads[i], d, out)?;
    }
    Ok(())
}

/// Appends the payloads of all terms, each with the next of the heads.
pub fn put_all_payloads(
    index: &ImpactIndex,
    heads: &[PayloadHead],
    out: &mut Row<u8>,
) -> Result<(), NoMemory>
    requires greatest { index.now.greatest ≤ GREATEST_IMPACT }
    requires heads { map head_data heads.now ≡ table_of (length index.now.names) (map term_data index.now.terms) }
    ensures { OnOk result (out.new ≡ out.old
        ++ table_payloads (length index.now.names) (map term_data index.now.terms)) }
{
    terms_have_documents();
    let d = index.names.len() as u32;
    let mut left = heads;
    for term in index.terms.as_slice() {
        let (here, rest) = left.split_at(term.segments.len());
        put_payloads(term.segments.as_slice(), here, d, out)?;
        left = rest;
    }
    Ok(())
}
