//! The payload of a list in its shortest codec, which is told with it.

ghost use Rattle.std.specs.Prelude.{◌≡◌, ◌≤◌, ◌++◌, length, IfOk, IsTrue, OnErr, OnOk};
ghost use Rattle.jass_base.specs.Codecs.{Encodes};
ghost use Rattle.jass_base.specs.Gaps.{AreDocs};
ghost use Rattle.plain_codecs.specs.Varbyte.{varbyte_of};
ghost use Rattle.segment_codecs.specs.Codecs.{chosen_codec, payload_of, payload_size};
ghost use Rattle.segment_codecs.specs.declared.codec.Codec.{Codec};

use crate::choosing::{Choice, WORD, shortest};
use crate::codec::Codec;
use crate::payloads::encode;
use jass_base::{NoMemory, Row, put_gap};
use plain_codecs::{bitmap, varbyte};

/// So many documents at most are put as varints before any codec is tried.
const FEW: usize = 8;

/// Appends the payload of the documents in the codec that `shortest` chooses, or nothing where
/// memory is refused, and gives that codec and the length of the payload. A few documents nearly
/// always take varints, so these are put at once, and their length is told by the bytes.
#[inline]
pub fn put_shortest(docs: &[u32], d: u32, out: &mut Row<u8>) -> Result<Choice, NoMemory>
    requires { AreDocs d docs.now }
    ensures codec { IfOk result (λ choice. choice.codec ≡ chosen_codec d docs.now) }
    ensures size { IfOk result (λ choice. choice.size ≡ payload_size d docs.now (chosen_codec d docs.now)) }
    ensures payload { OnOk result (out.new ≡ out.old ++ payload_of (chosen_codec d docs.now) d docs.now) }
    ensures err { OnErr result (out.new ≡ out.old) }
{
    if docs.len() > FEW {
        return put_chosen(docs, d, out);
    }
    let before = out.len();
    put_few(docs, d, out)?;
    let size = (out.len() - before) as u64;
    if is_least(docs, d, size) {
        return Ok(Choice {
            codec: Codec::Varbyte,
            size,
        });
    }
    out.truncate(before);
    put_chosen(docs, d, out)
}

/// Appends the varints of the gaps. That of one document is its own.
#[inline]
fn put_few(docs: &[u32], d: u32, out: &mut Row<u8>) -> Result<(), NoMemory>
    requires { AreDocs d docs.now }
    ensures { Encodes (varbyte_of docs.now) out.old out.new result }
{
    if docs.len() == 1 {
        return put_gap(docs[0], out);
    }
    varbyte::encode(docs, d, out)
}

/// Whether no codec has a shorter payload than varints of so many bytes.
#[inline(always)]
fn is_least(docs: &[u32], d: u32, size: u64) -> bool
    requires docs { AreDocs d docs.now }
    requires few { length docs.now ≤ 8 }
    requires size { size ≡ payload_size d docs.now Codec.Varbyte }
    ensures { IsTrue result → chosen_codec d docs.now ≡ Codec.Varbyte }
{
    if bitmap::length(docs, d) < size {
        return false;
    }
    size <= WORD || codec_simple8::length_below(docs, d, size).is_none()
}

/// Chooses the codec first, and then appends the payload.
fn put_chosen(docs: &[u32], d: u32, out: &mut Row<u8>) -> Result<Choice, NoMemory>
    requires { AreDocs d docs.now }
    ensures codec { IfOk result (λ choice. choice.codec ≡ chosen_codec d docs.now) }
    ensures size { IfOk result (λ choice. choice.size ≡ payload_size d docs.now (chosen_codec d docs.now)) }
    ensures payload { OnOk result (out.new ≡ out.old ++ payload_of (chosen_codec d docs.now) d docs.now) }
    ensures err { OnErr result (out.new ≡ out.old) }
{
    let choice = shortest(docs, d);
    encode(choice.codec, docs, d, out)?;
    Ok(choice)
}
