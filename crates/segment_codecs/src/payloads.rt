// The calls of each codec by its name.
ghost use Rattle.std.specs.Prelude.{◌≡◌};
ghost use Rattle.jass_base.specs.Codecs.{Checks, Encodes, IsDocCount};
ghost use Rattle.jass_base.specs.Gaps.{AreDocs};
ghost use Rattle.segment_codecs.specs.Codecs.{payload_of, payload_size, read_payload};

use crate::codec::Codec;
use jass_base::{NoMemory, PayloadFault, Row};
use plain_codecs::{bitmap, varbyte};

/// The number of bytes of the payload of a list of documents, in an index of `d` documents.
pub fn length(codec: Codec, docs: &[u32], d: u32) -> u64
    requires { AreDocs d docs.now }
    ensures { result ≡ payload_size d docs.now codec }
{
    match codec {
        Codec::Varbyte => varbyte::length(docs, d),
        Codec::Packed => codec_packed::length(docs, d),
        Codec::Bitmap => bitmap::length(docs, d),
        Codec::Simple8 => codec_simple8::length(docs, d),
    }
}

/// Appends the payload of a list of documents, in an index of `d` documents, or nothing where
/// memory is refused.
pub fn encode(codec: Codec, docs: &[u32], d: u32, out: &mut Row<u8>) -> Result<(), NoMemory>
    requires { AreDocs d docs.now }
    ensures { Encodes (payload_of codec d docs.now) out.old out.new result }
{
    match codec {
        Codec::Varbyte => varbyte::encode(docs, d, out),
        Codec::Packed => codec_packed::encode(docs, d, out),
        Codec::Bitmap => bitmap::encode(docs, d, out),
        Codec::Simple8 => codec_simple8::encode(docs, d, out),
    }
}

/// Whether the bytes are the payload of a list of `count` documents below `d`, or the first fault of
/// the codec's check.
pub fn check(codec: Codec, bytes: &[u8], count: u32, d: u32) -> Result<(), PayloadFault>
    requires { IsDocCount count d }
    ensures { Checks (payload_of codec d) (read_payload codec) d count bytes.now result }
{
    match codec {
        Codec::Varbyte => varbyte::check(bytes, count, d),
        Codec::Packed => codec_packed::check(bytes, count, d),
        Codec::Bitmap => bitmap::check(bytes, count, d),
        Codec::Simple8 => codec_simple8::check(bytes, count, d),
    }
}
