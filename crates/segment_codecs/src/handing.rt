ghost use Rattle.std.specs.Prelude.{ℕ, ◌≡◌, ◌≤◌, List, length, take};
ghost use Rattle.jass_base.specs.Codecs.{ChecksInto, IsDocCount};
ghost use Rattle.segment_codecs.specs.Codecs.{payload_of, read_payload};
ghost use Rattle.segment_codecs.specs.Giving.{Gives};

use crate::codec::Codec;
use crate::cursor::SegmentCursor;
use crate::laws::payloads_are_read;
use crate::payloads::check;
use jass_base::PayloadFault;
use plain_codecs::varbyte;

/// The answer of `check`, and where it is Ok, the documents at the front of `out`. What stands behind
/// them there, or all of it where there is a fault, is left open. Varbyte and
/// Simple-8b are read once for both.
pub fn check_into(
    codec: Codec,
    bytes: &[u8],
    count: u32,
    d: u32,
    out: &mut [u32],
) -> Result<(), PayloadFault>
    requires count { IsDocCount count d }
    requires room { count ≤ length out.old }
    ensures { ChecksInto (payload_of codec d) (read_payload codec) d count bytes.now out.old out.new result }
{
    match codec {
        Codec::Varbyte => varbyte::check_into(bytes, count, d, out),
        Codec::Simple8 => codec_simple8::check_into(bytes, count, d, out),
        _ => check_and_read(codec, bytes, count, d, out),
    }
}

/// The same for the payload that is the first `size` bytes. What follows them isn't part of it: varbyte
/// is read faster where something does. Inlined, since most segments have one document.
#[inline(always)]
pub fn check_front_into(
    codec: Codec,
    bytes: &[u8],
    size: usize,
    count: u32,
    d: u32,
    out: &mut [u32],
) -> Result<(), PayloadFault>
    requires count { IsDocCount count d }
    requires size { size ≤ length bytes.now }
    requires room { count ≤ length out.old }
    ensures { ChecksInto (payload_of codec d) (read_payload codec) d count
        (take size bytes.now) out.old out.new result }
{
    match codec {
        Codec::Varbyte => varbyte::check_front_into(bytes, size, count, d, out),
        _ => check_into(codec, &bytes[..size], count, d, out),
    }
}

/// The same for any codec, which is read once for the check and once for the documents.
fn check_and_read(
    codec: Codec,
    bytes: &[u8],
    count: u32,
    d: u32,
    out: &mut [u32],
) -> Result<(), PayloadFault>
    requires count { IsDocCount count d }
    requires room { count ≤ length out.old }
    ensures { ChecksInto (payload_of codec d) (read_payload codec) d count bytes.now out.old out.new result }
{
    payloads_are_read();
    check(codec, bytes, count, d)?;
    let cursor = SegmentCursor::new(codec, count, d);
    read_docs(cursor, bytes, count, out);
    Ok(())
}

/// Writes the documents that a cursor gives to the front of `out`.
fn read_docs(cursor: SegmentCursor, bytes: &[u8], count: u32, out: &mut [u32])
    requires stands { (docs : List ℕ) × Gives cursor bytes.now docs × (length docs ≡ count) }
    requires room { count ≤ length out.old }
    ensures docs { (docs : List ℕ) → Gives cursor bytes.now docs → length docs ≡ count → take count out.new ≡ docs }
    ensures length { length out.new ≡ length out.old }
{
    let mut cursor = cursor;
    let mut block = [0u32; 128];
    let mut filled = 0;
    'parts: while filled < count as usize {
        let given = cursor.next_block(bytes, &mut block);
        out[filled..filled + given].copy_from_slice(&block[..given]);
        filled += given;
    }
}
