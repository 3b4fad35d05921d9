ghost use Rattle.std.specs.Prelude.{ℕ, List};
ghost use Rattle.jass_base.specs.Codecs.{GivesAll, HandsOver};
ghost use Rattle.segment_codecs.specs.Codecs.{payload_of};
ghost use Rattle.segment_codecs.specs.Giving.{Gives};

use crate::codec::Codec;
use plain_codecs::{bitmap, varbyte};

/// How far the payload of a segment has been read. It holds no bytes: each call is passed the same
/// payload.
#[derive(Clone, Copy)]
pub struct SegmentCursor {
    codec: CodecCursor,
}

#[derive(Clone, Copy)]
enum CodecCursor {
    Varbyte(varbyte::Cursor),
    Packed(codec_packed::Cursor),
    Bitmap(bitmap::Cursor),
    Simple8(codec_simple8::Cursor),
}

impl SegmentCursor {
    /// A cursor at the first of `count` documents below `d`.
    pub fn new(codec: Codec, count: u32, d: u32) -> SegmentCursor
        ensures { GivesAll Gives (payload_of codec d) d count result }
    {
        let codec = match codec {
            Codec::Varbyte => CodecCursor::Varbyte(varbyte::Cursor::new(count, d)),
            Codec::Packed => CodecCursor::Packed(codec_packed::Cursor::new(count, d)),
            Codec::Bitmap => CodecCursor::Bitmap(bitmap::Cursor::new(count, d)),
            Codec::Simple8 => CodecCursor::Simple8(codec_simple8::Cursor::new(count, d)),
        };
        SegmentCursor { codec }
    }

    /// Writes the next documents to the front of `out`, and returns how many: 1 to 128, or 0 at the
    /// end. What stands behind them in `out` is left open.
    pub fn next_block(&mut self, bytes: &[u8], out: &mut [u32; 128]) -> usize
        requires stands { (docs : List ℕ) × Gives self.old bytes.now docs }
        ensures { HandsOver Gives self.old self.new bytes.now out.new result }
    {
        match &mut self.codec {
            CodecCursor::Varbyte(cursor) => cursor.next_block(bytes, out),
            CodecCursor::Packed(cursor) => cursor.next_block(bytes, out),
            CodecCursor::Bitmap(cursor) => cursor.next_block(bytes, out),
            CodecCursor::Simple8(cursor) => cursor.next_block(bytes, out),
        }
    }
}
