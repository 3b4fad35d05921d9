ghost use Rattle.std.specs.Prelude.{◌≡◌, ◌≤◌, ◌<◌, ◌+◌, length, slice_index};
ghost use Rattle.std.specs.Option.{unwrap_or};
ghost use Rattle.index_layout.specs.Reading.{head_in};
ghost use Rattle.segment_codecs.specs.Codecs.{codec_of};
ghost use Rattle.index_file.specs.Parts.{told};

use crate::number::{u16_at, u32_at};
use segment_codecs::Codec;

/// The head of a segment: its impact, how many documents, and the codec and size of its payload in
/// bytes.
#[derive(Clone, Copy)]
pub struct SegmentHead {
    pub impact: u16,
    pub codec: Codec,
    pub count: u32,
    pub size: u32,
}

/// A head, and where the payload of its segment begins among all payloads.
#[derive(Clone, Copy)]
pub(crate) struct PlacedHead {
    pub(crate) head: SegmentHead,
    pub(crate) place: u32,
}

/// The head at a place. An unknown codec is none of a checked file.
#[tactic(auto, unfolding(index_layout::specs::Reading::head_in))]
#[inline(always)]
pub fn head_of(bytes: &[u8], at: usize) -> SegmentHead
    requires { at + 11 ≤ length bytes.now }
    ensures { told result ≡ head_in bytes.now at }
{
    SegmentHead {
        impact: u16_at(bytes, at),
        codec: codec_at(bytes, at + 6),
        count: u32_at(bytes, at + 2),
        size: u32_at(bytes, at + 7),
    }
}

/// The codec whose number stands at a place.
#[inline(always)]
fn codec_at(bytes: &[u8], at: usize) -> Codec
    requires { at < length bytes.now }
    ensures { result ≡ unwrap_or (codec_of (slice_index bytes.now at)) Codec.Varbyte }
{
    match Codec::from_number(bytes[at]) {
        Some(codec) => codec,
        None => Codec::Varbyte,
    }
}
