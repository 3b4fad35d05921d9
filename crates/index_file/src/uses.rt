ghost use Rattle.std.specs.Prelude.{◌≡◌, ◌^◌, ◌<◌, length, map, slice_index};
ghost use Rattle.segment_codecs.specs.Codecs.{codec_number};
ghost use Rattle.segment_codecs.specs.declared.codec.Codec.{Codec};
ghost use Rattle.index_layout.specs.Heads.{HeadData};
ghost use Rattle.index_file.specs.Places.{uses_of};

use crate::head_table::HeadTable;

/// How many segments are in the codec with each number, 0 to 3.
pub(crate) fn codec_uses(heads: &HeadTable) -> [u64; 4]
    ensures { (codec : Codec) → slice_index result (codec_number codec)
        ≡ uses_of codec (map (λ (h : HeadData). h.codec) heads.now) }
{
    let mut uses = [0u64; 4];
    'heads: for i in 0..heads.len() {
        let codec = heads.at(i).codec;
        uses[codec.number() as usize] += 1;
    }
    uses
}
