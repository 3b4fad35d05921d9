// How many bytes payloads have.
ghost use Rattle.std.specs.Prelude.{◌≡◌, ◌+◌, ◌*◌};
ghost use Rattle.std.specs.Prelude as list;
ghost use Rattle.jass_base.specs.Gaps.{AreDocs};
ghost use Rattle.codec_packed.specs.Packing.{packed_of};

use crate::block::{BLOCK, block_size};
use crate::laws::blocks_keep_their_gaps;
use crate::tail::gaps_size;

/// The number of bytes of the payload of a list of documents.
pub fn length(docs: &[u32], d: u32) -> u64
    requires { AreDocs d docs.now }
    ensures { result ≡ list.length (packed_of docs.now) }
{
    let _ = d;
    blocks_keep_their_gaps();
    let blocks = docs.len() / BLOCK;
    let mut size = 0;
    let mut least = 0;
    for block in 0..blocks {
        let start = BLOCK * block;
        size += block_size(&docs[start..start + BLOCK], least);
        least = docs[start + BLOCK - 1] + 1;
    }
    size + gaps_size(&docs[BLOCK * blocks..], least)
}
