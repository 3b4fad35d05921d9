// Blocks of 128 gaps, one at a time.
ghost use Rattle.std.specs.Prelude.{◌≡◌, ◌+◌, ◌*◌, ◌<◌, ◌≤◌, ◌++◌, length, OnOk, OnErr};
ghost use Rattle.jass_base.specs.Gaps.{gaps_from};
ghost use Rattle.codec_packed.specs.Giving.{AreFrom};
ghost use Rattle.codec_packed.specs.Packing.{packed_block};
ghost use Rattle.codec_packed.specs.Private.Steps.{ReadsBlock};
ghost use Rattle.jass_base.specs.declared.limits.TheConstants.{MOST_DOCUMENTS};

use crate::laws::blocks_keep_their_gaps;
use jass_base::{NoMemory, PayloadFault, Row};
use lane_kernels::{pack128, unpack128, width128};

/// The documents of a block.
pub(crate) const BLOCK: usize = 128;

/// The bytes of a block at the greatest width, which has one byte of its own.
const MOST_BYTES: usize = 513;

/// The gaps of 128 documents, the first at least `least`.
pub(crate) fn block_gaps(docs: &[u32], least: u32) -> [u32; 128]
    requires count { length docs.now ≡ 128 }
    requires rising { AreFrom MOST_DOCUMENTS least docs.now }
    ensures { result ≡ gaps_from least docs.now }
{
    let mut gaps = [0; 128];
    let mut next = least;
    for i in 0..128 {
        gaps[i] = docs[i] - next;
        next = docs[i] + 1;
    }
    gaps
}

/// Appends the block of 128 documents, or nothing where memory is refused.
pub(crate) fn put_block(docs: &[u32], least: u32, out: &mut Row<u8>) -> Result<(), NoMemory>
    requires count { length docs.now ≡ 128 }
    requires rising { AreFrom MOST_DOCUMENTS least docs.now }
    ensures ok { OnOk result (out.new ≡ out.old ++ packed_block (gaps_from least docs.now)) }
    ensures err { OnErr result (out.new ≡ out.old) }
{
    let gaps = block_gaps(docs, least);
    let width = width128(&gaps);
    let end = 1 + 16 * usize::from(width);
    let mut block = [0u8; MOST_BYTES];
    block[0] = width;
    pack128(&gaps, width, &mut block[1..end]);
    out.extend(&block[..end])
}

/// The number of bytes of the block of 128 documents.
pub(crate) fn block_size(docs: &[u32], least: u32) -> u64
    requires count { length docs.now ≡ 128 }
    requires rising { AreFrom MOST_DOCUMENTS least docs.now }
    ensures { result ≡ length (packed_block (gaps_from least docs.now)) }
{
    blocks_keep_their_gaps();
    1 + 16 * u64::from(width128(&block_gaps(docs, least)))
}

/// Reads the gaps of the block at a place. The answer is the place behind the block.
pub(crate) fn read_block(
    bytes: &[u8],
    at: usize,
    gaps: &mut [u32; 128],
) -> Result<usize, PayloadFault>
    requires { at ≤ length bytes.now }
    ensures { ReadsBlock bytes.now at gaps.new result }
{
    if at == bytes.len() {
        return Err(PayloadFault::Cut);
    }
    let width = bytes[at];
    if width > 32 {
        return Err(PayloadFault::Shape);
    }
    let size = 16 * usize::from(width);
    if bytes.len() - at - 1 < size {
        return Err(PayloadFault::Cut);
    }
    let end = at + 1 + size;
    unpack128(&bytes[at + 1..end], width, gaps);
    if width128(gaps) != width {
        return Err(PayloadFault::Shape);
    }
    Ok(end)
}
