// Blocks of 128 numbers, packed to one width.
ghost use Rattle.std.specs.Prelude.{◌≡◌, ℕ, ◌+◌, ◌*◌, ◌/◌, ◌^◌, ◌<◌, ◌≤◌, All, length, slice_index};
ghost use Rattle.std.specs.Simd.Lanes.{digits_l, number_l, put_chunk};
ghost use Rattle.lane_kernels.specs.Block.{block_byte, block_bytes};
ghost use Rattle.lane_kernels.specs.Private.Lanes.{pending_lanes};

use crate::lanes::{ROWS, WORD_BITS, load};
use std::simd::prelude::*;

/// Packs 128 values to `width` bits each. The block has `16 * width` bytes; `width` is at most 32,
/// and holds each of the values.
pub fn pack128(values: &[u32; 128], width: u8, out: &mut [u8])
    requires width { width ≤ 32 }
    requires bytes { length out.old ≡ 16 * width }
    requires fits { All (λ value. value < 2 ^ width) values.now }
    ensures { out.new ≡ block_bytes values.now width }
{
    if width > 0 {
        pack_rows(values, usize::from(width), out);
    }
}

fn pack_rows(values: &[u32; 128], width: usize, out: &mut [u8])
    requires some { 0 < width }
    requires width { width ≤ 32 }
    requires bytes { length out.old ≡ 16 * width }
    requires fits { All (λ value. value < 2 ^ width) values.now }
    ensures { out.new ≡ block_bytes values.now width }
{
    let mut pending = u32x4::splat(0);
    for row in 0..ROWS {
        pending = pack_row(values, width, row, pending, out);
    }
}

/// Adds a row to the bits that wait for their word to be full, writes the word once it is, and
/// returns the bits that wait then.
fn pack_row(values: &[u32; 128], width: usize, row: usize, pending: u32x4, out: &mut [u8]) -> u32x4
    requires some { 0 < width }
    requires width { width ≤ 32 }
    requires row { row < 32 }
    requires bytes { length out.old ≡ 16 * width }
    requires fits { All (λ value. value < 2 ^ width) values.now }
    requires pending { pending ≡ pending_lanes values.now width (row * width) }
    requires done { (k : ℕ) → k < 16 * (row * width / 32)
        → slice_index out.old k ≡ block_byte values.now width k }
    ensures pending { result ≡ pending_lanes values.now width (row * width + width) }
    ensures done { (k : ℕ) → k < 16 * ((row * width + width) / 32)
        → slice_index out.new k ≡ block_byte values.now width k }
{
    let word = row * width / WORD_BITS;
    let shift = row * width % WORD_BITS;
    let lanes = load(values, 4 * row);
    let joined = pending | (lanes << u32x4::splat(shift as u32));
    if shift + width < WORD_BITS {
        return joined;
    }
    store_words(joined, out, word);
    (lanes >> u32x4::splat(1)) >> u32x4::splat((WORD_BITS - 1 - shift) as u32)
}

/// Writes word `word` of each lane.
#[inline(always)]
fn store_words(lanes: u32x4, out: &mut [u8], word: usize)
    requires { 16 * word + 16 ≤ length out.old }
    ensures { out.new
        ≡ put_chunk (16 * word) out.old (digits_l 256 16 (number_l (2 ^ 32) lanes)) }
{
    lanes.to_le_bytes().copy_to_slice(&mut out[16 * word..]);
}
