// Blocks of 128 numbers that were packed to one width.
ghost use Rattle.std.specs.Prelude.{◌≡◌, ℕ, ◌+◌, ◌*◌, ◌%◌, ◌<◌, ◌≤◌, length, slice_index};
ghost use Rattle.lane_kernels.specs.Block.{block_value, block_values};
ghost use Rattle.lane_kernels.specs.Private.Lanes.{lane_numbers, lane_words};

use crate::lanes::{ROWS, WORD_BITS, store};
use crate::zeros::fill_zero;
use std::simd::prelude::*;

const ROWS_AT_ONCE: usize = 8;

/// Writes the 128 numbers of a packed block to `out`. The block has `16 * width` bytes, and
/// `width` is at most 32.
pub fn unpack128(bytes: &[u8], width: u8, out: &mut [u32; 128])
    requires width { width ≤ 32 }
    requires bytes { length bytes.now ≡ 16 * width }
    ensures { out.new ≡ block_values bytes.now width }
{
    // Each width is compiled on its own, so that its shifts are constants.
    match width {
        0 => fill_zero(out),
        1 => unpack_at(bytes, 1, out),
        2 => unpack_at(bytes, 2, out),
        3 => unpack_at(bytes, 3, out),
        4 => unpack_at(bytes, 4, out),
        5 => unpack_at(bytes, 5, out),
        6 => unpack_at(bytes, 6, out),
        7 => unpack_at(bytes, 7, out),
        8 => unpack_at(bytes, 8, out),
        9 => unpack_at(bytes, 9, out),
        10 => unpack_at(bytes, 10, out),
        11 => unpack_at(bytes, 11, out),
        12 => unpack_at(bytes, 12, out),
        13 => unpack_at(bytes, 13, out),
        14 => unpack_at(bytes, 14, out),
        15 => unpack_at(bytes, 15, out),
        16 => unpack_at(bytes, 16, out),
        17 => unpack_at(bytes, 17, out),
        18 => unpack_at(bytes, 18, out),
        19 => unpack_at(bytes, 19, out),
        20 => unpack_at(bytes, 20, out),
        21 => unpack_at(bytes, 21, out),
        22 => unpack_at(bytes, 22, out),
        23 => unpack_at(bytes, 23, out),
        24 => unpack_at(bytes, 24, out),
        25 => unpack_at(bytes, 25, out),
        26 => unpack_at(bytes, 26, out),
        27 => unpack_at(bytes, 27, out),
        28 => unpack_at(bytes, 28, out),
        29 => unpack_at(bytes, 29, out),
        30 => unpack_at(bytes, 30, out),
        31 => unpack_at(bytes, 31, out),
        _ => unpack_at(bytes, 32, out),
    }
}

#[inline(always)]
fn unpack_at(bytes: &[u8], width: usize, out: &mut [u32; 128])
    requires some { 0 < width }
    requires width { width ≤ 32 }
    requires bytes { length bytes.now ≡ 16 * width }
    ensures { out.new ≡ block_values bytes.now width }
{
    for part in 0..ROWS / ROWS_AT_ONCE {
        unpack_rows(bytes, width, ROWS_AT_ONCE * part, out);
    }
}

/// Unpacks the eight rows from row `first` on: a loop so short that it is unrolled.
#[inline(always)]
fn unpack_rows(bytes: &[u8], width: usize, first: usize, out: &mut [u32; 128])
    requires some { 0 < width }
    requires width { width ≤ 32 }
    requires bytes { length bytes.now ≡ 16 * width }
    requires rows { first + 8 ≤ 32 }
    requires done { (k : ℕ) → k < 4 * first
        → slice_index out.old k ≡ block_value bytes.now width k }
    ensures { (k : ℕ) → k < 4 * (first + 8)
        → slice_index out.new k ≡ block_value bytes.now width k }
{
    for row in first..first + ROWS_AT_ONCE {
        store(row_at(bytes, width, row * width), out, 4 * row);
    }
}

/// One number of each lane, from bit `first` of the lane on. It lies in one word of its lane, or in
/// two neighbouring ones.
#[inline(always)]
fn row_at(bytes: &[u8], width: usize, first: usize) -> u32x4
    requires some { 0 < width }
    requires width { width ≤ 32 }
    requires words { length bytes.now % 16 ≡ 0 }
    requires within { first + width ≤ 2 * length bytes.now }
    ensures { result ≡ lane_numbers bytes.now width first }
{
    let word = first / WORD_BITS;
    let shift = first % WORD_BITS;
    let mask = u32x4::splat(u32::MAX >> (WORD_BITS - width));
    let low = words_at(bytes, word) >> u32x4::splat(shift as u32);
    if shift + width <= WORD_BITS {
        low & mask
    } else {
        let high = words_at(bytes, word + 1) << u32x4::splat((WORD_BITS - shift) as u32);
        (low | high) & mask
    }
}

/// Word `word` of each lane.
#[inline(always)]
fn words_at(bytes: &[u8], word: usize) -> u32x4
    requires { 16 * word + 16 ≤ length bytes.now }
    ensures { result ≡ lane_words bytes.now word }
{
    u32x4::from_le_bytes(u8x16::from_slice(&bytes[16 * word..]))
}
