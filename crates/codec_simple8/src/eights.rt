// The documents of a word of selectors 5 to 11, eight at a time: its gaps have 4 to 12 bits.
ghost use Rattle.std.specs.Prelude.{◌≡◌, ℕ, ◌+◌, ◌*◌, ◌/◌, ◌%◌, ◌<◌, ◌≤◌, ◌^◌, ◌++◌, [], ◌∷◌, length, slice_index, take};
ghost use Rattle.std.specs.Simd.Lanes.{digits_l};
ghost use Rattle.jass_base.specs.Gaps.{docs_from};
ghost use Rattle.codec_simple8.specs.Simple8.{count_of, fields, width_of};
ghost use Rattle.jass_base.specs.declared.limits.TheConstants.{MOST_DOCUMENTS};

use crate::selector::Selector;
use std::simd::prelude::*;

/// The first selector whose words are put so.
const FIRST: usize = 5;

/// Which two bytes hold each of the first eight values, for selectors 5 to 11.
const PLACES: [[u8; 16]; 7] = [
    [0, 1, 0, 1, 1, 2, 1, 2, 2, 3, 2, 3, 3, 4, 3, 4],
    [0, 1, 0, 1, 1, 2, 1, 2, 2, 3, 3, 4, 3, 4, 4, 5],
    [0, 1, 0, 1, 1, 2, 2, 3, 3, 4, 3, 4, 4, 5, 5, 6],
    [0, 1, 0, 1, 1, 2, 2, 3, 3, 4, 4, 5, 5, 6, 6, 7],
    [0, 1, 1, 2, 2, 3, 3, 4, 4, 5, 5, 6, 6, 7, 7, 8],
    [0, 1, 1, 2, 2, 3, 3, 4, 5, 6, 6, 7, 7, 8, 8, 9],
    [0, 1, 1, 2, 3, 4, 4, 5, 6, 7, 7, 8, 9, 10, 10, 11],
];

/// What moves each of these values to the top of its two bytes.
const FACTORS: [[u16; 8]; 7] = [
    [4096, 256, 4096, 256, 4096, 256, 4096, 256],
    [2048, 64, 512, 16, 128, 1024, 32, 256],
    [1024, 16, 64, 256, 1024, 16, 64, 256],
    [512, 4, 8, 16, 32, 64, 128, 256],
    [256, 256, 256, 256, 256, 256, 256, 256],
    [64, 16, 4, 1, 64, 16, 4, 1],
    [16, 1, 16, 1, 16, 1, 16, 1],
];

/// Writes the documents of a word's gaps behind the first `filled` of a block, the first document at least `least`, and
/// then up to six more slots.
#[inline(always)]
pub(crate) fn put_eights(
    values: u64,
    selector: Selector,
    least: u32,
    out: &mut [u32],
    filled: usize,
)
    requires from { 5 ≤ selector.number }
    requires to { selector.number ≤ 11 }
    requires room { filled + 16 ≤ length out.old }
    requires least { least ≤ MOST_DOCUMENTS }
    ensures docs { take (filled + count_of selector.number) out.new ≡ take filled out.old
        ++ docs_from least (fields (width_of selector.number) (count_of selector.number) values) }
    ensures length { length out.new ≡ length out.old }
{
    if selector.number <= 7 {
        put_sixteen(values, selector, least, out, filled);
    } else {
        put_eight(values, selector, least, out, filled);
    }
}

/// Writes the documents of the first sixteen values.
#[inline(always)]
fn put_sixteen(values: u64, selector: Selector, least: u32, out: &mut [u32], filled: usize)
    requires from { 5 ≤ selector.number }
    requires to { selector.number ≤ 7 }
    requires room { filled + 16 ≤ length out.old }
    requires least { least ≤ MOST_DOCUMENTS }
    ensures docs { take (filled + 16) out.new
        ≡ take filled out.old ++ docs_from least (fields (width_of selector.number) 16 values) }
    ensures length { length out.new ≡ length out.old }
{
    put_eight(values, selector, least, out, filled);
    let behind = out[filled + 7] + 1;
    let rest = values >> (8 * selector.width());
    put_eight(rest, selector, behind, out, filled + 8);
}

/// The same for the first eight.
#[inline(always)]
fn put_eight(values: u64, selector: Selector, least: u32, out: &mut [u32], filled: usize)
    requires from { 5 ≤ selector.number }
    requires to { selector.number ≤ 11 }
    requires room { filled + 8 ≤ length out.old }
    requires least { least ≤ 2 * MOST_DOCUMENTS }
    ensures docs { take (filled + 8) out.new
        ≡ take filled out.old ++ docs_from least (fields (width_of selector.number) 8 values) }
    ensures length { length out.new ≡ length out.old }
{
    let sums = sums8(fields8(values, selector)) + u16x8::from_array([0, 1, 2, 3, 4, 5, 6, 7]);
    let docs = sums.cast::<u32>() + u32x8::splat(least);
    docs.copy_to_slice(&mut out[filled..]);
}

/// The first eight values.
#[inline(always)]
fn fields8(values: u64, selector: Selector) -> u16x8
    requires from { 5 ≤ selector.number }
    requires to { selector.number ≤ 11 }
    ensures { result ≡ fields (width_of selector.number) 8 values }
{
    let tops = pairs8(values, selector) * u16x8::from_slice(&FACTORS[selector.number - FIRST]);
    tops >> u16x8::splat(16 - selector.width() as u16)
}

/// The two bytes that hold each of the first eight values.
#[inline(always)]
fn pairs8(values: u64, selector: Selector) -> u16x8
    requires from { 5 ≤ selector.number }
    requires to { selector.number ≤ 11 }
    ensures lanes { length result ≡ 8 }
    ensures pairs { (k : ℕ) → k < 8 → slice_index result k
        ≡ values / 2 ^ (k * width_of selector.number / 8 * 8) % 2 ^ 16 }
{
    let places = u8x16::from_slice(&PLACES[selector.number - FIRST]);
    u16x8::from_le_bytes(bytes_of(values).swizzle_dyn(places))
}

/// The bytes of a number, the lowest first, and zeros behind them.
#[inline(always)]
fn bytes_of(values: u64) -> u8x16
    ensures { result ≡ digits_l 256 16 values }
{
    u64x2::from_array([values, 0]).to_le_bytes()
}

/// The sums of one value, of two, and so on up to eight.
#[inline(always)]
fn sums8(values: u16x8) -> u16x8
    ensures { (a b c d e f g h : ℕ) → values ≡ a ∷ b ∷ c ∷ d ∷ e ∷ f ∷ g ∷ h ∷ []
        → a + b + c + d + e + f + g + h < 2 ^ 16
        → result ≡ a ∷ (a + b) ∷ (a + b + c) ∷ (a + b + c + d) ∷ (a + b + c + d + e) ∷ (a + b + c + d + e + f)
        ∷ (a + b + c + d + e + f + g) ∷ (a + b + c + d + e + f + g + h) ∷ [] }
{
    let zero = u16x8::splat(0);
    let pairs = values + values.shuffle(zero, [8, 0, 1, 2, 3, 4, 5, 6]);
    let fours = pairs + pairs.shuffle(zero, [8, 8, 0, 1, 2, 3, 4, 5]);
    fours + fours.shuffle(zero, [8, 8, 8, 8, 0, 1, 2, 3])
}
