// Slots that stand for the bits of a bitmap, to which one weight is added where the bit is set.
ghost use Rattle.std.specs.Prelude.{◌≡◌, ℕ, ◌+◌, ◌*◌, ◌^◌, ◌<◌, ◌≤◌, ◌⊎◌, ◌==◌, ◌&&◌, count_by, length, slice_index};
ghost use Rattle.std.specs.Int.{bit_at};
ghost use Rattle.std.specs.List.{range_with_len};
ghost use Rattle.std.specs.Simd.Lanes.{sum_l};
ghost use Rattle.lane_kernels.specs.Adding.{added_where, is_near, near_where};
ghost use Rattle.lane_kernels.specs.Bitmap.{bit_of};
ghost use Rattle.lane_kernels.specs.Private.Lanes.{is_marked, weight_at};

use crate::lanes::{load, store};
use std::simd::prelude::*;

/// Adds `w` to the slots whose bits are set, and tells whether one of them is now at least `from` and at most
/// `from + w`. Slot i has bit i of the bytes; bit 0 is the lowest bit of the first byte.
pub fn add_where(slots: &mut [u32], bits: &[u8], w: u32, from: u32) -> bool
    requires size { length slots.old ≡ 8 * length bits.now }
    requires few { length bits.now ≤ 16 }
    requires fits { (i : ℕ) → i < length slots.old
        → slice_index slots.old i + w * bit_of bits.now i < 2 ^ 32 }
    ensures slots { slots.new ≡ added_where w bits.now slots.old }
    ensures near { result ≡ near_where w from bits.now slots.new }
{
    // How many are near, lane by lane.
    let mut nears = u32x4::splat(0);
    for at in 0..bits.len() {
        let (low, high) = marks_of(bits[at]);
        let half = add_four(slots, 8 * at, low, w, from, nears);
        nears = add_four(slots, 8 * at + 4, high, w, from, half);
    }
    nears.strict_reduce_sum() != 0
}

/// The bits of a byte, each in a lane of its own at its place: the low four, and the high four.
#[inline(always)]
fn marks_of(byte: u8) -> (u32x4, u32x4)
    ensures low { (k : ℕ) → k < 4 → is_marked result.0 k ≡ (bit_at byte k == 1) }
    ensures high { (k : ℕ) → k < 4 → is_marked result.1 k ≡ (bit_at byte (4 + k) == 1) }
{
    let lanes = u32x4::splat(u32::from(byte));
    let low = u32x4::from_array([1, 2, 4, 8]);
    let high = u32x4::from_array([16, 32, 64, 128]);
    (lanes & low, lanes & high)
}

/// Adds to four neighbouring slots where the lane of `marks` isn't 0, and counts those of them that are near now.
#[inline(always)]
fn add_four(slots: &mut [u32], place: usize, marks: u32x4, w: u32, from: u32, nears: u32x4) -> u32x4
    requires within { place + 4 ≤ length slots.old }
    requires fits { (k : ℕ) → k < 4
        → slice_index slots.old (place + k) + weight_at w marks k < 2 ^ 32 }
    requires lanes { length nears ≡ 4 }
    requires nears { sum_l nears + 4 < 2 ^ 32 }
    ensures length { length slots.new ≡ length slots.old }
    ensures lanes { length result ≡ 4 }
    ensures here { (k : ℕ) → k < 4
        → slice_index slots.new (place + k)
        ≡ slice_index slots.old (place + k) + weight_at w marks k }
    ensures others { (i : ℕ) → (i < place) ⊎ (place + 4 ≤ i)
        → slice_index slots.new i ≡ slice_index slots.old i }
    ensures nears { sum_l result ≡ sum_l nears
        + count_by (λ k. is_marked marks k && is_near w from (slice_index slots.new (place + k)))
        (range_with_len 0 4) }
{
    let zero = u32x4::splat(0);
    let weights = u32x4::splat(w);
    let unmarked = marks.simd_eq(zero);
    let new = load(slots, place) + unmarked.select(zero, weights);
    store(new, slots, place);
    let is_near = (new - u32x4::splat(from))
        .simd_le(weights)
        .select(u32x4::splat(1), zero);
    nears + unmarked.select(zero, is_near)
}
