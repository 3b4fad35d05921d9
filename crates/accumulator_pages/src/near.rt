// Which of the slots of set bits are near a score, eight at a time.
ghost use Rattle.std.specs.Prelude.{◌≡◌, ℕ, ◌+◌, ◌-◌, ◌*◌, ◌%◌, ◌^◌, ◌<◌, ◌≤◌, cond, length, nat_le, slice_index};
ghost use Rattle.std.specs.Int.{bit_at};
ghost use Rattle.lane_kernels.specs.Adding.{is_near};
ghost use Rattle.lane_kernels.specs.Bitmap.{bit_of};

use std::simd::prelude::*;

/// Of some set bits, whose slots are at least `w`, those whose slots are at least `from` and at most `from + w`. Slot i
/// has bit i of the bytes; bit 0 is the lowest bit of the first byte.
pub(crate) fn near_bits(slots: &[u32], bits: &[u8], w: u32, from: u32) -> [u8; 16]
    requires size { length slots.now ≡ 8 * length bits.now }
    requires few { length bits.now ≤ 16 }
    requires rose { (i : ℕ) → bit_of bits.now i ≡ 1 → w ≤ slice_index slots.now i }
    ensures { (i : ℕ) → bit_of result i
        ≡ cond (is_near w from (slice_index slots.now i)) (bit_of bits.now i) 0 }
{
    let mut near = [0u8; 16];
    for at in 0..bits.len() {
        near[at] = bits[at] & near_byte(slots, 8 * at, w, from);
    }
    near
}

/// A byte whose bit k tells whether slot `place + k` less `from` wraps to at most `w`.
#[inline(always)]
fn near_byte(slots: &[u32], place: usize, w: u32, from: u32) -> u8
    requires { place + 8 ≤ length slots.now }
    ensures { (k : ℕ) → k < 8 → bit_at result k
        ≡ cond (nat_le ((slice_index slots.now (place + k) + (2 ^ 32 - from)) % 2 ^ 32) w) 1 0 }
{
    // Where a slot is below `from` this wraps to a number above any weight that is in it.
    let above = u32x8::from_slice(&slots[place..]) - u32x8::splat(from);
    above.simd_le(u32x8::splat(w)).to_bitmask() as u8
}
