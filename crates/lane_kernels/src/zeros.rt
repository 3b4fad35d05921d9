// Slots that are zero.
ghost use Rattle.std.specs.Prelude.{◌≡◌, ◌==◌, ℕ, ◌<◌, ◌≤◌, ◌≢◌, ◌↔◌, false, All, IsNone, length, position, replicate, slice_index};

use std::simd::prelude::*;

const LANES: usize = 16;

/// Sets every slot to zero.
pub fn fill_zero(slots: &mut [u32])
    ensures { slots.new ≡ replicate (length slots.old) 0 }
{
    slots.fill(0);
}

/// The place of the first slot that is zero, if there is one.
pub fn first_zero(slots: &[u32]) -> Option<usize>
    ensures place { result ≡ position (λ slot. slot == 0) slots.now }
    ensures none { IsNone result ↔ All (λ slot. slot ≢ 0) slots.now }
{
    let mut at = 0;
    while at + LANES <= slots.len() {
        let zeros = u32x16::from_slice(&slots[at..])
            .simd_eq(u32x16::splat(0))
            .to_bitmask();
        if zeros != 0 {
            return Some(at + zeros.trailing_zeros() as usize);
        }
        at += LANES;
    }
    first_zero_from(slots, at)
}

fn first_zero_from(slots: &[u32], from: usize) -> Option<usize>
    requires within { from ≤ length slots.now }
    requires before { (k : ℕ) → k < from → (slice_index slots.now k == 0) ≡ false }
    ensures { result ≡ position (λ slot. slot == 0) slots.now }
{
    for at in from..slots.len() {
        if slots[at] == 0 {
            return Some(at);
        }
    }
    None
}
