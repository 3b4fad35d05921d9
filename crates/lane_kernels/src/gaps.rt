// The gaps of 128 rising numbers: how far each is above the least number that it may be.
ghost use Rattle.std.specs.Prelude.{◌≡◌, ℕ, ◌+◌, ◌<◌, ◌^◌, ◌↔◌, IsTrue, length, slice_index, sum, take};
ghost use Rattle.lane_kernels.specs.Gaps.{running};

use crate::lanes::{ROWS, load, store};
use std::simd::prelude::*;

/// Whether the last of 128 rising numbers is below `d`: the first is `before` plus its gap, and each
/// later one is one more than the number before it, plus its gap. The sum does not wrap.
pub fn fits128(before: u32, gaps: &[u32; 128], d: u32) -> bool
    ensures { IsTrue result ↔ (before + sum gaps.now + 127 < d) }
{
    u64::from(before) + sum128(gaps) + 127 < u64::from(d)
}

fn sum128(gaps: &[u32; 128]) -> u64
    ensures value { result ≡ sum gaps.now }
    ensures small { result < 2 ^ 40 }
{
    let mut sums = u64x4::splat(0);
    for row in 0..ROWS {
        sums = sums.strict_add(load(gaps, 4 * row).cast::<u64>());
    }
    sums.strict_reduce_sum()
}

/// Replaces the gaps of 128 rising numbers by the numbers, in place: the first is `before` plus its
/// gap, and each later one is one more than the number before it, plus its gap.
pub fn running128(before: u32, gaps: &mut [u32; 128])
    requires { before + sum gaps.old + 127 < 2 ^ 26 }
    ensures numbers { gaps.new ≡ running before gaps.old }
    ensures each { (i : ℕ) → i < 128
        → slice_index gaps.new i ≡ before + sum (take (i + 1) gaps.old) + i }
{
    let mut least = u32x4::splat(before);
    for row in 0..ROWS {
        let numbers = running4(load(gaps, 4 * row));
        store(numbers + least, gaps, 4 * row);
        least += (numbers + u32x4::splat(1)).swizzle([3, 3, 3, 3]);
    }
}

/// The numbers with these gaps, from 0 on.
#[inline(always)]
fn running4(gaps: u32x4) -> u32x4
    requires four { length gaps ≡ 4 }
    requires room { sum gaps + 3 < 2 ^ 32 }
    ensures { result ≡ running 0 gaps }
{
    let zero = u32x4::splat(0);
    let pairs = gaps + gaps.shuffle(zero, [4, 0, 1, 2]);
    let sums = pairs + pairs.shuffle(zero, [4, 4, 0, 1]);
    sums + u32x4::from_array([0, 1, 2, 3])
}
