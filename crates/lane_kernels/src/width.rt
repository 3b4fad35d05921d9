// The width of a block of 128 numbers.
ghost use Rattle.std.specs.Prelude.{◌≡◌, ℕ, ◌<◌, ◌≤◌, ◌^◌, ◌↔◌, All};
ghost use Rattle.lane_kernels.specs.Width.{least_width};

use crate::lanes::{ROWS, load};
use std::simd::prelude::*;

/// The least number of bits, 0 to 32, that holds each of the values.
pub fn width128(values: &[u32; 128]) -> u8
    ensures value { result ≡ least_width values.now }
    ensures within { result ≤ 32 }
    ensures holds { All (λ value. value < 2 ^ result) values.now }
    ensures least { (width : ℕ) → All (λ value. value < 2 ^ width) values.now
        → result ≤ width }
{
    (32 - union128(values).leading_zeros()) as u8
}

/// A number with each bit that one of the values has.
fn union128(values: &[u32; 128]) -> u32
    ensures { (width : ℕ)
        → (result < 2 ^ width) ↔ All (λ value. value < 2 ^ width) values.now }
{
    let mut union = u32x4::splat(0);
    for row in 0..ROWS {
        union |= load(values, 4 * row);
    }
    union.reduce_or()
}
