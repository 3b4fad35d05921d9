// The sum of a word's gaps, which tells its last document.
ghost use Rattle.std.specs.Prelude.{◌≡◌, ◌<◌, ◌≤◌, sum};
ghost use Rattle.codec_simple8.specs.Simple8.{count_of, fields, width_of};

use crate::selector::Selector;

/// The sum of a word's gaps.
#[inline(always)]
#[tactic(auto, unfolding(crate::specs::Simple8::count_of, crate::specs::Simple8::width_of))]
pub(crate) fn sum_gaps(values: u64, selector: Selector) -> u64
    ensures sum { result ≡ sum (fields (width_of selector.number) (count_of selector.number) values) }
    ensures most { result ≤ values }
{
    match selector.number {
        0 => sum_values(values, 240, 0),
        1 => sum_values(values, 120, 0),
        2 => sum_values(values, 60, 1),
        3 => sum_values(values, 30, 2),
        4 => sum_values(values, 20, 3),
        5 => sum_values(values, 15, 4),
        6 => sum_values(values, 12, 5),
        7 => sum_values(values, 10, 6),
        8 => sum_values(values, 8, 7),
        9 => sum_values(values, 7, 8),
        10 => sum_values(values, 6, 10),
        11 => sum_values(values, 5, 12),
        12 => sum_values(values, 4, 15),
        13 => sum_values(values, 3, 20),
        14 => sum_values(values, 2, 30),
        _ => sum_values(values, 1, 60),
    }
}

/// The same for `count` values of `width` bits each, the first in the lowest bits.
#[inline(always)]
fn sum_values(values: u64, count: usize, width: u32) -> u64
    requires { width < 64 }
    ensures sum { result ≡ sum (fields width count values) }
    ensures most { result ≤ values }
{
    let mask = (1u64 << width) - 1;
    let mut rest = values;
    let mut sum = 0;
    for _ in 0..count {
        sum += rest & mask;
        rest >>= width;
    }
    sum
}
