// The shape of a block, in which row r holds the numbers 4r to 4r + 3, one in each lane.
ghost use Rattle.std.specs.Prelude.{◌≡◌, ◌+◌, ◌≤◌, length};
ghost use Rattle.std.specs.Simd.Lanes.{chunk, put_chunk};

use std::simd::prelude::*;

pub(crate) const ROWS: usize = 32;

pub(crate) const WORD_BITS: usize = 32;

/// Four neighbouring numbers of a list.
#[inline(always)]
pub(crate) fn load(values: &[u32], place: usize) -> u32x4
    requires { place + 4 ≤ length values.now }
    ensures lanes { result ≡ chunk place 4 values.now }
    ensures four { length result ≡ 4 }
{
    u32x4::from_slice(&values[place..])
}

#[inline(always)]
pub(crate) fn store(lanes: u32x4, values: &mut [u32], place: usize)
    requires four { length lanes ≡ 4 }
    requires within { place + 4 ≤ length values.old }
    ensures { values.new ≡ put_chunk place values.old lanes }
{
    lanes.copy_to_slice(&mut values[place..]);
}
