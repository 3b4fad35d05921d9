ghost use Rattle.std.specs.Prelude.{◌≡◌, ◌+◌, ◌≤◌, drop, length};
ghost use Rattle.codec_simple8.specs.Simple8.{word_in};

use std::simd::prelude::*;

/// The word at a place.
#[inline(always)]
pub(crate) fn word_at(bytes: &[u8], at: usize) -> u64
    requires { at + 8 ≤ length bytes.now }
    ensures { result ≡ word_in (drop at bytes.now) }
{
    Simd::<u64, 1>::from_le_bytes(u8x8::from_slice(&bytes[at..])).to_array()[0]
}
