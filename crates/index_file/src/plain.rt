ghost use Rattle.std.specs.Prelude.{◌≤◌, ◌+◌, ◌-◌, All, IsTrue, length, take, drop};
ghost use Rattle.index_file.specs.Private.Plain.{IsPlain};

use std::simd::prelude::*;

/// Whether each byte is a visible character of ASCII, as in most names. Eight bytes are looked at
/// together, some of them twice, so that none is looked at alone but in the shortest texts.
pub(crate) fn is_plain(bytes: &[u8]) -> bool
    ensures { IsTrue result → All IsPlain bytes.now }
{
    if bytes.len() < 8 {
        return is_short_plain(bytes);
    }
    are_parts_plain(bytes) && is_part_plain(bytes, bytes.len() - 8)
}

/// The same, byte by byte.
fn is_short_plain(bytes: &[u8]) -> bool
    ensures { IsTrue result → All IsPlain bytes.now }
{
    bytes.iter().all(|b| *b > 32 && *b < 127)
}

/// The same for the bytes of each whole part of eight.
#[inline(always)]
fn are_parts_plain(bytes: &[u8]) -> bool
    ensures { IsTrue result → All IsPlain (take (length bytes.now - 7) bytes.now) }
{
    let mut at = 0;
    'parts: while bytes.len() - at >= 8 {
        if !is_part_plain(bytes, at) {
            return false;
        }
        at += 8;
    }
    true
}

/// The same for the eight bytes from a place on.
#[inline(always)]
fn is_part_plain(bytes: &[u8], at: usize) -> bool
    requires { at + 8 ≤ length bytes.now }
    ensures { IsTrue result → All IsPlain (take 8 (drop at bytes.now)) }
{
    let eight = u8x8::from_slice(&bytes[at..]);
    eight.simd_gt(u8x8::splat(32)).all() && eight.simd_lt(u8x8::splat(127)).all()
}
