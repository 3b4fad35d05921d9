ghost use Rattle.std.specs.Prelude.{◌≡◌, ◌≤◌, length};

use std::simd::prelude::*;

/// Copies a text. One of 4 to 32 bytes, as nearly all names have, takes a few moves, which may overlap, and no call.
#[inline(always)]
pub fn copy_text(to: &mut [u8], from: &[u8])
    requires { length to.old ≡ length from.now }
    ensures { to.new ≡ from.now }
{
    let len = from.len();
    if len >= 8 && len <= 32 {
        copy_by_eights(to, from);
    } else if len >= 4 && len < 8 {
        let first = u8x4::from_slice(from);
        let last = u8x4::from_slice(&from[len - 4..]);
        first.copy_to_slice(to);
        last.copy_to_slice(&mut to[len - 4..]);
    } else {
        to.copy_from_slice(from);
    }
}

/// Copies a text of 8 to 32 bytes by four moves, all of which a shorter one takes too: names have any of these lengths
/// by turns, and a branch between them would often be foretold wrongly.
#[inline(always)]
fn copy_by_eights(to: &mut [u8], from: &[u8])
    requires sizes { length to.old ≡ length from.now }
    requires some { 8 ≤ length from.now }
    requires few { length from.now ≤ 32 }
    ensures { to.new ≡ from.now }
{
    let last = from.len() - 8;
    let second = last.min(8);
    let third = last.min(16);
    let first_bytes = u8x8::from_slice(from);
    let second_bytes = u8x8::from_slice(&from[second..]);
    let third_bytes = u8x8::from_slice(&from[third..]);
    let last_bytes = u8x8::from_slice(&from[last..]);
    first_bytes.copy_to_slice(to);
    second_bytes.copy_to_slice(&mut to[second..]);
    third_bytes.copy_to_slice(&mut to[third..]);
    last_bytes.copy_to_slice(&mut to[last..]);
}
