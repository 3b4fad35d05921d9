ghost use Rattle.std.specs.Prelude.{◌+◌, ◌≤◌, length, take, IfSome};
ghost use Rattle.ciff_read.specs.Private.Usual.{IsPosting, IsUsual, HasBytes};

use crate::posting_fields::PostingFields;
use std::simd::prelude::*;

/// The first byte of a posting: the field number 4 with the wire type of bytes.
pub const POSTING_TAG: u8 = 0x22;

/// The eight bytes at a posting whose gap has one, two or three bytes: the bits that are the same in
/// all such postings (the first three bytes, the top bits of the gap and of the tf, and the tag of the tf), what
/// these are, and the bits of the gap from its first byte on. The last of each four is no posting's.
const BITS: [u64; 12] = [
    0x0000_80ff_80ff_ffff,
    0x0080_ff80_80ff_ffff,
    0x80ff_8080_80ff_ffff,
    0,
    0x0000_0010_0008_0422,
    0x0000_1000_8008_0522,
    0x0010_0080_8008_0622,
    1,
    0x7f,
    0x7f7f,
    0x7f_7f7f,
    0,
];

/// A posting of a list in its usual spelling, with a gap of one to three bytes and a tf of one byte,
/// neither of them 0, which ends at a place or before it, and the place behind its field. Nearly all
/// postings are spelled so. There is no branch on the size of the gap, as it can't be foreseen.
#[inline(always)]
pub fn usual_posting(bytes: &[u8], at: usize, end: usize) -> Option<(PostingFields, usize)>
    requires { at + 8 ≤ length bytes.now }
    ensures posting { IfSome result (λ x. IsPosting (take end bytes.now) at x.0 x.1) }
    ensures usual { IfSome result (λ x. IsUsual x.0) }
    ensures long { IfSome result (λ x. at + 6 ≤ x.1) }
{
    let word = word_at(bytes, at);
    // The size of the body, 4 to 6, says how many bytes the gap has.
    let more = (word / 256 % 4) as usize;
    if word & BITS[more] != BITS[more + 4] {
        return None;
    }
    let last = at + more;
    let tf = u64::from(bytes[last + 5]);
    let next = last + 6;
    if next > end || tf == 0 {
        return None;
    }
    // Groups of seven bits in bytes: the first ones are put four times, and the second ones twice.
    let gap = word / 16_777_216 & BITS[more + 8];
    let docid = (gap + gap % 32_768 + 2 * (gap % 128)) / 4;
    if docid == 0 {
        return None;
    }
    Some((PostingFields { docid, tf }, next))
}

/// The eight bytes at a place as a number.
#[inline(always)]
fn word_at(bytes: &[u8], at: usize) -> u64
    requires { at + 8 ≤ length bytes.now }
    ensures { HasBytes bytes.now at result }
{
    Simd::<u64, 1>::from_le_bytes(u8x8::from_slice(&bytes[at..])).to_array()[0]
}
