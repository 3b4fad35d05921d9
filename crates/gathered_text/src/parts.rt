//! Parts of a text put at a place of a row. Each call answers the place behind its part, so that a caller keeps it in a
//! register: a length in memory would have to be stored and loaded again for each part.

ghost use Rattle.std.specs.Prelude.{◌≡◌, ◌+◌, ◌≤◌, ◌<◌, [], ◌∷◌, ◌++◌, length, decimal, take};

use crate::copying::copy_text;
use crate::digit_count::{digit_count, three_digits};
use crate::short_text::ShortText;
use itoa::write_digits;
use std::simd::prelude::*;

/// Puts a short text at a place. All of its row is moved, or its first half where the text ends there. That takes no
/// call, and a branch that goes the same way line after line.
#[inline(always)]
pub fn put_short(to: &mut [u8], at: usize, text: &ShortText) -> usize
    requires { at + 64 ≤ length to.old }
    ensures text { take result to.new ≡ take at to.old ++ text.now }
    ensures end { result ≡ at + length text.now }
    ensures few { result ≤ at + 64 }
{
    let row: &[u8] = text.row();
    let len = text.len();
    let first = u8x16::from_slice(row);
    let second = u8x16::from_slice(&row[16..]);
    first.copy_to_slice(&mut to[at..]);
    second.copy_to_slice(&mut to[at + 16..]);
    if len <= 32 {
        return at + len;
    }
    let third = u8x16::from_slice(&row[32..]);
    let fourth = u8x16::from_slice(&row[48..]);
    third.copy_to_slice(&mut to[at + 32..]);
    fourth.copy_to_slice(&mut to[at + 48..]);
    at + len
}

/// Puts bytes at a place.
#[inline(always)]
pub fn put_text(to: &mut [u8], at: usize, bytes: &[u8]) -> usize
    requires { at + length bytes.now ≤ length to.old }
    ensures text { take result to.new ≡ take at to.old ++ bytes.now }
    ensures end { result ≡ at + length bytes.now }
{
    let end = at + bytes.len();
    copy_text(&mut to[at..end], bytes);
    end
}

/// Puts a byte at a place.
#[inline(always)]
pub fn put_byte(to: &mut [u8], at: usize, byte: u8) -> usize
    requires { at < length to.old }
    ensures text { take result to.new ≡ take at to.old ++ byte ∷ [] }
    ensures end { result ≡ at + 1 }
{
    to[at] = byte;
    at + 1
}

/// Puts the digits of a number at a place.
#[inline(always)]
pub fn put_number(to: &mut [u8], at: usize, number: u64) -> usize
    requires { at + 20 ≤ length to.old }
    ensures text { take result to.new ≡ take at to.old ++ decimal number }
    ensures end { result ≡ at + length (decimal number) }
    ensures few { result ≤ at + 20 }
{
    // Most ranks and scores have three digits.
    if number < 100 || number >= 1000 {
        return put_digits(to, at, number);
    }
    let end = at + 3;
    to[at..end].copy_from_slice(&three_digits(number));
    end
}

/// The same for a number of any size.
#[inline(never)]
fn put_digits(to: &mut [u8], at: usize, number: u64) -> usize
    requires { at + 20 ≤ length to.old }
    ensures text { take result to.new ≡ take at to.old ++ decimal number }
    ensures end { result ≡ at + length (decimal number) }
    ensures few { result ≤ at + 20 }
{
    let end = at + digit_count(number);
    write_digits(number, to, end);
    end
}
