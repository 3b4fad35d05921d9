// Bitmaps of up to 128 bits.
ghost use Rattle.std.specs.Prelude.{◌≡◌, ◌+◌, ◌/◌, ◌%◌, ◌^◌, ◌≤◌, ◌++◌, length, take};
ghost use Rattle.std.specs.Simd.Lanes.{number_l};
ghost use Rattle.lane_kernels.specs.Bitmap.{set_bits};
ghost use Rattle.lane_kernels.specs.Private.Bitmap.{word_bits};

use std::simd::prelude::*;

/// Writes the numbers `base` plus i of the set bits i of the bytes, rising, to the front of `out`,
/// and returns how many there are. Bit 0 is the lowest bit of the first byte. What stands behind
/// them in `out` is left open.
pub fn bits_to_docs(bytes: &[u8], base: u32, out: &mut [u32; 128]) -> usize
    requires bytes { length bytes.now ≤ 16 }
    requires base { base ≤ 2 ^ 26 }
    ensures count { result ≡ length (set_bits base bytes.now) }
    ensures front { take result out.new ≡ set_bits base bytes.now }
{
    let (low, high) = words_of(bytes);
    let count = push_bits(low, base, out, 0);
    push_bits(high, base + 64, out, count)
}

/// The bytes as one number, the first byte the lowest: its low 64 bits, and those above.
fn words_of(bytes: &[u8]) -> (u64, u64)
    requires { length bytes.now ≤ 16 }
    ensures low { result.0 ≡ number_l 256 bytes.now % 2 ^ 64 }
    ensures high { result.1 ≡ number_l 256 bytes.now / 2 ^ 64 }
{
    if bytes.len() == 16 {
        return words_of_16(bytes);
    }
    let mut padded = [0u8; 16];
    padded[..bytes.len()].copy_from_slice(bytes);
    words_of_16(&padded)
}

fn words_of_16(bytes: &[u8]) -> (u64, u64)
    requires { length bytes.now ≡ 16 }
    ensures low { result.0 ≡ number_l 256 bytes.now % 2 ^ 64 }
    ensures high { result.1 ≡ number_l 256 bytes.now / 2 ^ 64 }
{
    let words = u64x2::from_le_bytes(u8x16::from_slice(bytes)).to_array();
    (words[0], words[1])
}

/// Writes the numbers of a word's set bits behind the first `count` numbers of `out`.
fn push_bits(word: u64, base: u32, out: &mut [u32; 128], count: usize) -> usize
    requires room { count ≤ 64 }
    requires base { base ≤ 2 ^ 27 }
    ensures count { result ≡ count + length (word_bits base word) }
    ensures most { result ≤ count + 64 }
    ensures front { take result out.new ≡ take count out.old ++ word_bits base word }
{
    let mut rest = word;
    let mut filled = count;
    while rest != 0 {
        out[filled] = base + rest.trailing_zeros();
        rest &= rest - 1;
        filled += 1;
    }
    filled
}
