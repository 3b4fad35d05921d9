ghost use Rattle.std.specs.Prelude.{◌≡◌, ◌≤◌, ◌+◌, length};
ghost use Rattle.index_layout.specs.Bytes.{u16_in, u32_in, u64_in};

use std::simd::prelude::*;

// Each number is one load. Where it is put together of single bytes, the compiler loads these one by one if only parts
// of it are compared.

/// The number of 16 bits at a place.
#[inline(always)]
pub fn u16_at(bytes: &[u8], at: usize) -> u16
    requires { at + 2 ≤ length bytes.now }
    ensures { result ≡ u16_in bytes.now at }
{
    Simd::<u16, 1>::from_le_bytes(u8x2::from_slice(&bytes[at..])).to_array()[0]
}

/// The number of 32 bits at a place.
#[inline(always)]
pub fn u32_at(bytes: &[u8], at: usize) -> u32
    requires { at + 4 ≤ length bytes.now }
    ensures { result ≡ u32_in bytes.now at }
{
    Simd::<u32, 1>::from_le_bytes(u8x4::from_slice(&bytes[at..])).to_array()[0]
}

/// The number of 64 bits at a place.
#[inline(always)]
pub fn u64_at(bytes: &[u8], at: usize) -> u64
    requires { at + 8 ≤ length bytes.now }
    ensures { result ≡ u64_in bytes.now at }
{
    Simd::<u64, 1>::from_le_bytes(u8x8::from_slice(&bytes[at..])).to_array()[0]
}
