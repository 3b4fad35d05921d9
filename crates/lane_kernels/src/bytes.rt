// Sixteen bytes at a time.
ghost use Rattle.std.specs.Prelude.{◌≡◌, ◌<◌, ◌↔◌, All, IsTrue};

use std::simd::prelude::*;

/// Whether every byte is below 128, as the one byte of a short varint is.
pub fn small16(bytes: &[u8; 16]) -> bool
    ensures { IsTrue result ↔ All (λ byte. byte < 128) bytes.now }
{
    u8x16::from_slice(bytes).simd_lt(u8x16::splat(128)).all()
}

/// Writes each byte as a number of 32 bits.
pub fn widen16(bytes: &[u8; 16], out: &mut [u32; 16])
    ensures { out.new ≡ bytes.now }
{
    u8x16::from_slice(bytes)
        .cast::<u32>()
        .copy_to_slice(&mut out[..]);
}
