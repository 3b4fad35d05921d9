ghost use Rattle.std.specs.Prelude.{◌<◌, length};
ghost use Rattle.wire_fields.specs.Places.{ReadsVarint};

use crate::fault::{WireFault, WireWhy};

/// Reads the varint at a place: groups of 7 bits, the lowest first, each byte but the last
/// with its top bit set. The answer is the value and the place behind it.
///
/// Cut where the bytes end before a byte without the top bit, unless a tenth byte above 1
/// stands there, which is a LongVarint.
#[inline(always)]
pub fn read_varint(bytes: &[u8], at: usize) -> Result<(u64, usize), WireFault>
    ensures { ReadsVarint bytes.now at result }
{
    if at >= bytes.len() {
        return Err(WireFault {
            at,
            why: WireWhy::Cut,
        });
    }
    let first = bytes[at];
    if first < 128 {
        return Ok((u64::from(first), at + 1));
    }
    read_groups(bytes, at)
}

/// Reads a varint group by group.
#[inline(never)]
fn read_groups(bytes: &[u8], at: usize) -> Result<(u64, usize), WireFault>
    requires { at < length bytes.now }
    ensures { ReadsVarint bytes.now at result }
{
    let rest = &bytes[at..];
    let mut value: u64 = 0;
    let mut scale: u64 = 1;
    for group in 0..9 {
        if group >= rest.len() {
            return Err(WireFault {
                at,
                why: WireWhy::Cut,
            });
        }
        let byte = rest[group];
        if byte < 128 {
            return Ok((value + u64::from(byte) * scale, at + group + 1));
        }
        value += u64::from(byte - 128) * scale;
        scale *= 128;
    }
    if rest.len() < 10 {
        return Err(WireFault {
            at,
            why: WireWhy::Cut,
        });
    }
    let byte = rest[9];
    if byte > 1 {
        return Err(WireFault {
            at,
            why: WireWhy::LongVarint,
        });
    }
    Ok((value + u64::from(byte) * scale, at + 10))
}
