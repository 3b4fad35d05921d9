//! The shortest varint of a gap of documents, which has at most four bytes, put into gathered bytes.

ghost use Rattle.std.specs.Prelude.{◌≡◌, ◌≤◌, ◌<◌, ◌+◌, ◌^◌, ◌++◌, length, take};
ghost use Rattle.jass_base.specs.Wire.{short_varint};
ghost use Rattle.plain_codecs.specs.declared.varbyte.spelling.TheConstants.{ROOM};

/// How many bytes are gathered before they are appended to a row.
pub(crate) const ROOM: usize = 64;

/// The top bits of the bytes of a varint, of which all but the last are set, by how many bytes it has.
const TOP_BITS: [u32; 5] = [0, 0, 0x80, 0x8080, 0x80_8080];

/// How many bytes the shortest varint of a gap of documents has.
#[inline(always)]
pub(crate) fn short_length(gap: u32) -> u32
    requires { gap < 2 ^ 28 }
    ensures is { result ≡ length (short_varint gap) }
    ensures most { result ≤ 4 }
{
    1 + u32::from(gap >= 1 << 7) + u32::from(gap >= 1 << 14) + u32::from(gap >= 1 << 21)
}

/// Puts the shortest varint of a gap at a place of the gathered bytes, and returns the place behind it. Four bytes are
/// put, so that nothing branches on a size that can't be foreseen; those too many are overwritten by the next gap.
#[inline(always)]
pub(crate) fn put_short(gap: u32, at: usize, bytes: &mut [u8; ROOM]) -> usize
    requires small { gap < 2 ^ 28 }
    requires room { at + 4 ≤ ROOM }
    ensures bytes { take result bytes.new ≡ take at bytes.old ++ short_varint gap }
    ensures few { result ≤ at + 4 }
{
    let size = short_length(gap);
    let four = spelled(gap, size);
    bytes[at] = four[0];
    bytes[at + 1] = four[1];
    bytes[at + 2] = four[2];
    bytes[at + 3] = four[3];
    at + size as usize
}

/// Four bytes that begin with the shortest varint of a gap. Its groups of 7 bits are moved apart one after the other,
/// since the four bytes are put as one number.
#[inline(always)]
fn spelled(gap: u32, size: u32) -> [u8; 4]
    requires small { gap < 2 ^ 28 }
    requires size { size ≡ length (short_varint gap) }
    requires few { size ≤ 4 }
    ensures begin { take size result ≡ short_varint gap }
    ensures four { length result ≡ 4 }
{
    let first_apart = gap + gap / 128 * 128;
    let second_apart = first_apart + first_apart / 32_768 * 32_768;
    let all_apart = second_apart + second_apart / 8_388_608 * 8_388_608;
    (all_apart + TOP_BITS[size as usize]).to_le_bytes()
}
