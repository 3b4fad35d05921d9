ghost use Rattle.std.specs.Prelude.{◌≡◌, ◌≤◌, ◌<◌, ◌-◌, ◌^◌, ◌++◌, length, take, drop, slice_index, Ok, Err, OnOk, OnErr, IfOk, IfErr, IsOk};
ghost use Rattle.jass_base.specs.Gaps.{gap_in};
ghost use Rattle.jass_base.specs.Wire.{short_varint};

use crate::faults::NoMemory;
use crate::payload_fault::PayloadFault;
use crate::row::Row;

/// How many bytes the shortest varint of a gap has. A sum, since which of them a gap has can't be foreseen: branches
/// cost a twentieth of the time of `import`.
#[inline]
pub fn gap_length(gap: u32) -> u64
    ensures is { result ≡ length (short_varint gap) }
    ensures most { result ≤ 5 }
    ensures few { gap < 2 ^ 28 → result ≤ 4 }
{
    1 + u64::from(gap >= 1 << 7)
        + u64::from(gap >= 1 << 14)
        + u64::from(gap >= 1 << 21)
        + u64::from(gap >= 1 << 28)
}

/// Appends the shortest varint of a gap, or nothing where memory is refused. Of a gap below 2^28 four bytes are
/// appended, and those too many cut off, so that nothing branches on a size that can't be foreseen.
#[inline(always)]
pub fn put_gap(gap: u32, out: &mut Row<u8>) -> Result<(), NoMemory>
    ensures ok { OnOk result (out.new ≡ out.old ++ short_varint gap) }
    ensures err { OnErr result (out.new ≡ out.old) }
{
    if gap >= 1 << 28 {
        return put_five(gap, out);
    }
    out.extend(&spelled(gap))?;
    out.truncate(out.len() - (4 - gap_length(gap) as usize));
    Ok(())
}

/// The same for five bytes, which no gap of documents has.
#[inline(never)]
fn put_five(gap: u32, out: &mut Row<u8>) -> Result<(), NoMemory>
    requires { 2 ^ 28 ≤ gap }
    ensures ok { OnOk result (out.new ≡ out.old ++ short_varint gap) }
    ensures err { OnErr result (out.new ≡ out.old) }
{
    out.extend(&[
        (gap % 128) as u8 + 128,
        (gap / 128 % 128) as u8 + 128,
        (gap / 16_384 % 128) as u8 + 128,
        (gap / 2_097_152 % 128) as u8 + 128,
        (gap / 268_435_456) as u8,
    ])?;
    Ok(())
}

/// Four bytes that begin with the shortest varint of a gap.
#[inline(always)]
fn spelled(gap: u32) -> [u8; 4]
    requires { gap < 2 ^ 28 }
    ensures { take (length (short_varint gap)) result ≡ short_varint gap }
{
    [
        (gap % 128) as u8 + 128 * u8::from(gap >= 1 << 7),
        (gap / 128 % 128) as u8 + 128 * u8::from(gap >= 1 << 14),
        (gap / 16_384 % 128) as u8 + 128 * u8::from(gap >= 1 << 21),
        (gap / 2_097_152) as u8,
    ]
}

/// Reads the gap at a place, a shortest varint of at most four bytes, so that it is below
/// 2^28. The answer is the gap and the place behind it.
///
/// Cut where the bytes end before the varint does. Shape where its fourth byte has the top
/// bit set, or where a shorter varint spells the same gap.
#[inline(always)]
pub fn read_gap(bytes: &[u8], at: usize) -> Result<(u32, usize), PayloadFault>
    ensures value { IfOk result (λ read. gap_in (drop at bytes.now)
        ≡ Ok (record { gap = read.0; size = read.1 - at })) }
    ensures limit { IfOk result (λ read. read.0 < 2 ^ 28) }
    ensures behind { IfOk result (λ read. at < read.1) }
    ensures within { IfOk result (λ read. read.1 ≤ length bytes.now) }
    ensures fault { IfErr result (λ fault. gap_in (drop at bytes.now) ≡ Err fault) }
{
    if at >= bytes.len() {
        return Err(PayloadFault::Cut);
    }
    let first = bytes[at];
    if first < 128 {
        return Ok((u32::from(first), at + 1));
    }
    read_groups(bytes, at)
}

/// Reads a gap of at least two groups of 7 bits.
#[inline(always)]
fn read_groups(bytes: &[u8], at: usize) -> Result<(u32, usize), PayloadFault>
    requires within { at < length bytes.now }
    requires more { 128 ≤ slice_index bytes.now at }
    ensures value { IfOk result (λ read. gap_in (drop at bytes.now)
        ≡ Ok (record { gap = read.0; size = read.1 - at })) }
    ensures limit { IfOk result (λ read. read.0 < 2 ^ 28) }
    ensures behind { IfOk result (λ read. at < read.1) }
    ensures within { IfOk result (λ read. read.1 ≤ length bytes.now) }
    ensures fault { IfErr result (λ fault. gap_in (drop at bytes.now) ≡ Err fault) }
{
    let left = bytes.len() - at;
    let first = u32::from(bytes[at]) - 128;
    if left < 2 {
        return Err(PayloadFault::Cut);
    }
    let second = u32::from(bytes[at + 1]);
    if second == 0 {
        return Err(PayloadFault::Shape);
    }
    if second < 128 {
        return Ok((first + second * 128, at + 2));
    }
    let two = first + (second - 128) * 128;
    if left < 3 {
        return Err(PayloadFault::Cut);
    }
    let third = u32::from(bytes[at + 2]);
    if third == 0 {
        return Err(PayloadFault::Shape);
    }
    if third < 128 {
        return Ok((two + third * 16_384, at + 3));
    }
    let three = two + (third - 128) * 16_384;
    if left < 4 {
        return Err(PayloadFault::Cut);
    }
    let fourth = u32::from(bytes[at + 3]);
    if fourth == 0 || fourth >= 128 {
        return Err(PayloadFault::Shape);
    }
    Ok((three + fourth * 2_097_152, at + 4))
}

/// The gap that stands at a place, and the place behind it. It reads what `read_gap` reads,
/// and looks for no fault.
#[inline(always)]
pub fn known_gap(bytes: &[u8], at: usize) -> (u32, usize)
    requires { IsOk (gap_in (drop at bytes.now)) }
    ensures value { gap_in (drop at bytes.now) ≡ Ok (record { gap = result.0; size = result.1 - at }) }
    ensures limit { result.0 < 2 ^ 28 }
    ensures behind { at < result.1 }
    ensures within { result.1 ≤ length bytes.now }
{
    let first = u32::from(bytes[at]);
    if first < 128 {
        return (first, at + 1);
    }
    let second = u32::from(bytes[at + 1]);
    if second < 128 {
        return (first - 128 + second * 128, at + 2);
    }
    let two = first - 128 + (second - 128) * 128;
    let third = u32::from(bytes[at + 2]);
    if third < 128 {
        return (two + third * 16_384, at + 3);
    }
    let three = two + (third - 128) * 16_384;
    let fourth = u32::from(bytes[at + 3]);
    (three + fourth * 2_097_152, at + 4)
}
