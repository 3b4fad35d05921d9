ghost use Rattle.std.specs.Prelude.{◌≡◌, ◌≤◌, length, take, IfOk, IsTrue, Ok};
ghost use Rattle.jass_base.specs.Codecs.{ChecksInto, IsDocCount};
ghost use Rattle.jass_base.specs.Gaps.{Judges};
ghost use Rattle.plain_codecs.specs.Varbyte.{varbyte_of, read_varbyte};
ghost use Rattle.jass_base.specs.declared.limits.TheConstants.{MOST_DOCUMENTS};

use crate::varbyte::laws::payloads_are_read;
use crate::varbyte::short::short_gap;
use jass_base::{PayloadFault, read_gap};

/// The answer of `check`, and where it is Ok, the documents at the front of `out`. What stands behind
/// them there, or all of it where there is a fault, is left open.
pub fn check_into(bytes: &[u8], count: u32, d: u32, out: &mut [u32]) -> Result<(), PayloadFault>
    requires count { IsDocCount count d }
    requires room { count ≤ length out.old }
    ensures { ChecksInto varbyte_of read_varbyte d count bytes.now out.old out.new result }
{
    payloads_are_read();
    hand_out(bytes, count, d, out)
}

/// The same, by what is read. It is a call, so that its loop has registers of its own.
#[inline(never)]
fn hand_out(bytes: &[u8], count: u32, d: u32, out: &mut [u32]) -> Result<(), PayloadFault>
    requires limit { d ≤ MOST_DOCUMENTS }
    requires room { count ≤ length out.old }
    ensures judged { Judges (read_varbyte d count bytes.now) result }
    ensures docs { IfOk result (λ _. read_varbyte d count bytes.now ≡ Ok (take count out.new)) }
    ensures length { length out.new ≡ length out.old }
{
    let mut at = 0;
    let mut least = 0;
    'docs: for i in 0..count as usize {
        let (gap, next) = read_gap(bytes, at)?;
        let doc = least + gap;
        if doc >= d {
            return Err(PayloadFault::DocRange);
        }
        out[i] = doc;
        at = next;
        least = doc + 1;
    }
    if at < bytes.len() {
        return Err(PayloadFault::Longer);
    }
    Ok(())
}

/// The same for the payload that is the first `size` bytes. What follows them isn't part of it, but
/// lets three bytes be looked at together at each gap.
pub fn check_front_into(
    bytes: &[u8],
    size: usize,
    count: u32,
    d: u32,
    out: &mut [u32],
) -> Result<(), PayloadFault>
    requires count { IsDocCount count d }
    requires size { size ≤ length bytes.now }
    requires room { count ≤ length out.old }
    ensures { ChecksInto varbyte_of read_varbyte d count (take size bytes.now) out.old out.new result }
{
    payloads_are_read();
    if hand_out_short(bytes, size, count, d, out) {
        return Ok(());
    }
    hand_out(&bytes[..size], count, d, out)
}

/// Hands out a payload whose gaps have up to three bytes each, where the bytes hold so many for each
/// gap, and tells whether it was one. Where it tells no, `hand_out` finds out what there is.
#[inline(always)]
fn hand_out_short(bytes: &[u8], size: usize, count: u32, d: u32, out: &mut [u32]) -> bool
    requires limit { d ≤ MOST_DOCUMENTS }
    requires size { size ≤ length bytes.now }
    requires room { count ≤ length out.old }
    ensures docs { IsTrue result → read_varbyte d count (take size bytes.now) ≡ Ok (take count out.new) }
    ensures length { length out.new ≡ length out.old }
{
    if bytes.len() < 3 * count as usize {
        return false;
    }
    let mut at = 0;
    let mut least = 0;
    'docs: for i in 0..count as usize {
        let read = short_gap(bytes, at);
        let doc = least + read.gap;
        if !(read.is_gap & (doc < d)) {
            return false;
        }
        out[i] = doc;
        least = doc + 1;
        at += read.size;
    }
    at == size
}
