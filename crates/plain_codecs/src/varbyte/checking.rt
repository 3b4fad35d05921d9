ghost use Rattle.std.specs.Prelude.{ℕ, ◌≡◌, ◌≤◌, ◌-◌, ◌*◌, length, drop, sum, IfOk, IfErr, Err};
ghost use Rattle.jass_base.specs.Codecs.{Checks, IsDocCount};
ghost use Rattle.jass_base.specs.Gaps.{Judges, read_gaps};
ghost use Rattle.plain_codecs.specs.Private.Runs.{Continues};
ghost use Rattle.plain_codecs.specs.Varbyte.{varbyte_of, read_varbyte};
ghost use Rattle.jass_base.specs.declared.limits.TheConstants.{MOST_DOCUMENTS};

use crate::varbyte::laws::payloads_are_read;
use crate::varbyte::runs::small_run;
use jass_base::{PayloadFault, read_gap};

/// Whether bytes are the payload of `count` documents of an index of d documents.
///
/// Gap by gap: Cut where the bytes end before the varint does and fewer than four were
/// seen; Shape where a fourth byte has the top bit set, or the varint isn't shortest;
/// DocRange where the document is d or above. Then Longer where bytes are left.
pub fn check(bytes: &[u8], count: u32, d: u32) -> Result<(), PayloadFault>
    requires { IsDocCount count d }
    ensures { Checks varbyte_of read_varbyte d count bytes.now result }
{
    payloads_are_read();
    judge(bytes, count, d)
}

/// The check, by what is read.
fn judge(bytes: &[u8], count: u32, d: u32) -> Result<(), PayloadFault>
    requires { IsDocCount count d }
    ensures { Judges (read_varbyte d count bytes.now) result }
{
    let mut place = Place { at: 0, least: 0 };
    let mut left = count;
    while left > 0 {
        let part = left.min(16);
        place = skip(bytes, place, part, d)?;
        left -= part;
    }
    if place.at < bytes.len() {
        return Err(PayloadFault::Longer);
    }
    Ok(())
}

/// The place of a gap, and the least that its document may be.
#[derive(Clone, Copy)]
struct Place {
    at: usize,
    least: u32,
}

/// Reads so many documents, sixteen at most, and gives the place behind them.
#[inline(always)]
fn skip(bytes: &[u8], place: Place, count: u32, d: u32) -> Result<Place, PayloadFault>
    requires within { place.at ≤ length bytes.now }
    requires low { place.least ≤ d }
    requires limit { d ≤ MOST_DOCUMENTS }
    ensures within { IfOk result (λ behind. behind.at ≤ length bytes.now) }
    ensures low { IfOk result (λ behind. behind.least ≤ d) }
    ensures reads { IfOk result (λ behind. (left : ℕ) → count ≤ left
        → Continues (read_gaps d place.least left (drop place.at bytes.now))
        (read_gaps d behind.least (left - count) (drop behind.at bytes.now))) }
    ensures fault { IfErr result (λ fault. (left : ℕ) → count ≤ left
        → read_gaps d place.least left (drop place.at bytes.now) ≡ Err fault) }
{
    if count == 16 {
        if let Some(sixteen) = small_run(bytes, place.at) {
            let least = place.least + sum16(sixteen) + 16;
            if least > d {
                return Err(PayloadFault::DocRange);
            }
            return Ok(Place {
                at: place.at + 16,
                least,
            });
        }
    }
    skip_each(bytes, place, count, d)
}

#[inline(always)]
fn sum16(bytes: &[u8; 16]) -> u32
    ensures is { result ≡ sum bytes.now }
    ensures small { result ≤ 255 * 16 }
{
    let mut sum = 0;
    for byte in bytes {
        sum += u32::from(*byte);
    }
    sum
}

/// Reads so many documents one by one, and gives the place behind them.
#[inline(always)]
fn skip_each(bytes: &[u8], from: Place, count: u32, d: u32) -> Result<Place, PayloadFault>
    requires within { from.at ≤ length bytes.now }
    requires low { from.least ≤ d }
    requires limit { d ≤ MOST_DOCUMENTS }
    ensures within { IfOk result (λ behind. behind.at ≤ length bytes.now) }
    ensures low { IfOk result (λ behind. behind.least ≤ d) }
    ensures reads { IfOk result (λ behind. (left : ℕ) → count ≤ left
        → Continues (read_gaps d from.least left (drop from.at bytes.now))
        (read_gaps d behind.least (left - count) (drop behind.at bytes.now))) }
    ensures fault { IfErr result (λ fault. (left : ℕ) → count ≤ left
        → read_gaps d from.least left (drop from.at bytes.now) ≡ Err fault) }
{
    let mut at = from.at;
    let mut least = from.least;
    for _ in 0..count {
        let (gap, next) = read_gap(bytes, at)?;
        if least + gap >= d {
            return Err(PayloadFault::DocRange);
        }
        at = next;
        least += gap + 1;
    }
    Ok(Place { at, least })
}
