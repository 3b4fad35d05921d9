// Gaps in a row: read from bytes, and made into documents.
ghost use Rattle.std.specs.Prelude.{ℕ, ◌≡◌, ◌+◌, ◌-◌, ◌≤◌, ◌<◌, List, length, take, drop, sum, ◌++◌, All, IsTrue, IsFalse, IsOk, IfSome, Ok};
ghost use Rattle.jass_base.specs.Gaps.{docs_from, gap_in};
ghost use Rattle.plain_codecs.specs.Private.Runs.{IsRun};
ghost use Rattle.jass_base.specs.declared.limits.TheConstants.{MOST_DOCUMENTS};

use jass_base::{known_gap, laws};
use lane_kernels::{running128, small16, widen16};

/// Reads so many gaps from a place on to the front of `out`, and returns the place behind them.
pub(crate) fn read_run(bytes: &[u8], from: usize, count: usize, out: &mut [u32; 128]) -> usize
    requires block { count ≤ 128 }
    requires run { (gaps : List ℕ) × IsRun bytes.now from count gaps }
    ensures gaps { (gaps : List ℕ) → IsRun bytes.now from count gaps → take count out.new ≡ take count gaps }
    ensures behind { (gaps : List ℕ) → IsRun bytes.now from count gaps → IsRun bytes.now result 0 (drop count gaps) }
{
    laws::gap_varints_are_read();
    let mut at = from;
    let mut filled = 0;
    while filled < count {
        let part = (count - filled).min(16);
        if part == 16 && copy_small(bytes, at, filled, out) {
            at += 16;
        } else {
            at = read_each(bytes, at, filled, filled + part, out);
        }
        filled += part;
    }
    at
}

/// Reads gaps one by one to the places of `out` from `first` on, and returns the place behind
/// them.
#[inline(always)]
fn read_each(bytes: &[u8], from: usize, first: usize, end: usize, out: &mut [u32; 128]) -> usize
    requires order { first ≤ end }
    requires block { end ≤ 128 }
    requires run { (gaps : List ℕ) × IsRun bytes.now from (end - first) gaps }
    ensures gaps { (gaps : List ℕ) → IsRun bytes.now from (end - first) gaps
        → take end out.new ≡ take first out.old ++ take (end - first) gaps }
    ensures behind { (gaps : List ℕ) → IsRun bytes.now from (end - first) gaps
        → IsRun bytes.now result 0 (drop (end - first) gaps) }
{
    laws::gap_varints_are_read();
    let mut at = from;
    for place in first..end {
        let (gap, next) = next_gap(bytes, at);
        out[place] = gap;
        at = next;
    }
    at
}

/// The gap at a place, and the place behind it, as `known_gap` gives them. Most gaps have one byte or
/// two, and which of these can't be predicted, so they are read without a branch on it.
#[inline(always)]
fn next_gap(bytes: &[u8], at: usize) -> (u32, usize)
    requires within { at ≤ length bytes.now }
    requires known { IsOk (gap_in (drop at bytes.now)) }
    ensures value { gap_in (drop at bytes.now) ≡ Ok (record { gap = result.0; size = result.1 - at }) }
    ensures behind { at < result.1 }
    ensures within { result.1 ≤ length bytes.now }
{
    if bytes.len() - at >= 2 {
        let first = u32::from(bytes[at]);
        let second = u32::from(bytes[at + 1]);
        // Both are looked at, so that there is one branch, which nearly always goes the same way.
        if (first < 128) | (second < 128) {
            // 1 where there is a second byte
            let two = first / 128;
            return (first % 128 + two * second * 128, at + 1 + two as usize);
        }
    }
    known_gap(bytes, at)
}

/// Copies sixteen bytes to a place of `out` where each is a gap of its own.
#[inline(always)]
fn copy_small(bytes: &[u8], at: usize, place: usize, out: &mut [u32; 128]) -> bool
    requires within { at ≤ length bytes.now }
    requires room { place + 16 ≤ 128 }
    ensures bytes { IsTrue result → at + 16 ≤ length bytes.now }
    ensures small { IsTrue result → All (λ byte. byte < 128) (take 16 (drop at bytes.now)) }
    ensures copied { IsTrue result → out.new
        ≡ take place out.old ++ take 16 (drop at bytes.now) ++ drop (place + 16) out.old }
    ensures stays { IsFalse result → out.new ≡ out.old }
{
    let Some(sixteen) = small_run(bytes, at) else {
        return false;
    };
    let mut gaps = [0; 16];
    widen16(sixteen, &mut gaps);
    out[place..place + 16].copy_from_slice(&gaps);
    true
}

/// The sixteen bytes at a place where each is a gap of its own.
#[inline(always)]
pub(crate) fn small_run(bytes: &[u8], at: usize) -> Option<&[u8; 16]>
    requires { at ≤ length bytes.now }
    ensures bytes { IfSome result (λ sixteen. sixteen.now ≡ take 16 (drop at bytes.now)) }
    ensures within { IfSome result (λ sixteen. at + 16 ≤ length bytes.now) }
    ensures small { IfSome result (λ sixteen. All (λ byte. byte < 128) sixteen.now) }
{
    let sixteen = bytes[at..].first_chunk::<16>()?;
    if small16(sixteen) {
        Some(sixteen)
    } else {
        None
    }
}

/// Makes the first `count` gaps documents, the first at least `least`, and returns the least
/// that a document behind them may be.
pub(crate) fn docs_of_gaps(least: u32, count: usize, out: &mut [u32; 128]) -> u32
    requires block { count ≤ 128 }
    requires room { least + sum (take count out.old) + count ≤ MOST_DOCUMENTS }
    ensures docs { take count out.new ≡ docs_from least (take count out.old) }
    ensures behind { result ≡ least + sum (take count out.old) + count }
{
    laws::docs_of_gaps();
    if count == 128 {
        running128(least, out);
        return out[127] + 1;
    }
    let mut next = least;
    for place in 0..count {
        let doc = next + out[place];
        out[place] = doc;
        next = doc + 1;
    }
    next
}
