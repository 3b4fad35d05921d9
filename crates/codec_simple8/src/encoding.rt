ghost use Rattle.std.specs.Prelude.{◌≡◌, ℕ, ◌+◌, ◌<◌, ◌≤◌, drop, length, slice_index, nat_le, IfSome, IsNone};
ghost use Rattle.jass_base.specs.Codecs.{Encodes};
ghost use Rattle.jass_base.specs.Gaps.{AreDocs, gaps_of};
ghost use Rattle.codec_simple8.specs.Simple8.{count_of, selector_of, simple8_of, takes, word_of};
ghost use Rattle.jass_base.specs.declared.limits.TheConstants.{MOST_DOCUMENTS};

use crate::limits::{limit_behind, selector_within};
use crate::selector::Selector;
use jass_base::{NoMemory, Row};

/// The most gaps of a word.
const MOST: usize = 240;

/// How many bytes the payload of the documents has, in an index of `d` documents: eight a word.
pub fn length(docs: &[u32], d: u32) -> u64
    requires { AreDocs d docs.now }
    ensures { result ≡ length (simple8_of docs.now) }
{
    let mut words = 0u64;
    let mut at = 0;
    while at < docs.len() {
        at += selector_at(docs, at).count();
        words += 1;
    }
    8 * words
}

/// `length`, where it is less than `limit`; None as soon as it is known not to be.
pub fn length_below(docs: &[u32], d: u32, limit: u64) -> Option<u64>
    requires { AreDocs d docs.now }
    ensures some { IfSome result (λ bytes. (bytes ≡ length (simple8_of docs.now)) × (bytes < limit)) }
    ensures none { IsNone result → limit ≤ length (simple8_of docs.now) }
{
    let mut bytes = 0u64;
    let mut at = 0;
    while at < docs.len() {
        bytes += 8;
        if bytes >= limit {
            return None;
        }
        at += selector_at(docs, at).count();
    }
    Some(bytes)
}

/// Appends the payload of the documents, in an index of `d` documents, or nothing where memory is
/// refused.
pub fn encode(docs: &[u32], d: u32, out: &mut Row<u8>) -> Result<(), NoMemory>
    requires { AreDocs d docs.now }
    ensures { Encodes (simple8_of docs.now) out.old out.new result }
{
    let start = out.len();
    let mut at = 0;
    while at < docs.len() {
        let selector = selector_at(docs, at);
        let word = word_from(docs, at, selector);
        match out.extend(&word.to_le_bytes()) {
            Ok(()) => {}
            Err(_) => {
                out.truncate(start);
                return Err(NoMemory);
            }
        }
        at += selector.count();
    }
    Ok(())
}

/// The selector of the word with the gaps of the documents from a place on.
fn selector_at(docs: &[u32], at: usize) -> Selector
    requires docs { (d : ℕ) × AreDocs d docs.now }
    requires within { at < length docs.now }
    ensures selector { result.number ≡ selector_of (drop at (gaps_of docs.now)) }
    ensures few { at + count_of result.number ≤ length docs.now }
{
    selector_within(fitting(docs, at))
}

/// How many gaps from a place on fit into words: a selector takes them exactly where its word has no
/// more gaps than these. Each gap is seen once, whatever the selector.
#[inline(always)]
fn fitting(docs: &[u32], at: usize) -> usize
    requires docs { (d : ℕ) × AreDocs d docs.now }
    requires within { at < length docs.now }
    ensures some { 1 ≤ result }
    ensures most { result ≤ 240 }
    ensures exact { (s : ℕ) → s < 16 → takes s (drop at (gaps_of docs.now)) ≡ nat_le (count_of s) result }
{
    let left = (docs.len() - at).min(MOST);
    let mut bits = gap_at(docs, at);
    let mut seen = 1;
    while seen < left {
        bits |= later_gap(docs, at + seen);
        if bits >= limit_behind(seen) {
            return seen;
        }
        seen += 1;
    }
    seen
}

/// The word of a selector that takes the gaps of the documents from a place on.
fn word_from(docs: &[u32], at: usize, selector: Selector) -> u64
    requires docs { (d : ℕ) × AreDocs d docs.now }
    requires selector { selector.number ≡ selector_of (drop at (gaps_of docs.now)) }
    requires few { at + count_of selector.number ≤ length docs.now }
    ensures { result ≡ word_of selector.number (drop at (gaps_of docs.now)) }
{
    let width = selector.width();
    let mut values = 0u64;
    let mut i = selector.count();
    while i > 0 {
        i -= 1;
        values = (values << width) | u64::from(gap_at(docs, at + i));
    }
    (values << 4) | selector.number as u64
}

#[inline(always)]
fn gap_at(docs: &[u32], at: usize) -> u32
    requires docs { (d : ℕ) × AreDocs d docs.now }
    requires within { at < length docs.now }
    ensures gap { result ≡ slice_index (gaps_of docs.now) at }
    ensures small { result < MOST_DOCUMENTS }
{
    if at == 0 {
        docs[0]
    } else {
        later_gap(docs, at)
    }
}

/// The gap before a document that isn't the first.
#[inline(always)]
fn later_gap(docs: &[u32], at: usize) -> u32
    requires docs { (d : ℕ) × AreDocs d docs.now }
    requires later { 0 < at }
    requires within { at < length docs.now }
    ensures gap { result ≡ slice_index (gaps_of docs.now) at }
    ensures small { result < MOST_DOCUMENTS }
{
    docs[at] - docs[at - 1] - 1
}
