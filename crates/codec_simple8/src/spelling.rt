// Whether words are the one spelling of their gaps. Where a selector takes the gaps, so does each
// greater one: hence only the selector before a word's own is tried.
ghost use Rattle.std.specs.Prelude.{◌≡◌, ◌+◌, ◌-◌, ◌<◌, ◌≤◌, ◌^◌, ℕ, drop, length, nat_lt, not, take};
ghost use Rattle.std.specs.List.{list_all};
ghost use Rattle.std.specs.Str.{bytes_eq};
ghost use Rattle.codec_simple8.specs.Simple8.{count_of, fields, spelled_words, width_of, word_in};
ghost use Rattle.codec_simple8.specs.Private.Words.{AreWords, bytes_gaps, spells_them};

use crate::selector::Selector;
use crate::word::word_at;

/// Whether the words of bytes are those that their gaps are spelled with.
pub(crate) fn is_spelling(bytes: &[u8], count: u32) -> bool
    requires { AreWords bytes.now count }
    ensures { result ≡ bytes_eq bytes.now (spelled_words (bytes_gaps bytes.now)) }
{
    let mut at = 0;
    let mut left = count;
    while left > 0 {
        if !spells_them(bytes, at, left) {
            return false;
        }
        left -= Selector::of(word_at(bytes, at)).count() as u32;
        at += 8;
    }
    true
}

/// Whether the gaps from a place on are spelled with the word at that place.
fn spells_them(bytes: &[u8], at: usize, left: u32) -> bool
    requires words { AreWords (drop at bytes.now) left }
    requires some { 0 < left }
    ensures { result ≡ spells_them (word_in (drop at bytes.now)) (bytes_gaps (drop at bytes.now)) }
{
    let word = word_at(bytes, at);
    let selector = Selector::of(word);
    let used = selector.width() * selector.count() as u32;
    if (word / 16) >> used != 0 {
        return false;
    }
    if has_wider(word / 16, selector) {
        return true;
    }
    if selector.number == 0 {
        return true;
    }
    let narrower = selector.before();
    let more = narrower.count();
    more > left as usize || !are_narrow(bytes, at, more, narrower.width())
}

/// Whether a gap of a word has too many bits for the selector before.
#[inline(always)]
fn has_wider(values: u64, selector: Selector) -> bool
    ensures { result ≡ not (list_all (λ gap. nat_lt gap (2 ^ width_of (selector.number - 1)))
        (fields (width_of selector.number) (count_of selector.number) values)) }
{
    values & selector.wider() != 0
}

/// Whether a width holds each of the next `count` gaps.
fn are_narrow(bytes: &[u8], at: usize, count: usize, width: u32) -> bool
    requires words { (left : ℕ) × AreWords (drop at bytes.now) left }
    requires few { count ≤ length (bytes_gaps (drop at bytes.now)) }
    requires width { width < 64 }
    ensures { result ≡ list_all (λ gap. nat_lt gap (2 ^ width)) (take count (bytes_gaps (drop at bytes.now))) }
{
    let mut at = at;
    let mut left = count;
    while left > 0 {
        let word = word_at(bytes, at);
        let selector = Selector::of(word);
        let gaps = selector.count().min(left);
        if !gaps_narrow(word / 16, selector, gaps, width) {
            return false;
        }
        left -= gaps;
        at += 8;
    }
    true
}

/// Whether a width holds each of the first `count` gaps of a word.
#[inline(always)]
fn gaps_narrow(values: u64, selector: Selector, count: usize, width: u32) -> bool
    requires count { count ≤ count_of selector.number }
    requires width { width < 64 }
    ensures { result ≡ list_all (λ gap. nat_lt gap (2 ^ width)) (fields (width_of selector.number) count values) }
{
    let own = selector.width();
    if own <= width {
        return true;
    }
    let first = values & ((1u64 << (own * count as u32)) - 1);
    // the bits of each gap that the width doesn't hold
    let high = selector.lowest() * ((1u64 << own) - (1u64 << width));
    first & high == 0
}
