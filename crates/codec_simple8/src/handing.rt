ghost use Rattle.std.specs.Prelude.{◌≡◌, ℕ, ◌+◌, ◌<◌, ◌≤◌, ◌^◌, ◌++◌, List, length, take, IfOk, IfSome, IsNone, Ok};
ghost use Rattle.jass_base.specs.Codecs.{ChecksInto, IsDocCount};
ghost use Rattle.jass_base.specs.Gaps.{Judges, docs_from};
ghost use Rattle.codec_simple8.specs.Simple8.{count_of, fields, least_behind, read_simple8, read_words, simple8_of, width_of};
ghost use Rattle.jass_base.specs.declared.limits.TheConstants.{MOST_DOCUMENTS};

use crate::laws::payloads_are_read;
use crate::rows::put_narrow;
use crate::selector::Selector;
use crate::spelling::is_spelling;
use crate::sums::sum_gaps;
use crate::values::put_gaps;
use crate::word::word_at;
use jass_base::PayloadFault;

/// The answer of `check`, and where it is Ok, the documents at the front of `out`. What stands behind
/// them there, or all of it where there is a fault, is left open.
pub fn check_into(bytes: &[u8], count: u32, d: u32, out: &mut [u32]) -> Result<(), PayloadFault>
    requires count { IsDocCount count d }
    requires room { count ≤ length out.old }
    ensures { ChecksInto simple8_of read_simple8 d count bytes.now out.old out.new result }
{
    payloads_are_read();
    hand_out(bytes, count, d, out)
}

/// The same, by what is read. It is a call, so that its loops have registers of their own.
#[inline(never)]
fn hand_out(bytes: &[u8], count: u32, d: u32, out: &mut [u32]) -> Result<(), PayloadFault>
    requires count { IsDocCount count d }
    requires room { count ≤ length out.old }
    ensures judged { Judges (read_simple8 d count bytes.now) result }
    ensures docs { IfOk result (λ _. read_simple8 d count bytes.now ≡ Ok (take count out.new)) }
    ensures length { length out.new ≡ length out.old }
{
    hand_out_words(bytes, count, d, out)?;
    if is_spelling(bytes, count) {
        Ok(())
    } else {
        Err(PayloadFault::Shape)
    }
}

/// The faults up to Longer, and the documents that the words have.
fn hand_out_words(bytes: &[u8], count: u32, d: u32, out: &mut [u32]) -> Result<(), PayloadFault>
    requires limit { d ≤ MOST_DOCUMENTS }
    requires room { count ≤ length out.old }
    ensures judged { Judges (read_words count d 0 count bytes.now) result }
    ensures docs { IfOk result (λ _. (gaps : List ℕ) → read_words count d 0 count bytes.now ≡ Ok gaps
        → take count out.new ≡ docs_from 0 gaps) }
    ensures length { length out.new ≡ length out.old }
{
    let mut at = 0;
    let mut left = count;
    let mut least = 0;
    'words: while left > 0 {
        if bytes.len() - at < 8 {
            return Err(PayloadFault::Cut);
        }
        let word = word_at(bytes, at);
        let selector = Selector::of(word);
        let gaps = selector.count() as u32;
        if gaps > left {
            return Err(PayloadFault::Shape);
        }
        let filled = (count - left) as usize;
        let Some(behind) = put_word(word / 16, selector, least, d, out, filled) else {
            return Err(PayloadFault::DocRange);
        };
        least = behind;
        left -= gaps;
        at += 8;
    }
    if at < bytes.len() {
        return Err(PayloadFault::Longer);
    }
    Ok(())
}

/// Writes the documents of a word's gaps behind the first `filled`, and returns the least that may follow; `None`
/// where one of them is `d` or above. What stands behind them, or behind the first `filled` where it is `None`, is left
/// open.
#[inline(always)]
fn put_word(
    values: u64,
    selector: Selector,
    least: u32,
    d: u32,
    out: &mut [u32],
    filled: usize,
) -> Option<u32>
    requires values { values < 2 ^ 60 }
    requires limit { d ≤ MOST_DOCUMENTS }
    requires least { least ≤ d }
    requires room { filled + count_of selector.number ≤ length out.old }
    ensures some { IfSome result (λ behind. behind
        ≡ least_behind least (fields (width_of selector.number) (count_of selector.number) values)) }
    ensures within { IfSome result (λ behind. behind ≤ d) }
    ensures none { IsNone result
        → d < least_behind least (fields (width_of selector.number) (count_of selector.number) values) }
    ensures docs { IfSome result (λ _. take (filled + count_of selector.number) out.new ≡ take filled out.old
        ++ docs_from least (fields (width_of selector.number) (count_of selector.number) values)) }
    ensures length { length out.new ≡ length out.old }
{
    if 5 <= selector.number && selector.number <= 12 && out.len() - filled >= 16 {
        // Gaps of so few bits can be added up before it is known that they stay below `d`.
        let behind = put_narrow(values, selector, least, out, filled);
        return if behind <= d { Some(behind) } else { None };
    }
    let behind = u64::from(least) + (sum_gaps(values, selector) + selector.count() as u64);
    if behind > u64::from(d) {
        return None;
    }
    Some(put_gaps(values, selector, least, out, filled))
}
