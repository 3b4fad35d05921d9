ghost use Rattle.std.specs.Prelude.{◌<◌, ◌≤◌};
ghost use Rattle.jass_base.specs.Codecs.{Checks, IsDocCount};
ghost use Rattle.jass_base.specs.Gaps.{Judges};
ghost use Rattle.codec_simple8.specs.Simple8.{simple8_of, read_simple8, read_words};
ghost use Rattle.jass_base.specs.declared.limits.TheConstants.{MOST_DOCUMENTS};

use crate::laws::payloads_are_read;
use crate::selector::Selector;
use crate::spelling::is_spelling;
use crate::sums::sum_gaps;
use crate::word::word_at;
use jass_base::PayloadFault;

/// Ok where the bytes are the payload of a list of `count` documents below `d`; else the first
/// fault, word by word: Cut where fewer than eight bytes are left, Shape where a word has more
/// gaps than are left, DocRange where a document is `d` or above. Then Longer where bytes are left,
/// and Shape where they aren't the one spelling of the gaps that were read.
pub fn check(bytes: &[u8], count: u32, d: u32) -> Result<(), PayloadFault>
    requires { IsDocCount count d }
    ensures { Checks simple8_of read_simple8 d count bytes.now result }
{
    payloads_are_read();
    judge(bytes, count, d)
}

/// The check, by what is read.
fn judge(bytes: &[u8], count: u32, d: u32) -> Result<(), PayloadFault>
    requires { IsDocCount count d }
    ensures { Judges (read_simple8 d count bytes.now) result }
{
    walk(bytes, count, d)?;
    if is_spelling(bytes, count) {
        Ok(())
    } else {
        Err(PayloadFault::Shape)
    }
}

/// The faults up to Longer.
fn walk(bytes: &[u8], count: u32, d: u32) -> Result<(), PayloadFault>
    requires { d ≤ MOST_DOCUMENTS }
    ensures { Judges (read_words count d 0 count bytes.now) result }
{
    let mut at = 0;
    let mut left = count;
    let mut least = 0u64;
    while left > 0 {
        if bytes.len() - at < 8 {
            return Err(PayloadFault::Cut);
        }
        let word = word_at(bytes, at);
        let selector = Selector::of(word);
        let gaps = selector.count() as u32;
        if gaps > left {
            return Err(PayloadFault::Shape);
        }
        least += sum_gaps(word / 16, selector) + u64::from(gaps);
        if least > u64::from(d) {
            return Err(PayloadFault::DocRange);
        }
        left -= gaps;
        at += 8;
    }
    if at < bytes.len() {
        return Err(PayloadFault::Longer);
    }
    Ok(())
}
