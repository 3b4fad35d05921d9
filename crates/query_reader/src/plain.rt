ghost use Rattle.std.specs.Prelude.{◌≡◌, ◌+◌, ◌<◌, ◌≤◌, ◌^◌, length};
ghost use Rattle.std.specs.Option.{option_map, option_and_then};
ghost use Rattle.query_reader.specs.Texts.{factor_of, is_blank, at_last_caret, weighted, plain_mention, plain_mentions, blank_runs};
ghost use Rattle.query_reader.specs.Private.Tally.{CountsIn, all_counted_in};
ghost use Rattle.query_reader.specs.Private.Slices.{mention_data};
ghost use Rattle.query_reader.specs.Slices.{FindsRun, BeginsWithout};

use crate::refusal::LineFault;
use crate::tally::Tally;
use jass_base::limits::MOST_TIMES;
use jass_base::{Lexicon, read_decimal};
use memchr::{memchr2, memrchr};

/// A term that a text mentions, and how often the mention counts.
#[derive(Clone, Copy)]
pub struct PlainMention<'a> {
    term: &'a [u8],
    factor: u8,
}

/// Counts the mentions of a text: the runs of bytes that are neither space nor tab.
pub fn count_plain<X: Lexicon>(tally: &mut Tally, text: &[u8], index: &X) -> Result<(), LineFault>
    requires { tally.old.unknown + length text.now < 2 ^ 32 }
    ensures { CountsIn (all_counted_in (X.terms index.now) tally.old (plain_mentions text.now)) tally.new result }
{
    let mut rest = text;
    while let Some((run, behind)) = next_run(rest) {
        let mention = mention_in(run);
        tally.count(index.find(mention.term), mention.factor)?;
        rest = behind;
    }
    Ok(())
}

/// The first run of a text, and the bytes behind it.
fn next_run(text: &[u8]) -> Option<(&[u8], &[u8])>
    ensures { FindsRun text.now result }
{
    let text = without_blanks(text);
    if text.is_empty() {
        return None;
    }
    match memchr2(b' ', b'\t', text) {
        Some(end) => Some(text.split_at(end)),
        None => Some((text, &[])),
    }
}

/// A text without the blanks that it begins with.
fn without_blanks(text: &[u8]) -> &[u8]
    ensures runs { blank_runs result.now ≡ blank_runs text.now }
    ensures begins { BeginsWithout is_blank result.now }
    ensures within { length result.now ≤ length text.now }
{
    let mut rest = text;
    while let [b' ' | b'\t', behind @ ..] = rest {
        rest = behind;
    }
    rest
}

/// The mention that a run is: the last `^` decides whether a factor stands behind it.
fn mention_in(run: &[u8]) -> PlainMention<'_>
    ensures { mention_data result ≡ plain_mention run.now }
{
    match weighted_mention(run) {
        Some(mention) => mention,
        None => PlainMention {
            term: run,
            factor: 1,
        },
    }
}

/// The mention of a run that ends in a factor.
fn weighted_mention(run: &[u8]) -> Option<PlainMention<'_>>
    ensures { option_map mention_data result ≡ option_and_then weighted (at_last_caret run.now) }
{
    let caret = memrchr(b'^', run)?;
    if caret == 0 {
        return None;
    }
    let factor = read_factor(&run[caret + 1..])?;
    Some(PlainMention {
        term: &run[..caret],
        factor,
    })
}

/// The factor that 1 to 3 ASCII digits stand for: 1 to 255.
fn read_factor(text: &[u8]) -> Option<u8>
    ensures { result ≡ factor_of text.now }
{
    if text.len() > 3 {
        return None;
    }
    match read_decimal(text) {
        Some(factor) if factor >= 1 && factor <= MOST_TIMES => Some(factor as u8),
        _ => None,
    }
}
