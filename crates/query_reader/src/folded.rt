ghost use Rattle.std.specs.Prelude.{◌≡◌, ◌+◌, ◌<◌, ◌≤◌, ◌^◌, ◌==◌, ◌∷◌, ◌++◌, true, length, IfSome, IfNone, IfOk, IsTrue};
ghost use Rattle.std.specs.Char.{digit_value, is_ascii_digit};
ghost use Rattle.std.specs.List.{AllByRecursion};
ghost use Rattle.std.specs.Option.{SomeIff};
ghost use Rattle.std.specs.Str.{chars};
ghost use Rattle.std.specs.String.{string_bytes};
ghost use Rattle.query_reader.specs.Texts.{factor_of, is_word, folded_term, folded_mentions};
ghost use Rattle.query_reader.specs.Private.Slices.{FindsWordRun, TakesFactor, is_no_word};
ghost use Rattle.query_reader.specs.Slices.{BeginsWithout};
ghost use Rattle.query_reader.specs.Private.Tally.{CountsIn, all_counted_in};

use crate::refusal::LineFault;
use crate::tally::Tally;
use caseless::Caseless;
use jass_base::Lexicon;
use std::alloc::{AllocError, Global};
use unicode::properties::{GeneralCategory, is_alphabetic};

/// Counts the mentions of a text: the runs of letters and decimal digits, each folded.
pub fn count_folded<X: Lexicon>(
    alloc: Global,
    tally: &mut Tally,
    text: &str,
    index: &X,
) -> Result<(), LineFault>
    requires { tally.old.unknown + length text.now < 2 ^ 32 }
    ensures { CountsIn
        (all_counted_in (X.terms index.now) tally.old (folded_mentions (chars text.now))) tally.new result }
{
    let Ok(characters) = text.chars().collect::<Vec<char>>(alloc) else {
        return Err(LineFault::NoMemory);
    };
    count_characters(alloc, tally, characters.as_slice(), index)
}

/// Counts the mentions in the characters of a text.
fn count_characters<X: Lexicon>(
    alloc: Global,
    tally: &mut Tally,
    text: &[char],
    index: &X,
) -> Result<(), LineFault>
    requires { tally.old.unknown + length text.now < 2 ^ 32 }
    ensures { CountsIn (all_counted_in (X.terms index.now) tally.old (folded_mentions text.now)) tally.new result }
{
    let mut rest = text;
    while let Some((run, behind)) = next_run(rest) {
        let (factor, behind) = factor_behind(behind);
        let Ok(term) = folded(alloc, run) else {
            return Err(LineFault::NoMemory);
        };
        tally.count(index.find(term.as_str().as_bytes()), factor)?;
        rest = behind;
    }
    Ok(())
}

/// The first run of letters and digits, and what stands behind it.
fn next_run(text: &[char]) -> Option<(&[char], &[char])>
    ensures { FindsWordRun text.now result }
{
    let text = without_gap(text);
    if text.is_empty() {
        return None;
    }
    Some(split_run(text))
}

/// A text from its first letter or digit on.
fn without_gap(text: &[char]) -> &[char]
    ensures mentions { folded_mentions result.now ≡ folded_mentions text.now }
    ensures begins { BeginsWithout is_no_word result.now }
    ensures within { length result.now ≤ length text.now }
{
    match text.iter().position(|c| is_word_character(*c)) {
        Some(start) => &text[start..],
        None => &[],
    }
}

/// The letters and digits at the front of a text, and what stands behind them.
fn split_run(text: &[char]) -> (&[char], &[char])
    ensures parts { text.now ≡ result.0.now ++ result.1.now }
    ensures words { AllByRecursion (λ c. is_word c ≡ true) result.0.now }
    ensures ends { BeginsWithout is_word result.1.now }
{
    match text.iter().position(|c| !is_word_character(*c)) {
        Some(end) => text.split_at(end),
        None => (text, &[]),
    }
}

/// Whether a character is a letter, or a decimal digit of any script.
#[tactic(auto, unfolding(crate::specs::Texts::is_word))]
fn is_word_character(c: char) -> bool
    ensures { result ≡ is_word c }
{
    is_alphabetic(c) || GeneralCategory::for_char(c) == GeneralCategory::DecimalNumber
}

/// The factor of a run in front of these characters, and what stands behind the factor.
fn factor_behind(text: &[char]) -> (u8, &[char])
    requires { BeginsWithout is_word text.now }
    ensures { TakesFactor text.now result.0 result.1.now }
{
    let Some(behind) = without_caret(text) else {
        return (1, text);
    };
    let (digits, rest) = split_run(behind);
    match read_factor(digits) {
        Some(factor) => (factor, rest),
        None => (1, text),
    }
}

/// What stands behind the `^` that a text begins with.
fn without_caret(text: &[char]) -> Option<&[char]>
    ensures some { IfSome result (λ behind. text.now ≡ 94 ∷ behind.now) }
    ensures none { IfNone result (BeginsWithout (λ c. c == 94) text.now) }
{
    match text {
        ['^', behind @ ..] => Some(behind),
        _ => None,
    }
}

/// The factor that 1 to 3 ASCII digits stand for: 1 to 255.
fn read_factor(text: &[char]) -> Option<u8>
    ensures { result ≡ factor_of text.now }
{
    let value = match text {
        [c] => digit(*c)?,
        [b, c] => 10 * digit(*b)? + digit(*c)?,
        [a, b, c] => 100 * digit(*a)? + 10 * digit(*b)? + digit(*c)?,
        _ => return None,
    };
    if value == 0 {
        return None;
    }
    u8::try_from(value).ok()
}

/// The value of an ASCII digit.
fn digit(c: char) -> Option<u32>
    ensures { SomeIff result (IsTrue (is_ascii_digit c)) (digit_value c) }
{
    if c.is_ascii_digit() {
        Some(c as u32 - '0' as u32)
    } else {
        None
    }
}

/// The term of a run: its case folding.
#[tactic(auto, unfolding(crate::specs::Texts::folded_term))]
fn folded(alloc: Global, run: &[char]) -> Result<String, AllocError>
    ensures { IfOk result (λ term. string_bytes term ≡ folded_term run.now) }
{
    run.iter().copied().default_case_fold().collect(alloc)
}
