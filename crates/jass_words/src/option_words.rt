ghost use Rattle.std.specs.Prelude.{ℕ, ◌≡◌, ◌↔◌, List, None, IfSome, IsTrue};
ghost use Rattle.jass_base.specs.declared.answer.Budget.{Budget};
ghost use Rattle.query_reader.specs.declared.mode.Mode.{Mode};
ghost use Rattle.weights.specs.declared.weighting.Rule.{Rule};
ghost use Rattle.weights.specs.declared.quantizing.Bits.{Bits};
ghost use Rattle.jass_words.specs.Options.{OptionData, AreBudgets, IsBits, IsMode, IsOption, IsRule, IsTag, IsUntil, IsValue};
ghost use Rattle.jass_words.specs.declared.until.Until.{Until};
ghost use Rattle.jass_words.specs.Private.Reading.{option_data};

use crate::budgets::Budgets;
use crate::keys::Key;
use crate::slots::{read_budget, read_number};
use crate::until::Until;
use crate::word_limits::{LONGEST_TAG, MOST_BITS};
use jass_base::limits::{MOST_FRAMES, MOST_HITS};
use jass_base::read_decimal;
use query_reader::Mode;
use weights::{Bits, Rule};

/// What the word of an option says.
#[derive(Clone, Copy)]
pub enum OptionWord<'a> {
    /// `k=K`.
    Hits(u32),
    /// `budget=BUDGET,..`.
    Limits(Budgets),
    /// `tag=TAG`.
    Tag(&'a str),
    /// `mode=MODE`.
    Reading(Mode),
    /// `until=UNTIL`.
    Stopping(Until),
    /// `weights=RULE`.
    Weights(Rule),
    /// `bits=BITS`.
    Width(Bits),
    /// `frames=FRAMES`.
    Frames(u32),
}

impl<'a> OptionWord<'a> {
    pub fn key(&self) -> Key
        ensures { result ≡ (option_data self.now).key }
    {
        match self {
            OptionWord::Hits(_) => Key::Hits,
            OptionWord::Limits(_) => Key::Limits,
            OptionWord::Tag(_) => Key::Tag,
            OptionWord::Reading(_) => Key::Reading,
            OptionWord::Stopping(_) => Key::Stopping,
            OptionWord::Weights(_) => Key::Weights,
            OptionWord::Width(_) => Key::Width,
            OptionWord::Frames(_) => Key::Frames,
        }
    }
}

/// The option that a word spells.
pub fn read_option(word: &str) -> Option<OptionWord<'_>>
    ensures some { IfSome result (λ option. IsOption word.now (option_data option)) }
    ensures none { result ≡ None → (option : OptionData) → ¬ IsOption word.now option }
{
    let Some((text, value)) = word.split_once('=') else {
        return None;
    };
    let Some(key) = Key::of(text) else {
        return None;
    };
    read_value(key, value)
}

/// The option of a key and a value.
fn read_value<'a>(key: Key, value: &'a str) -> Option<OptionWord<'a>>
    ensures key { IfSome result (λ option. (option_data option).key ≡ key) }
    ensures value { IfSome result (λ option. IsValue (option_data option).key value.now (option_data option).said) }
    ensures none { result ≡ None → (option : OptionData) → option.key ≡ key
        → ¬ IsValue option.key value.now option.said }
{
    match key {
        Key::Hits => match read_number(value, 1, MOST_HITS) {
            Some(k) => Some(OptionWord::Hits(k)),
            None => None,
        },
        Key::Limits => match read_budgets(value) {
            Some(budgets) => Some(OptionWord::Limits(budgets)),
            None => None,
        },
        Key::Tag => {
            if is_tag(value) {
                Some(OptionWord::Tag(value))
            } else {
                None
            }
        }
        Key::Reading => match read_mode(value) {
            Some(mode) => Some(OptionWord::Reading(mode)),
            None => None,
        },
        Key::Stopping => match read_until(value) {
            Some(until) => Some(OptionWord::Stopping(until)),
            None => None,
        },
        Key::Weights => match read_rule(value) {
            Some(rule) => Some(OptionWord::Weights(rule)),
            None => None,
        },
        Key::Width => match read_bits(value) {
            Some(bits) => Some(OptionWord::Width(bits)),
            None => None,
        },
        Key::Frames => match read_number(value, 1, MOST_FRAMES as u32) {
            Some(frames) => Some(OptionWord::Frames(frames)),
            None => None,
        },
    }
}

/// The budgets between commas.
fn read_budgets(value: &str) -> Option<Budgets>
    ensures some { IfSome result (λ limits. AreBudgets value.now limits) }
    ensures none { result ≡ None → (limits : List Budget) → ¬ AreBudgets value.now limits }
{
    let mut budgets = Budgets::none();
    let mut rest = value;
    'budgets: while let Some((first, behind)) = rest.split_once(',') {
        let Some(budget) = read_budget(first) else {
            return None;
        };
        let Some(more) = budgets.with(budget) else {
            return None;
        };
        budgets = more;
        rest = behind;
    }
    let Some(last) = read_budget(rest) else {
        return None;
    };
    budgets.with(last)
}

fn is_tag(value: &str) -> bool
    ensures { IsTrue result ↔ IsTag value.now }
{
    let bytes = value.as_bytes();
    !bytes.is_empty()
        && bytes.len() <= LONGEST_TAG
        && bytes.iter().all(|byte| *byte >= 33 && *byte <= 126)
}

fn read_mode(value: &str) -> Option<Mode>
    ensures some { IfSome result (λ mode. IsMode value.now mode) }
    ensures none { result ≡ None → (mode : Mode) → ¬ IsMode value.now mode }
{
    if value == "plain" {
        Some(Mode::Plain)
    } else if value == "folded" {
        Some(Mode::Folded)
    } else {
        None
    }
}

fn read_until(value: &str) -> Option<Until>
    ensures some { IfSome result (λ until. IsUntil value.now until) }
    ensures none { result ≡ None → (until : Until) → ¬ IsUntil value.now until }
{
    if value == "budget" {
        Some(Until::Budget)
    } else if value == "final" {
        Some(Until::Final)
    } else {
        None
    }
}

fn read_rule(value: &str) -> Option<Rule>
    ensures some { IfSome result (λ rule. IsRule value.now rule) }
    ensures none { result ≡ None → (rule : Rule) → ¬ IsRule value.now rule }
{
    if value == "tf" {
        Some(Rule::Tf)
    } else if value == "bm25" {
        Some(Rule::Bm25)
    } else {
        None
    }
}

fn read_bits(value: &str) -> Option<Bits>
    ensures some { IfSome result (λ bits. IsBits value.now bits) }
    ensures none { result ≡ None → (bits : Bits) → ¬ IsBits value.now bits }
{
    if value == "raw" {
        return Some(Bits::Raw);
    }
    match read_decimal(value.as_bytes()) {
        Some(bits) if bits >= 1 && bits <= MOST_BITS => Some(Bits::Of(bits as u8)),
        _ => None,
    }
}
