ghost use Rattle.std.specs.Prelude.{◌≡◌, ◌≤◌, length, IfSome};
ghost use Rattle.std.specs.List.{list_all};
ghost use Rattle.std.specs.Option.{option_map};
ghost use Rattle.query_reader.specs.Texts.{blank_runs};
ghost use Rattle.session_desk.specs.Private.Commands.{FitsLine, command_data, name_data};
ghost use Rattle.session_desk.specs.Lines.{budget_of, command_of, end_of, grant_of, is_name, is_name_byte, k_of, only_name, open_of, read_desk_line};
ghost use Rattle.jass_base.specs.declared.limits.TheConstants.{LONGEST_LINE, MOST_HITS};

use crate::command::Command;
use crate::desk_limits::LONGEST_SESSION_NAME;
use crate::words::next_word;
use jass_base::limits::{LONGEST_LINE, MOST_HITS};
use jass_base::{Budget, read_decimal};

/// The command of a line, or `None` where it is a bad line.
#[tactic(auto, unfolding(crate::specs::Lines::read_desk_line))]
pub fn read_command(line: &[u8]) -> Option<Command<'_>>
    ensures command { option_map command_data result ≡ read_desk_line line.now }
    ensures fits { FitsLine result }
{
    if line.len() > LONGEST_LINE {
        return None;
    }
    let Ok(text) = str::from_utf8(line) else {
        return None;
    };
    let (verb, words) = next_word(text)?;
    command_of(verb, words)
}

/// The command of a first word and those behind it.
#[tactic(auto, unfolding(crate::specs::Lines::command_of))]
fn command_of<'a>(verb: &str, words: &'a str) -> Option<Command<'a>>
    requires { length words.now ≤ LONGEST_LINE }
    ensures command { option_map command_data result ≡ command_of verb.now (blank_runs words.now) }
    ensures fits { FitsLine result }
{
    match verb {
        "open" => read_open(words),
        "grant" => read_grant(words),
        "top" => Some(Command::Top {
            name: only_name(words)?,
        }),
        "why" => Some(Command::Why {
            name: only_name(words)?,
        }),
        "close" => Some(Command::Close {
            name: only_name(words)?,
        }),
        "end" => read_end(words),
        _ => None,
    }
}

/// What stands behind `open`: a name, a number of documents, and mentions.
fn read_open(words: &str) -> Option<Command<'_>>
    requires { length words.now ≤ LONGEST_LINE }
    ensures command { option_map command_data result ≡ open_of (blank_runs words.now) }
    ensures fits { FitsLine result }
{
    let (name, behind) = next_word(words)?;
    let (count, mentions) = next_word(behind)?;
    if !is_name(name) {
        return None;
    }
    let k = read_k(count)?;
    Some(Command::Open { name, k, mentions })
}

/// What stands behind `grant`: a name and a budget.
fn read_grant(words: &str) -> Option<Command<'_>>
    ensures command { option_map command_data result ≡ grant_of (blank_runs words.now) }
    ensures fits { FitsLine result }
{
    let (name, behind) = next_word(words)?;
    let (amount, behind) = next_word(behind)?;
    if next_word(behind).is_some() || !is_name(name) {
        return None;
    }
    let budget = read_budget(amount)?;
    Some(Command::Grant { name, budget })
}

/// One name, and nothing behind it.
fn only_name(words: &str) -> Option<&str>
    ensures { option_map name_data result ≡ only_name (blank_runs words.now) }
{
    let (name, behind) = next_word(words)?;
    if next_word(behind).is_some() || !is_name(name) {
        return None;
    }
    Some(name)
}

/// Nothing behind `end`.
fn read_end(words: &str) -> Option<Command<'_>>
    ensures command { option_map command_data result ≡ end_of (blank_runs words.now) }
    ensures fits { FitsLine result }
{
    match next_word(words) {
        Some(_) => None,
        None => Some(Command::End),
    }
}

/// Whether a word is a session's name.
#[tactic(auto, unfolding(crate::specs::Lines::is_name))]
fn is_name(word: &str) -> bool
    ensures { result ≡ is_name word.now }
{
    !word.is_empty() && word.len() <= LONGEST_SESSION_NAME && are_name_bytes(word.as_bytes())
}

/// Whether all bytes may stand in a name.
fn are_name_bytes(bytes: &[u8]) -> bool
    ensures { result ≡ list_all is_name_byte bytes.now }
{
    bytes.iter().all(|byte| is_name_byte(*byte))
}

/// Whether a byte may stand in a name.
fn is_name_byte(byte: u8) -> bool
    ensures { result ≡ is_name_byte byte }
{
    byte.is_ascii_alphanumeric() || byte == b'-' || byte == b'_' || byte == b'.'
}

/// The number of documents that a word asks for.
#[tactic(auto, unfolding(crate::specs::Lines::k_of))]
fn read_k(word: &str) -> Option<u32>
    ensures k { result ≡ k_of word.now }
    ensures range { IfSome result (λ k. (1 ≤ k) × (k ≤ MOST_HITS)) }
{
    match read_decimal(word.as_bytes()) {
        Some(k) if k >= 1 && k <= u64::from(MOST_HITS) => Some(k as u32),
        _ => None,
    }
}

/// The budget of a word.
#[tactic(auto, unfolding(crate::specs::Lines::budget_of))]
fn read_budget(word: &str) -> Option<Budget>
    ensures { result ≡ budget_of word.now }
{
    if word == "all" {
        return Some(Budget::All);
    }
    match read_decimal(word.as_bytes()) {
        Some(count) => Some(Budget::Postings(count)),
        None => None,
    }
}
