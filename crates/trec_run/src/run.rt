ghost use Rattle.std.specs.Prelude.{◌≡◌, ◌⊎◌, ◌<◌, Err, MatchResult, MatchOption, true, false, nat_eq, codes};
ghost use Rattle.std.specs.Str.{is_utf8};
ghost use Rattle.std.specs.Cmp.Lexicographic.{pointwise};
ghost use Rattle.jass_base.specs.Decimal.{decimal_of};
ghost use Rattle.trec_run.specs.Runs.{at_line, with_numbers, read_line, run_of};

use crate::columns::{Six, six_columns};
use crate::run_line::{RunFault, RunLine, RunWhy};
use jass_base::{Row, Text, read_decimal};
use std::alloc::Global;
use text_lines::Lines;

/// Reads a run in TREC's six columns, which spaces and tabs divide: the query's id, `Q0`, the
/// document's name, its rank, its score, and the tag. Lines without bytes are passed by but
/// counted. The refusal is that of the first bad line.
pub fn read_run(alloc: Global, bytes: &[u8]) -> Result<Row<RunLine>, RunFault>
    ensures { (result ≡ run_of bytes.now) ⊎ (result ≡ Err RunFault.NoMemory) }
{
    let mut run = Row::new(alloc);
    for line in Lines::new(bytes) {
        if !line.bytes.is_empty() {
            let read = read_line(alloc, line.number, line.bytes)?;
            match run.push(read) {
                Ok(()) => {}
                Err(_) => return Err(RunFault::NoMemory),
            }
        }
    }
    Ok(run)
}

/// Reads a line that has bytes.
fn read_line(alloc: Global, number: u64, line: &[u8]) -> Result<RunLine, RunFault>
    ensures { (result ≡ at_line number (read_line line.now)) ⊎ (result ≡ Err RunFault.NoMemory) }
{
    let Some(text) = utf8(line) else {
        return Err(refused(number, RunWhy::Columns));
    };
    let Some(six) = six_columns(text) else {
        return Err(refused(number, RunWhy::Columns));
    };
    if is_mark(six.mark) {
        run_line(alloc, number, six)
    } else {
        Err(refused(number, RunWhy::Columns))
    }
}

fn utf8(bytes: &[u8]) -> Option<&str>
    ensures { MatchOption result (is_utf8 bytes.now ≡ false)
        (λ text. (text.now ≡ bytes.now) × (is_utf8 bytes.now ≡ true)) }
{
    match std::str::from_utf8(bytes) {
        Ok(text) => Some(text),
        Err(_) => None,
    }
}

fn is_mark(column: &str) -> bool
    ensures { result ≡ pointwise nat_eq column.now (codes "Q0") }
{
    column == "Q0"
}

/// The line of six columns, where its numbers are numbers.
fn run_line(alloc: Global, number: u64, six: Six<'_>) -> Result<RunLine, RunFault>
    ensures { (result ≡ at_line number (with_numbers six.entry.id.now six.entry.name.now
        (decimal_of six.entry.rank.now) (decimal_of six.entry.score.now) six.entry.tag.now))
        ⊎ (result ≡ Err RunFault.NoMemory) }
{
    let Some(rank) = read_decimal(six.rank.as_bytes()) else {
        return Err(refused(number, RunWhy::Number));
    };
    let Some(score) = read_decimal(six.score.as_bytes()) else {
        return Err(refused(number, RunWhy::Number));
    };
    Ok(RunLine {
        id: text_of(alloc, six.id)?,
        name: text_of(alloc, six.name)?,
        rank,
        score,
        tag: text_of(alloc, six.tag)?,
    })
}

fn refused(line: u64, why: RunWhy) -> RunFault
    ensures { result ≡ RunFault.Refused line why }
{
    RunFault::Refused { line, why }
}

fn text_of(alloc: Global, text: &str) -> Result<Text, RunFault>
    ensures { MatchResult result (λ copy. copy ≡ text.now) (λ fault. fault ≡ RunFault.NoMemory) }
{
    match Text::from_str(alloc, text) {
        Ok(copy) => Ok(copy),
        Err(_) => Err(RunFault::NoMemory),
    }
}
