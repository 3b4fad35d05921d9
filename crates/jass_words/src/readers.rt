//! A reader for each command. It takes all words, of which the first is the command's.

ghost use Rattle.std.specs.Prelude.{◌≡◌};
ghost use Rattle.jass_words.specs.declared.names.Name.{Name};
ghost use Rattle.jass_words.specs.Words.{texts};
ghost use Rattle.jass_words.specs.Private.Reading.{ReadsAs};

use crate::budgets::Budgets;
use crate::command::{Asked, Audit, Command, Import, Once, Serve, Shards, Trial};
use crate::files::read_files;
use crate::keys::Key;
use crate::options::{read_frames, read_options};
use crate::slots::{budget_at, file_at, files_from, number_at, read_end};
use crate::term_words::read_terms;
use crate::until::Until;
use crate::word_fault::WordFault;
use crate::word_limits::{LEAST_PARTS, MOST_PARTS, MOST_QUERIES, MOST_SEED};
use jass_base::limits::{MOST_HITS, MOST_TRIAL};
use query_reader::Mode;
use weights::{Bits, Rule};

/// The hits that are asked for where no option says otherwise.
const USUAL_HITS: u32 = 1_000;

pub fn read_once<'a>(words: &'a [String]) -> Result<Command<'a>, WordFault>
    ensures { ReadsAs Name.Once (texts words.now) result }
{
    let Some(ciff) = file_at(words, 1, &[]) else {
        return Err(WordFault { which: 2 });
    };
    let Some(k) = number_at(words, 2, 1, MOST_HITS) else {
        return Err(WordFault { which: 3 });
    };
    let Some(budget) = budget_at(words, 3) else {
        return Err(WordFault { which: 4 });
    };
    let terms = match read_terms(words, 4) {
        Ok(terms) => terms,
        Err(fault) => return Err(fault),
    };
    Ok(Command::Once(Once {
        ciff,
        k,
        budget,
        terms,
    }))
}

pub fn read_rewrite<'a>(words: &'a [String]) -> Result<Command<'a>, WordFault>
    ensures { ReadsAs Name.Rewrite (texts words.now) result }
{
    match read_files(words) {
        Ok((from, to)) => Ok(Command::Rewrite { from, to }),
        Err(fault) => Err(fault),
    }
}

pub fn read_import<'a>(words: &'a [String]) -> Result<Command<'a>, WordFault>
    ensures { ReadsAs Name.Import (texts words.now) result }
{
    let Some(ciff) = file_at(words, 1, &[]) else {
        return Err(WordFault { which: 2 });
    };
    let Some(index) = file_at(words, 2, &[ciff]) else {
        return Err(WordFault { which: 3 });
    };
    match read_options(words, 3, &[Key::Weights, Key::Width]) {
        Ok(options) => Ok(Command::Import(Import {
            ciff,
            index,
            rule: options.rule.unwrap_or(Rule::Tf),
            bits: options.bits.unwrap_or(Bits::Raw),
        })),
        Err(fault) => Err(fault),
    }
}

pub fn read_check<'a>(words: &'a [String]) -> Result<Command<'a>, WordFault>
    ensures { ReadsAs Name.Check (texts words.now) result }
{
    let Some(index) = file_at(words, 1, &[]) else {
        return Err(WordFault { which: 2 });
    };
    read_end(words, 2)?;
    Ok(Command::Check { index })
}

pub fn read_export<'a>(words: &'a [String]) -> Result<Command<'a>, WordFault>
    ensures { ReadsAs Name.Export (texts words.now) result }
{
    match read_files(words) {
        Ok((index, ciff)) => Ok(Command::Export { index, ciff }),
        Err(fault) => Err(fault),
    }
}

pub fn read_migrate<'a>(words: &'a [String]) -> Result<Command<'a>, WordFault>
    ensures { ReadsAs Name.Migrate (texts words.now) result }
{
    match read_files(words) {
        Ok((from, to)) => Ok(Command::Migrate { from, to }),
        Err(fault) => Err(fault),
    }
}

pub fn read_search<'a>(words: &'a [String]) -> Result<Command<'a>, WordFault>
    ensures { ReadsAs Name.Search (texts words.now) result }
{
    let Some(index) = file_at(words, 1, &[]) else {
        return Err(WordFault { which: 2 });
    };
    let Some(queries) = file_at(words, 2, &[index]) else {
        return Err(WordFault { which: 3 });
    };
    let Some(run) = file_at(words, 3, &[index, queries]) else {
        return Err(WordFault { which: 4 });
    };
    let allowed = [
        Key::Hits,
        Key::Limits,
        Key::Tag,
        Key::Reading,
        Key::Stopping,
    ];
    match read_options(words, 4, &allowed) {
        Ok(options) => Ok(Command::Search {
            index,
            queries,
            run,
            asked: Asked {
                k: options.hits.unwrap_or(USUAL_HITS),
                tag: options.tag.unwrap_or("jass"),
                mode: options.mode.unwrap_or(Mode::Plain),
            },
            budgets: options.limits.unwrap_or(Budgets::all()).grants(),
            until: options.until.unwrap_or(Until::Budget),
        }),
        Err(fault) => Err(fault),
    }
}

pub fn read_shards<'a>(words: &'a [String]) -> Result<Command<'a>, WordFault>
    ensures { ReadsAs Name.Shards (texts words.now) result }
{
    let Some(parts) = number_at(words, 1, LEAST_PARTS, MOST_PARTS) else {
        return Err(WordFault { which: 2 });
    };
    let files = match files_from(words, 2, parts + 2) {
        Ok(files) => files,
        Err(fault) => return Err(fault),
    };
    let allowed = [Key::Hits, Key::Limits, Key::Tag, Key::Reading];
    match read_options(words, parts + 4, &allowed) {
        Ok(options) => Ok(Command::Shards(Shards {
            indexes: &files[..parts as usize],
            queries: files[parts as usize].as_str(),
            run: files[parts as usize + 1].as_str(),
            asked: Asked {
                k: options.hits.unwrap_or(USUAL_HITS),
                tag: options.tag.unwrap_or("jass"),
                mode: options.mode.unwrap_or(Mode::Plain),
            },
            budgets: options.limits.unwrap_or(Budgets::all()).grants(),
        })),
        Err(fault) => Err(fault),
    }
}

pub fn read_exhaust<'a>(words: &'a [String]) -> Result<Command<'a>, WordFault>
    ensures { ReadsAs Name.Exhaust (texts words.now) result }
{
    let Some(index) = file_at(words, 1, &[]) else {
        return Err(WordFault { which: 2 });
    };
    let Some(queries) = file_at(words, 2, &[index]) else {
        return Err(WordFault { which: 3 });
    };
    let Some(run) = file_at(words, 3, &[index, queries]) else {
        return Err(WordFault { which: 4 });
    };
    match read_options(words, 4, &[Key::Hits, Key::Tag, Key::Reading]) {
        Ok(options) => Ok(Command::Exhaust {
            index,
            queries,
            run,
            asked: Asked {
                k: options.hits.unwrap_or(USUAL_HITS),
                tag: options.tag.unwrap_or("jass"),
                mode: options.mode.unwrap_or(Mode::Plain),
            },
        }),
        Err(fault) => Err(fault),
    }
}

pub fn read_audit<'a>(words: &'a [String]) -> Result<Command<'a>, WordFault>
    ensures { ReadsAs Name.Audit (texts words.now) result }
{
    let Some(index) = file_at(words, 1, &[]) else {
        return Err(WordFault { which: 2 });
    };
    let Some(queries) = file_at(words, 2, &[index]) else {
        return Err(WordFault { which: 3 });
    };
    let Some(run) = file_at(words, 3, &[index, queries]) else {
        return Err(WordFault { which: 4 });
    };
    let Some(reports) = file_at(words, 4, &[index, queries, run]) else {
        return Err(WordFault { which: 5 });
    };
    let allowed = [Key::Hits, Key::Limits, Key::Tag, Key::Reading];
    match read_options(words, 5, &allowed) {
        Ok(options) => Ok(Command::Audit(Audit {
            index,
            queries,
            run,
            reports,
            asked: Asked {
                k: options.hits.unwrap_or(USUAL_HITS),
                tag: options.tag.unwrap_or("jass"),
                mode: options.mode.unwrap_or(Mode::Plain),
            },
            budgets: options.limits.unwrap_or(Budgets::all()).grants(),
        })),
        Err(fault) => Err(fault),
    }
}

pub fn read_serve<'a>(words: &'a [String]) -> Result<Command<'a>, WordFault>
    ensures { ReadsAs Name.Serve (texts words.now) result }
{
    let Some(index) = file_at(words, 1, &[]) else {
        return Err(WordFault { which: 2 });
    };
    match read_frames(words, 2) {
        Ok(frames) => Ok(Command::Serve(Serve { index, frames })),
        Err(fault) => Err(fault),
    }
}

pub fn read_trial<'a>(words: &'a [String]) -> Result<Command<'a>, WordFault>
    ensures { ReadsAs Name.Trial (texts words.now) result }
{
    let Some(seed) = number_at(words, 1, 0, MOST_SEED) else {
        return Err(WordFault { which: 2 });
    };
    let Some(docs) = number_at(words, 2, 1, MOST_TRIAL) else {
        return Err(WordFault { which: 3 });
    };
    let Some(terms) = number_at(words, 3, 1, MOST_TRIAL) else {
        return Err(WordFault { which: 4 });
    };
    let Some(queries) = number_at(words, 4, 0, MOST_QUERIES) else {
        return Err(WordFault { which: 5 });
    };
    read_end(words, 5)?;
    Ok(Command::Trial(Trial {
        seed,
        docs,
        terms,
        queries,
    }))
}

pub fn read_help<'a>(words: &'a [String]) -> Result<Command<'a>, WordFault>
    ensures { ReadsAs Name.Help (texts words.now) result }
{
    read_end(words, 1)?;
    Ok(Command::Help)
}

pub fn read_version<'a>(words: &'a [String]) -> Result<Command<'a>, WordFault>
    ensures { ReadsAs Name.Version (texts words.now) result }
{
    read_end(words, 1)?;
    Ok(Command::Version)
}
