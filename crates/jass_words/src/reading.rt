ghost use Rattle.std.specs.Prelude.{◌≡◌, ◌≢◌, Some, None, IfOk, IfErr, IfSome, slice_get};
ghost use Rattle.jass_words.specs.declared.names.Name.{Name};
ghost use Rattle.jass_words.specs.Commands.{command_data};
ghost use Rattle.jass_words.specs.Table.{word_of};
ghost use Rattle.jass_words.specs.Words.{texts, IsCommand, IsBadWord};
ghost use Rattle.jass_words.specs.Private.Reading.{ReadsAs};

use crate::command::Command;
use crate::names::Name;
use crate::readers::{
    read_audit, read_check, read_exhaust, read_export, read_help, read_import, read_migrate,
    read_once, read_rewrite, read_search, read_serve, read_shards, read_trial, read_version,
};
use crate::word_fault::WordFault;

/// Reads the words of the command line, without the program's name.
pub fn read_words<'a>(words: &'a [String]) -> Result<Command<'a>, WordFault>
    ensures command { IfOk result (λ command. IsCommand (texts words.now) (command_data command)) }
    ensures bad_word { IfErr result (λ fault. IsBadWord (texts words.now) fault.which) }
{
    let Some(name) = name_of(words) else {
        return Err(WordFault { which: 1 });
    };
    read_behind(name, words)
}

/// The command that the first word names.
fn name_of(words: &[String]) -> Option<Name>
    ensures some { IfSome result (λ name. slice_get (texts words.now) 0 ≡ Some (word_of name)) }
    ensures none { result ≡ None → (name : Name) → slice_get (texts words.now) 0 ≢ Some (word_of name) }
{
    match words.first() {
        Some(word) => Name::of(word.as_str()),
        None => None,
    }
}

/// Reads the words behind a command's name.
fn read_behind<'a>(name: Name, words: &'a [String]) -> Result<Command<'a>, WordFault>
    ensures { ReadsAs name (texts words.now) result }
{
    match name {
        Name::Once => read_once(words),
        Name::Rewrite => read_rewrite(words),
        Name::Import => read_import(words),
        Name::Check => read_check(words),
        Name::Export => read_export(words),
        Name::Migrate => read_migrate(words),
        Name::Search => read_search(words),
        Name::Shards => read_shards(words),
        Name::Exhaust => read_exhaust(words),
        Name::Audit => read_audit(words),
        Name::Serve => read_serve(words),
        Name::Trial => read_trial(words),
        Name::Help => read_help(words),
        Name::Version => read_version(words),
    }
}
