ghost use Rattle.std.specs.Prelude.{◌≡◌, ◌≢◌};
ghost use Rattle.jass_words.specs.Words.{CommandData, texts, IsCommand};
ghost use Rattle.jass_top.specs.Commands.{meaning_of};
ghost use Rattle.jass_top.specs.Endings.{AreSome, Ends, EndsAtWords};
ghost use Rattle.jass_top.specs.Private.Stops.{status_of};
ghost use Rattle.jass_top.specs.Worlds.{world};

use crate::command::run_command;
use crate::note::{put_stop, put_word};
use crate::status::Status;
use crate::stop::Stop;
use jass_base::{Cabinet, Feed, Sink, Steps};
use jass_words::laws::words_are_one_command;
use jass_words::read_words;
use std::alloc::Global;
use std::sync::ledger::Ledger;

/// Runs the command of the words, which are the command line without the program's name, and
/// notes why it isn't done, where it isn't. A fault of the notes changes no status.
pub fn run<C: Cabinet, I: Feed, O: Sink, E: Sink, L: Ledger>(
    alloc: Global,
    words: &[String],
    files: &mut C,
    input: &mut I,
    out: &mut O,
    notes: &mut E,
    steps: &mut Steps<L>,
) -> Status
    ensures command { result ≢ Status.Words → AreSome (texts words.now) }
    ensures words { result ≡ Status.Words → EndsAtWords (texts words.now)
        (world C.Cabinet I.Feed O.Sink E.Sink files.old input.old out.old notes.old steps.old)
        (world C.Cabinet I.Feed O.Sink E.Sink files.new input.new out.new notes.new steps.new) }
    ensures ends { (command : CommandData) → IsCommand (texts words.now) command → Ends (meaning_of command)
        (world C.Cabinet I.Feed O.Sink E.Sink files.old input.old out.old notes.old steps.old)
        (world C.Cabinet I.Feed O.Sink E.Sink files.new input.new out.new notes.new steps.new) result }
{
    words_are_one_command();
    let command = match read_words(words) {
        Ok(command) => command,
        Err(fault) => {
            let _ = put_word(notes, fault.which);
            return Status::Words;
        }
    };
    match run_command(alloc, command, files, input, out, steps) {
        Ok(()) => Status::Done,
        Err(stop) => {
            let _ = put_stop(notes, stop);
            status_of(stop)
        }
    }
}

/// The status of a command that stopped.
fn status_of(stop: Stop<'_>) -> Status
    ensures { result ≡ status_of stop.entry }
{
    match stop {
        Stop::NoMemory => Status::NoMemory,
        Stop::Refused { .. } => Status::Refused,
        Stop::ReadFault { .. } => Status::ReadFault,
        Stop::WriteFault { .. } => Status::WriteFault,
        Stop::InputLimit => Status::InputLimit,
    }
}
