ghost use Rattle.std.specs.Prelude.{ℕ, ◌≡◌};
ghost use Rattle.std.specs.Process.{exit_status};
ghost use Rattle.jass_top.specs.Worlds.{world};
ghost use Rattle.jass.specs.Exits.{Exits};

use crate::arguments::Arguments;
use crate::words::words_of;
use jass_base::{Cabinet, Feed, Sink, Steps};
use jass_top::{Status, run};
use std::alloc::Global;
use std::io::Eprint;
use std::marker::Model;
use std::process::{ExitCode, Termination};
use std::sync::ledger::Ledger;

/// How a program ends: by its exit status, which only a run of a command line makes.
#[derive(Drop)]
pub struct Exit {
    status: u8,
}

impl Model for Exit {
    ghost use Rattle.std.specs.Prelude.{ℕ};

    ghost Value = { ℕ };

    ghost view = { λ exit. exit.status };
}

impl Exit {
    pub fn number(&self) -> u8
        ensures { result ≡ self.now }
    {
        self.status
    }
}

impl Termination for Exit {
    fn report<R: Eprint>(self, _rt: &R) -> ExitCode
        ensures { exit_status result ≡ self }
    {
        ExitCode::from(self.status)
    }
}

/// Runs the command of the arguments, and gives the end of the program.
pub fn run_line<A: Arguments, C: Cabinet, I: Feed, O: Sink, E: Sink, L: Ledger>(
    alloc: Global,
    arguments: &A,
    files: &mut C,
    input: &mut I,
    out: &mut O,
    notes: &mut E,
    steps: &mut Steps<L>,
) -> Exit
    ensures { Exits (A.told arguments.now)
        (world C.Cabinet I.Feed O.Sink E.Sink files.old input.old out.old notes.old steps.old)
        (world C.Cabinet I.Feed O.Sink E.Sink files.new input.new out.new notes.new steps.new) result }
{
    let Ok(words) = words_of(alloc, arguments) else {
        let _ = notes.put(b"no memory\n");
        return Exit {
            status: Status::NoMemory.number(),
        };
    };
    let status = run(alloc, words.as_slice(), files, input, out, notes, steps);
    Exit {
        status: status.number(),
    }
}
