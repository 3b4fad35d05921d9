ghost use Rattle.std.specs.Prelude.{◌≤◌};
ghost use Rattle.jass_base.specs.declared.limits.TheConstants.{MOST_FRAMES};
ghost use Rattle.jass_top.specs.Private.Causes.{Runs};
ghost use Rattle.jass_top.specs.ServeMeaning.{serve_meaning};
ghost use Rattle.jass_top.specs.Worlds.{outer};

use crate::index_input::open_index;
use crate::serve_lines::serve_lines;
use crate::serve_stop::ServeStop;
use crate::stop::{INPUT, OUTPUT, Stop};
use feed_lines::FeedLines;
use jass_base::{Cabinet, Feed, Sink, Steps};
use jass_words::word_limits::MOST_TAKEN;
use session_desk::Desk;
use std::alloc::Global;
use std::sync::ledger::Ledger;

/// Answers the lines of the input at a desk over an index file.
pub fn run_serve<'a, C: Cabinet, I: Feed, O: Sink, L: Ledger>(
    alloc: Global,
    index: &'a str,
    frames: u32,
    files: &mut C,
    input: &mut I,
    out: &mut O,
    steps: &mut Steps<L>,
) -> Result<(), Stop<'a>>
    requires some { 1 ≤ frames }
    requires few { frames ≤ MOST_FRAMES }
    ensures runs { Runs (serve_meaning index.now frames)
        (outer C.Cabinet I.Feed O.Sink files.old input.old out.old steps.old)
        (outer C.Cabinet I.Feed O.Sink files.new input.new out.new steps.new) result }
    ensures later { C.write_faults files.old ≤ C.write_faults files.new }
{
    let file = match open_index(alloc, files, index) {
        Ok(file) => file,
        Err(stop) => return Err(stop),
    };
    let mut lines = match FeedLines::new(alloc, MOST_TAKEN) {
        Ok(lines) => lines,
        Err(_) => {
            drop(file);
            return Err(Stop::NoMemory);
        }
    };
    let mut desk = match Desk::new(alloc, file, frames) {
        Ok(desk) => desk,
        Err(_) => {
            drop(lines);
            return Err(Stop::NoMemory);
        }
    };
    let served = serve_lines(&mut desk, &mut lines, input, out, steps);
    drop(lines);
    let file = desk.close();
    drop(file);
    match served {
        Ok(()) => Ok(()),
        Err(ServeStop::NoMemory) => Err(Stop::NoMemory),
        Err(ServeStop::ReadFault) => Err(Stop::ReadFault { name: INPUT }),
        Err(ServeStop::WriteFault) => Err(Stop::WriteFault { name: OUTPUT }),
        Err(ServeStop::Limit) => Err(Stop::InputLimit),
    }
}
