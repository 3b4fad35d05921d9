ghost use Rattle.std.specs.Prelude.{◌≤◌};
ghost use Rattle.jass_top.specs.CheckMeaning.{check_meaning};
ghost use Rattle.jass_top.specs.Private.Causes.{Runs};
ghost use Rattle.jass_top.specs.Private.Worlds.{with_files, with_output};
ghost use Rattle.jass_top.specs.Worlds.{Outer};

use crate::index_input::check_index;
use crate::stop::{OUTPUT, Stop};
use jass_base::{Cabinet, Sink};
use std::alloc::Global;
use trec_run::put_totals;

/// Prints the totals of an index file, each byte of which is checked.
pub fn run_check<'a, C: Cabinet, O: Sink>(
    alloc: Global,
    index: &'a str,
    files: &mut C,
    out: &mut O,
) -> Result<(), Stop<'a>>
    ensures runs { (beside : Outer) → Runs (check_meaning index.now)
        (with_output O.Sink out.old (with_files C.Cabinet files.old beside))
        (with_output O.Sink out.new (with_files C.Cabinet files.new beside)) result }
    ensures later { C.write_faults files.old ≤ C.write_faults files.new }
{
    let totals = check_index(alloc, files, index)?;
    match put_totals(out, totals) {
        Ok(()) => Ok(()),
        Err(_) => Err(Stop::WriteFault { name: OUTPUT }),
    }
}
