ghost use Rattle.std.specs.Prelude.{◌≤◌};
ghost use Rattle.index_model.specs.Views.{index_data};
ghost use Rattle.jass_top.specs.Private.Causes.{Runs};
ghost use Rattle.jass_top.specs.Private.HeldIndexes.{saving_meaning};
ghost use Rattle.jass_top.specs.Private.Worlds.{with_files, with_output};
ghost use Rattle.jass_top.specs.Worlds.{Outer};

use crate::stop::{OUTPUT, Place, Stop};
use index_write::{SaveFault, totals, write_index};
use jass_base::{Cabinet, ImpactIndex, Sink};
use std::alloc::Global;
use trec_run::put_totals;

/// The refusal of an index that would have more than 2^32 bytes as a file.
pub const TOO_LARGE: u32 = 49;

/// Makes a file of an index that was made of an input, and prints its totals.
pub fn save_index<'a, C: Cabinet, O: Sink>(
    alloc: Global,
    index: &ImpactIndex,
    input: &'a str,
    file: &'a str,
    files: &mut C,
    out: &mut O,
) -> Result<(), Stop<'a>>
    ensures runs { (beside : Outer) → Runs (saving_meaning input.now file.now (index_data index.now))
        (with_output O.Sink out.old (with_files C.Cabinet files.old beside))
        (with_output O.Sink out.new (with_files C.Cabinet files.new beside)) result }
    ensures later { C.write_faults files.old ≤ C.write_faults files.new }
{
    match write_index(alloc, index, files, file) {
        Ok(()) => {}
        Err(SaveFault::TooLarge { length }) => {
            return Err(Stop::Refused {
                name: input,
                number: TOO_LARGE,
                at: Place::Byte(length),
            });
        }
        Err(SaveFault::WriteFault) => return Err(Stop::WriteFault { name: file }),
        Err(SaveFault::NoMemory) => return Err(Stop::NoMemory),
    }
    match put_totals(out, totals(index)) {
        Ok(()) => Ok(()),
        Err(_) => Err(Stop::WriteFault { name: OUTPUT }),
    }
}
