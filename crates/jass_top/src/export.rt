ghost use Rattle.std.specs.Prelude.{◌≤◌};
ghost use Rattle.jass_top.specs.Private.Causes.{Runs};
ghost use Rattle.jass_top.specs.ExportMeaning.{export_meaning};
ghost use Rattle.jass_top.specs.Worlds.{Outer};
ghost use Rattle.jass_top.specs.Private.Worlds.{with_files, with_steps};

use crate::collection_file::write_file;
use crate::index_input::open_index;
use crate::stop::Stop;
use index_export::export_collection;
use jass_base::{Cabinet, Steps};
use std::alloc::Global;
use std::sync::ledger::Ledger;

/// Writes the collection of an index as a CIFF file, with the impacts as term frequencies.
pub fn run_export<'a, C: Cabinet, L: Ledger>(
    alloc: Global,
    index: &'a str,
    ciff: &'a str,
    files: &mut C,
    steps: &mut Steps<L>,
) -> Result<(), Stop<'a>>
    ensures runs { (beside : Outer) → Runs (export_meaning index.now ciff.now)
        (with_files C.Cabinet files.old (with_steps steps.old beside))
        (with_files C.Cabinet files.new (with_steps steps.new beside)) result }
    ensures later { C.write_faults files.old ≤ C.write_faults files.new }
{
    let file = match open_index(alloc, files, index) {
        Ok(file) => file,
        Err(stop) => return Err(stop),
    };
    let made = export_collection(alloc, &file, steps);
    drop(file);
    let collection = match made {
        Ok(collection) => collection,
        Err(_) => return Err(Stop::NoMemory),
    };
    let written = write_file(&collection, files, ciff);
    drop(collection);
    match written {
        Ok(()) => Ok(()),
        Err(_) => Err(Stop::WriteFault { name: ciff }),
    }
}
