ghost use Rattle.std.specs.Prelude.{◌≤◌};
ghost use Rattle.jass_top.specs.Private.Causes.{Runs};
ghost use Rattle.jass_top.specs.RewriteMeaning.{rewrite_meaning};
ghost use Rattle.jass_top.specs.Worlds.{Outer};
ghost use Rattle.jass_top.specs.Private.Worlds.{with_files};

use crate::collection_file::write_file;
use crate::input::read_file;
use crate::stop::Stop;
use jass_base::Cabinet;
use std::alloc::Global;

/// Writes the collection of a CIFF file in the canonical spelling into another file.
pub fn run_rewrite<'a, C: Cabinet>(
    alloc: Global,
    from: &'a str,
    to: &'a str,
    files: &mut C,
) -> Result<(), Stop<'a>>
    ensures runs { (beside : Outer) → Runs (rewrite_meaning from.now to.now)
        (with_files C.Cabinet files.old beside) (with_files C.Cabinet files.new beside) result }
    ensures later { C.write_faults files.old ≤ C.write_faults files.new }
{
    let collection = match read_file(alloc, files, from) {
        Ok(collection) => collection,
        Err(stop) => return Err(stop),
    };
    let written = write_file(&collection, files, to);
    drop(collection);
    match written {
        Ok(()) => Ok(()),
        Err(_) => Err(Stop::WriteFault { name: to }),
    }
}
