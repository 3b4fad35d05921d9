ghost use Rattle.std.specs.Prelude.{◌≡◌, ◌≤◌, [], ◌∷◌, IfOk, IfErr};
ghost use Rattle.index_model.specs.Views.{index_data};
ghost use Rattle.jass_top.specs.Private.Causes.{Runs, Unread};
ghost use Rattle.jass_top.specs.IndexJudging.{judge_old};
ghost use Rattle.jass_top.specs.Judging.{Accepted, Shows};
ghost use Rattle.jass_top.specs.MigrateMeaning.{migrate_meaning};
ghost use Rattle.jass_top.specs.Private.Worlds.{with_files, with_output};
ghost use Rattle.jass_top.specs.Worlds.{Outer};

use crate::saving::save_index;
use crate::stop::{Place, Stop};
use index_layout::OpenFault;
use index_version1::laws::the_front_is_enough;
use index_version1::read_version1;
use jass_base::limits::LONGEST_FILE;
use jass_base::{Cabinet, ImpactIndex, ReadStop, Sink};
use std::alloc::Global;
use whole_files::read_front;

/// How many bytes of a file are read at the most: one more than an index file may have, since a
/// longer file is refused whatever else stands in it.
const MOST_BYTES: usize = LONGEST_FILE as usize + 1;

/// Writes the index of a file of version 1 as an index file, and prints its totals.
pub fn run_migrate<'a, C: Cabinet, O: Sink>(
    alloc: Global,
    from: &'a str,
    to: &'a str,
    files: &mut C,
    out: &mut O,
) -> Result<(), Stop<'a>>
    ensures runs { (beside : Outer) → Runs (migrate_meaning from.now to.now)
        (with_output O.Sink out.old (with_files C.Cabinet files.old beside))
        (with_output O.Sink out.new (with_files C.Cabinet files.new beside)) result }
    ensures later { C.write_faults files.old ≤ C.write_faults files.new }
{
    let index = match read_old(alloc, files, from) {
        Ok(index) => index,
        Err(stop) => return Err(stop),
    };
    let saved = save_index(alloc, &index, from, to, files, out);
    drop(index);
    saved
}

/// Reads an index file of version 1.
fn read_old<'a, C: Cabinet>(
    alloc: Global,
    files: &mut C,
    name: &'a str,
) -> Result<ImpactIndex, Stop<'a>>
    ensures accepted { IfOk result (λ index.
        Shows (judge_old name.now (C.told files.old)) (Accepted (index_data index))) }
    ensures unread { IfErr result (λ stop. Unread (name.now ∷ []) (judge_old name.now (C.told files.old))
        (C.read_faults files.old) (C.read_faults files.new) stop) }
    ensures stays { C.told files.new ≡ C.told files.old }
    ensures later { C.read_faults files.old ≤ C.read_faults files.new }
    ensures others { C.write_faults files.old ≤ C.write_faults files.new }
{
    the_front_is_enough();
    let bytes = match read_front(alloc, files, name, MOST_BYTES) {
        Ok(bytes) => bytes,
        Err(ReadStop::ReadFault) => return Err(Stop::ReadFault { name }),
        Err(ReadStop::NoMemory) => return Err(Stop::NoMemory),
    };
    match read_version1(alloc, bytes.as_slice()) {
        Ok(index) => Ok(index),
        Err(OpenFault::Refused(refusal)) => Err(Stop::Refused {
            name,
            number: refusal.why.number(),
            at: Place::Byte(refusal.at),
        }),
        Err(_) => Err(Stop::NoMemory),
    }
}
