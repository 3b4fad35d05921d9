ghost use Rattle.std.specs.Prelude.{◌≡◌, ◌≤◌, [], ◌∷◌, IfOk, IfErr};
ghost use Rattle.jass_base.specs.CiffViews.{collection_data};
ghost use Rattle.ciff_read.specs.Counts.{posting_count};
ghost use Rattle.jass_top.specs.Private.Causes.{Unread};
ghost use Rattle.jass_top.specs.Judging.{Accepted, Shows, judge_ciff};
ghost use Rattle.jass_base.specs.declared.limits.TheConstants.{MOST_POSTINGS};

use crate::stop::{Place, Stop};
use ciff_read::laws::the_front_is_enough;
use ciff_read::{CiffFault, read_collection};
use jass_base::limits::LONGEST_FILE;
use jass_base::{Cabinet, Collection, ReadStop};
use std::alloc::Global;
use whole_files::read_front;

/// How many bytes of a file are read at the most: what is behind them changes no answer, since a
/// message begins at 2^32 at the latest and its length has at most ten bytes.
const MOST_BYTES: usize = LONGEST_FILE as usize + 16;

/// Reads the collection of a CIFF file.
pub fn read_file<'a, C: Cabinet>(
    alloc: Global,
    files: &mut C,
    name: &'a str,
) -> Result<Collection, Stop<'a>>
    ensures accepted { IfOk result (λ collection.
        Shows (judge_ciff name.now (C.told files.old)) (Accepted (collection_data collection))) }
    ensures few { IfOk result (λ collection. posting_count collection.lists ≤ MOST_POSTINGS) }
    ensures unread { IfErr result (λ stop. Unread (name.now ∷ []) (judge_ciff name.now (C.told files.old))
        (C.read_faults files.old) (C.read_faults files.new) stop) }
    ensures stays { C.told files.new ≡ C.told files.old }
    ensures later { C.read_faults files.old ≤ C.read_faults files.new }
    ensures others { C.write_faults files.old ≤ C.write_faults files.new }
{
    the_front_is_enough();
    let bytes = match read_front(alloc, files, name, MOST_BYTES) {
        Ok(bytes) => bytes,
        Err(ReadStop::ReadFault) => return Err(Stop::ReadFault { name }),
        Err(ReadStop::NoMemory) => return Err(Stop::NoMemory),
    };
    match read_collection(alloc, bytes.as_slice()) {
        Ok(collection) => Ok(collection),
        Err(CiffFault::Refused(refusal)) => Err(Stop::Refused {
            name,
            number: refusal.why.number(),
            at: Place::Byte(refusal.at),
        }),
        Err(_) => Err(Stop::NoMemory),
    }
}
