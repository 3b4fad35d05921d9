ghost use Rattle.std.specs.Prelude.{◌≡◌, ◌≤◌, [], ◌∷◌, IfOk, IfErr};
ghost use Rattle.index_layout.specs.Totals.{totals_of};
ghost use Rattle.index_layout.specs.View.{FileView, IsFileView};
ghost use Rattle.jass_top.specs.Private.Causes.{Unread};
ghost use Rattle.jass_top.specs.IndexJudging.{judge_index};
ghost use Rattle.jass_top.specs.Judging.{Accepted, Shows};

use crate::stop::{Place, Stop};
use index_check::check_file;
use index_file::{IndexFile, open};
use index_layout::OpenFault;
use jass_base::{Cabinet, Totals};
use std::alloc::Global;

/// Opens an index file, each byte of which is checked.
pub fn open_index<'a, C: Cabinet>(
    alloc: Global,
    files: &mut C,
    name: &'a str,
) -> Result<IndexFile, Stop<'a>>
    ensures accepted { IfOk result (λ file.
        Shows (judge_index name.now (C.told files.old)) (Accepted file)) }
    ensures view { IfOk result (λ file. IsFileView file) }
    ensures unread { IfErr result (λ stop. Unread (name.now ∷ []) (judge_index name.now (C.told files.old))
        (C.read_faults files.old) (C.read_faults files.new) stop) }
    ensures stays { C.told files.new ≡ C.told files.old }
    ensures later { C.read_faults files.old ≤ C.read_faults files.new }
    ensures others { C.write_faults files.old ≤ C.write_faults files.new }
{
    match open(alloc, files, name) {
        Ok(file) => Ok(file),
        Err(OpenFault::Refused(refusal)) => Err(Stop::Refused {
            name,
            number: refusal.why.number(),
            at: Place::Byte(refusal.at),
        }),
        Err(OpenFault::ReadFault) => Err(Stop::ReadFault { name }),
        Err(OpenFault::NoMemory) => Err(Stop::NoMemory),
    }
}

/// Checks each byte of an index file, and gives its totals. It holds one part with up to 64 KiB behind it, and two bytes
/// for each document.
pub fn check_index<'a, C: Cabinet>(
    alloc: Global,
    files: &mut C,
    name: &'a str,
) -> Result<Totals, Stop<'a>>
    ensures accepted { IfOk result (λ totals. (file : FileView) × (totals ≡ totals_of file.index)
        × Shows (judge_index name.now (C.told files.old)) (Accepted file)) }
    ensures unread { IfErr result (λ stop. Unread (name.now ∷ []) (judge_index name.now (C.told files.old))
        (C.read_faults files.old) (C.read_faults files.new) stop) }
    ensures stays { C.told files.new ≡ C.told files.old }
    ensures later { C.read_faults files.old ≤ C.read_faults files.new }
    ensures others { C.write_faults files.old ≤ C.write_faults files.new }
{
    match check_file(alloc, files, name) {
        Ok(totals) => Ok(totals),
        Err(OpenFault::Refused(refusal)) => Err(Stop::Refused {
            name,
            number: refusal.why.number(),
            at: Place::Byte(refusal.at),
        }),
        Err(OpenFault::ReadFault) => Err(Stop::ReadFault { name }),
        Err(OpenFault::NoMemory) => Err(Stop::NoMemory),
    }
}
