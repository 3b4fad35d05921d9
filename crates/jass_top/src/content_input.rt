ghost use Rattle.std.specs.Prelude.{◌≡◌, ◌<◌, ◌≤◌, [], ◌∷◌, take, IfOk, IfErr};
ghost use Rattle.jass_top.specs.Judging.{judge_content};
ghost use Rattle.jass_top.specs.Private.Causes.{Unread};
ghost use Rattle.jass_top.specs.Private.Inputs.{AcceptsSuch};

use crate::stop::Stop;
use jass_base::{Cabinet, ReadStop, Row};
use std::alloc::Global;
use whole_files::read_front;

/// Reads the content of a file, or its first `most` bytes where it has more.
pub fn file_front<'a, C: Cabinet>(
    alloc: Global,
    files: &mut C,
    name: &'a str,
    most: usize,
) -> Result<Row<u8>, Stop<'a>>
    requires some { 0 < most }
    ensures accepted { IfOk result (λ bytes. AcceptsSuch (judge_content name.now (C.told files.old))
        (λ content. bytes ≡ take most content)) }
    ensures unread { IfErr result (λ stop. Unread (name.now ∷ []) (judge_content name.now (C.told files.old))
        (C.read_faults files.old) (C.read_faults files.new) stop) }
    ensures stays { C.told files.new ≡ C.told files.old }
    ensures later { C.read_faults files.old ≤ C.read_faults files.new }
    ensures others { C.write_faults files.old ≤ C.write_faults files.new }
{
    match read_front(alloc, files, name, most) {
        Ok(bytes) => Ok(bytes),
        Err(ReadStop::ReadFault) => Err(Stop::ReadFault { name }),
        Err(ReadStop::NoMemory) => Err(Stop::NoMemory),
    }
}
