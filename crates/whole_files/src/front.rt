ghost use Rattle.std.specs.Prelude.{◌≡◌, ◌<◌, ◌≤◌, ◌⊎◌, take, IfOk, IsErrOf};
ghost use Rattle.jass_base.specs.Outside.{Rose, IsMissing, OnContent};

use jass_base::{Cabinet, ReadStop, Row};
use std::alloc::Global;

/// How many bytes of a file are read at a time.
const PIECE: usize = 65_536;

/// Reads a file to its end, or its first `most` bytes where it has more.
pub fn read_front<C: Cabinet>(
    alloc: Global,
    files: &mut C,
    name: &str,
    most: usize,
) -> Result<Row<u8>, ReadStop>
    requires some { 0 < most }
    ensures content { IfOk result (λ row.
        OnContent (C.told files.old) name.now (λ content. row ≡ take most content)) }
    ensures fault { IsErrOf result ReadStop.ReadFault
        → Rose (C.read_faults files.old) (C.read_faults files.new) ⊎ IsMissing (C.told files.old) name.now }
    ensures stays { C.told files.new ≡ C.told files.old }
    ensures later { C.read_faults files.old ≤ C.read_faults files.new }
    ensures others { C.write_faults files.old ≤ C.write_faults files.new }
{
    let mut row = Row::new(alloc);
    let mut piece = [0u8; PIECE];
    'pieces: loop {
        if row.len() >= most {
            row.truncate(most);
            return Ok(row);
        }
        let at = row.len() as u64;
        let Ok(count) = files.read_at(name, at, &mut piece) else {
            return Err(ReadStop::ReadFault);
        };
        if count == 0 {
            return Ok(row);
        }
        match row.extend(&piece[..count]) {
            Ok(()) => {}
            Err(_) => return Err(ReadStop::NoMemory),
        }
    }
}
