ghost use Rattle.std.specs.Prelude.{◌≤◌, length, IfErr, IsErrOf, OnOk, OnErr};
ghost use Rattle.jass_base.specs.Outside.{Rose, Sets};
ghost use Rattle.index_model.specs.Views.{index_data};
ghost use Rattle.index_layout.specs.View.{index_text};
ghost use Rattle.index_write.specs.Private.Pieces.{Makes};
ghost use Rattle.index_write.specs.Saving.{LeavesPrefix, Untouched, Unwritten};
ghost use Rattle.jass_base.specs.declared.limits.TheConstants.{LONGEST_FILE};

use crate::bytes::index_bytes;
use crate::fault::SaveFault;
use crate::pieces::{append, create};
use jass_base::{Cabinet, Failed, ImpactIndex};
use std::alloc::Global;

/// Makes bytes the content of a file.
fn put_file<C: Cabinet>(files: &mut C, name: &str, bytes: &[u8]) -> Result<(), Failed>
    ensures { Makes C.Cabinet files.old files.new name.now bytes.now result }
{
    let failed = create(files, name);
    if append(bytes, failed, files, name) {
        return Err(Failed);
    }
    Ok(())
}

/// Makes the file of a name the file of an index, each segment in its shortest codec. The length is
/// judged before memory is taken, and all memory is taken before the file is touched. TooLarge comes
/// exactly where the length is above 2^32; a WriteFault only where the files counted one.
pub fn write_index<C: Cabinet>(
    alloc: Global,
    index: &ImpactIndex,
    files: &mut C,
    name: &str,
) -> Result<(), SaveFault>
    ensures content { OnOk result (Sets (C.told files.old) (C.told files.new) name.now
        (index_text (index_data index.now))) }
    ensures fits { OnOk result (length (index_text (index_data index.now)) ≤ LONGEST_FILE) }
    ensures fault { IfErr result (Unwritten (index_text (index_data index.now))) }
    ensures untouched { IfErr result (Untouched files.old files.new) }
    ensures front { OnErr result (LeavesPrefix (C.told files.old) (C.told files.new) name.now
        (index_text (index_data index.now))) }
    ensures cause { IsErrOf result SaveFault.WriteFault
        → Rose (C.write_faults files.old) (C.write_faults files.new) }
    ensures later { C.write_faults files.old ≤ C.write_faults files.new }
    ensures others { C.read_faults files.old ≤ C.read_faults files.new }
{
    let bytes = index_bytes(alloc, index)?;
    let put = put_file(files, name, bytes.as_slice());
    drop(bytes);
    match put {
        Ok(()) => Ok(()),
        Err(_) => Err(SaveFault::WriteFault),
    }
}
