ghost use Rattle.std.specs.Prelude.{◌≤◌, IfErr, IfOk};
ghost use Rattle.ciff_read.specs.Plain.{IsPlain};
ghost use Rattle.ciff_read.specs.Private.OnlyReads.{OnlyReads};
ghost use Rattle.ciff_read.specs.Private.Reached.{HeaderTold};
ghost use Rattle.jass_base.specs.declared.limits.TheConstants.{LONGEST_FILE};
ghost use Rattle.whole_files.specs.Windows.{StaysShown};

use crate::file_head::FileHead;
use crate::header::read_header;
use crate::reaching::reach_message;
use crate::refusal::CiffFault;
use jass_base::Cabinet;
use std::alloc::Global;
use whole_files::Window;

/// Reads the header of a file, and gives the place behind it.
pub fn reach_header<C: Cabinet>(
    alloc: Global,
    window: &mut Window,
    files: &mut C,
    name: &str,
) -> Result<(FileHead, u64), CiffFault>
    ensures near { IfOk result (λ x. x.1 ≤ LONGEST_FILE) }
    ensures plain { IfErr result IsPlain }
    ensures shown { StaysShown (C.told files.old) name.now window.old window.new }
    ensures exact { HeaderTold (C.told files.old) name.now window.old result }
    ensures reads { OnlyReads (C.told files.old) (C.told files.new) name.now (C.read_faults files.old)
        (C.read_faults files.new) (C.write_faults files.old) (C.write_faults files.new) result }
{
    let body = reach_message(window, files, name, 0)?;
    match read_header(alloc, window.bytes.as_slice(), 0, body) {
        Ok(head) => Ok((head, body.end as u64)),
        Err(fault) => Err(fault),
    }
}
