ghost use Rattle.std.specs.Prelude.{◌≡◌, ◌≤◌, ◌⊎◌, IsErrOf};
ghost use Rattle.jass_base.specs.Outside.{Rose, IsMissing};
ghost use Rattle.index_check.specs.Checking.{Checks};

use crate::ends::check_ends;
use crate::held::Held;
use crate::names::check_names;
use crate::payloads::check_payloads;
use crate::terms::check_terms;
use index_file::parts::check_front;
use index_layout::OpenFault;
use index_layout::laws::files_are_read;
use jass_base::{Cabinet, Totals};
use std::alloc::Global;

/// Checks each byte of the index file with a name, and gives its totals or the first refusal. The terms
/// with their heads are looked at twice: before the payloads, and beside them. Beside a window for each
/// it takes two bytes for each document.
pub fn check_file<C: Cabinet>(alloc: Global, files: &mut C, name: &str) -> Result<Totals, OpenFault>
    ensures exact { Checks (C.told files.old) name.now result }
    ensures fault { IsErrOf result OpenFault.ReadFault
        → Rose (C.read_faults files.old) (C.read_faults files.new) ⊎ IsMissing (C.told files.old) name.now }
    ensures stays { C.told files.new ≡ C.told files.old }
    ensures later { C.read_faults files.old ≤ C.read_faults files.new }
    ensures others { C.write_faults files.old ≤ C.write_faults files.new }
{
    files_are_read();
    let front = check_front(alloc, files, name)?;
    let mut held = Held::new(alloc, front.size);
    let behind_names = check_names(files, name, &mut held, front.docs)?;
    let (sums, behind_terms) = check_terms(
        alloc,
        files,
        name,
        &mut held,
        front.docs,
        front.terms,
        behind_names,
    )?;
    let end = check_payloads(
        alloc,
        files,
        name,
        &mut held,
        front.docs,
        front.terms,
        behind_names,
        behind_terms,
    )?;
    match check_ends(front, sums, end) {
        Ok(totals) => Ok(totals),
        Err(fault) => Err(fault),
    }
}
