ghost use Rattle.std.specs.Prelude.{◌≡◌};
ghost use Rattle.index_file.specs.Parts.{moved_fault};

use index_layout::{OpenFault, OpenRefusal};

/// A fault of bytes that begin at a place of a file, as it stands in the file, where no place is near 2^64.
/// It isn't inlined, since faults are rare.
#[inline(never)]
pub fn moved(fault: OpenFault, by: usize) -> OpenFault
    ensures { result ≡ moved_fault by fault }
{
    match fault {
        OpenFault::Refused(refusal) => OpenFault::Refused(OpenRefusal {
            at: refusal.at.saturating_add(by as u64),
            why: refusal.why,
        }),
        OpenFault::ReadFault => OpenFault::ReadFault,
        OpenFault::NoMemory => OpenFault::NoMemory,
    }
}
