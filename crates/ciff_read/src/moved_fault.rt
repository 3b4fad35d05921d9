ghost use Rattle.std.specs.Prelude.{◌≡◌, ◌<◌, ◌+◌, ◌^◌};
ghost use Rattle.ciff_read.specs.Private.Moving.{fault_moved};
ghost use Rattle.ciff_read.specs.declared.refusal.CiffRefusal.{CiffRefusal};

use crate::refusal::{CiffFault, CiffRefusal};

/// What a fault in bytes of a file is in the file, where the bytes begin at a place of it.
pub fn fault_in_file(fault: CiffFault, base: u64) -> CiffFault
    requires { (refusal : CiffRefusal) → fault ≡ CiffFault.Refused refusal → base + refusal.at < 2 ^ 64 }
    ensures { result ≡ fault_moved base fault }
{
    match fault {
        CiffFault::Refused(refusal) => CiffFault::Refused(CiffRefusal {
            at: base + refusal.at,
            why: refusal.why,
        }),
        CiffFault::ReadFault => CiffFault::ReadFault,
        CiffFault::NoMemory => CiffFault::NoMemory,
    }
}
