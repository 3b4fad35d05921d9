ghost use Rattle.std.specs.Prelude.{◌≡◌};
ghost use Rattle.index_import.specs.Private.Faults.{unread};

use ciff_read::{CiffFault, CiffRefusal};

/// Why no index was made of a file.
#[derive(Clone, Copy, Debug, PartialEq, Eq)]
pub enum ImportFault {
    /// The file is refused.
    Refused(CiffRefusal),
    /// The file could not be read, or is missing.
    ReadFault,
    /// The index would have this many bytes, more than 2^32.
    TooLarge { length: u64 },
    /// The index could not be written.
    WriteFault,
    NoMemory,
}

impl ImportFault {
    /// Why a file was not read.
    pub(crate) fn from_ciff(fault: CiffFault) -> ImportFault
        ensures { result ≡ unread fault }
    {
        match fault {
            CiffFault::Refused(refusal) => ImportFault::Refused(refusal),
            CiffFault::ReadFault => ImportFault::ReadFault,
            CiffFault::NoMemory => ImportFault::NoMemory,
        }
    }
}
