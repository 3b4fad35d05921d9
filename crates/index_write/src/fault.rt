/// Why no index file was written.
#[derive(Clone, Copy, Debug, PartialEq, Eq)]
pub enum SaveFault {
    /// The file would have this many bytes, more than 2^32.
    TooLarge { length: u64 },
    /// The file could not be written. Never where the bytes are made in memory.
    WriteFault,
    NoMemory,
}

/// Why the payloads of a term were not appended.
#[derive(Clone, Copy, Debug, PartialEq, Eq)]
pub enum TermFault {
    /// The segments don't have the heads that were kept: the first number that differs.
    Changed { kept: u64, found: u64 },
    /// The file could not be written.
    WriteFault,
    NoMemory,
}
