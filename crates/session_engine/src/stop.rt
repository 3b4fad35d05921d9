/// Why a session isn't opened.
#[derive(Clone, Copy, Debug, PartialEq, Eq)]
pub enum OpenStop {
    /// The query needs more frames than are spare: `need` frames, of which `free` are spare.
    PoolFull { need: u32, free: u32 },
    NoMemory,
}
