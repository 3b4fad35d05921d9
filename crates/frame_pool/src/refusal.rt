/// Why a pool promises no frames.
#[derive(Clone, Copy, Debug, PartialEq, Eq)]
pub enum PoolRefusal {
    /// All chain numbers are in use; `chains` is how many the pool has.
    Chains { chains: u32 },
    /// Fewer frames are spare than are asked for: `need` frames were asked for, and `free` are spare.
    Short { need: u32, free: u32 },
}
