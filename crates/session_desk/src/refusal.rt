/// Why a desk refuses a line. The number of each refusal stands beside it.
#[derive(Clone, Copy, Debug, PartialEq, Eq)]
pub enum DeskRefusal {
    /// 70: a line of more than 1,048,576 bytes, or not UTF-8, or in none of the six forms.
    BadLine,
    /// 71: no session of this name is open.
    UnknownSession,
    /// 72: a session of this name is open.
    NameInUse,
    /// 73: 64 sessions are open.
    DeskFull,
    /// 52: a mention of a 257th known term.
    TooManyTerms,
    /// 53: a mention that brings the factors of its term above 255.
    NamedTooOften,
    /// 74: the query needs more frames than are spare: `need` frames, of which `free` are spare.
    PoolFull { need: u32, free: u32 },
}
