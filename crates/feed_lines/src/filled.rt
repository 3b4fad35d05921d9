/// What came of asking the input for more bytes.
#[derive(Clone, Copy, Debug, PartialEq, Eq)]
pub enum Filled {
    /// At least one byte was taken.
    More,
    /// The input is at its end, and fewer bytes than the limit were taken of it.
    End,
    /// As many bytes were taken as the limit lets, and none was asked for; the input may be at its end or not.
    Limit,
}
