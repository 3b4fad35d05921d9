/// How the mentions in a text are read.
#[derive(Clone, Copy, Debug, PartialEq, Eq)]
pub enum Mode {
    /// The runs of bytes between spaces and tabs, as they stand.
    Plain,
    /// The runs of letters and decimal digits, with their case folded.
    Folded,
}
