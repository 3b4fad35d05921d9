/// How a line went that met no write fault.
#[derive(Clone, Copy, Debug, PartialEq, Eq)]
pub enum Went {
    /// The line was answered, and further lines may follow.
    On,
    /// The line was `end`, and was answered.
    End,
    /// Memory was refused to a line `open`. Nothing was written, and the desk is as before.
    NoMemory,
}
