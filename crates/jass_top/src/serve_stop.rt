/// Why the lines of an input were not all served.
#[derive(Clone, Copy)]
pub enum ServeStop {
    /// Memory was refused to a line `open`.
    NoMemory,
    /// The input could not be read.
    ReadFault,
    /// The output could not be written.
    WriteFault,
    /// As many bytes were taken as may be, and no line was `end`.
    Limit,
}
