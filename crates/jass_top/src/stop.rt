/// A place in an input: a byte, counted from 0, or a line, counted from 1. Line 0 stands for the whole input.
#[derive(Clone, Copy)]
pub enum Place {
    Byte(u64),
    Line(u64),
}

/// Why a command stopped before its end.
#[derive(Clone, Copy)]
pub enum Stop<'a> {
    NoMemory,
    /// An input is refused, with the refusal's number and place.
    Refused {
        name: &'a str,
        number: u32,
        at: Place,
    },
    /// An input could not be read, or is missing.
    ReadFault {
        name: &'a str,
    },
    /// The output, or a file, could not be written.
    WriteFault {
        name: &'a str,
    },
    /// As many bytes of the input were taken as may be, and no line was `end`.
    InputLimit,
}

/// What the input is called in a note.
pub const INPUT: &str = "input";

/// What the output is called in a note.
pub const OUTPUT: &str = "output";
