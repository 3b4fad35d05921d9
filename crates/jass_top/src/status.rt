ghost use Rattle.std.specs.Prelude.{◌≡◌};
ghost use Rattle.jass_top.specs.Stops.{exit_number};

/// How a run ended. The number is the program's exit status.
#[derive(Clone, Copy, Debug, PartialEq, Eq)]
pub enum Status {
    /// 0: every input was accepted, and all output was written.
    Done,
    /// 1: memory was refused.
    NoMemory,
    /// 2: the words are no command.
    Words,
    /// 3: the first input that isn't accepted isn't in its grammar, or passes a limit.
    Refused,
    /// 4: an input could not be read, or is missing.
    ReadFault,
    /// 5: an output could not be written.
    WriteFault,
    /// 6: 2^30 bytes of the input were taken, and no line of them was `end`.
    InputLimit,
}

impl Status {
    /// The exit status.
    pub fn number(self) -> u8
        ensures { result ≡ exit_number self }
    {
        match self {
            Status::Done => 0,
            Status::NoMemory => 1,
            Status::Words => 2,
            Status::Refused => 3,
            Status::ReadFault => 4,
            Status::WriteFault => 5,
            Status::InputLimit => 6,
        }
    }
}
