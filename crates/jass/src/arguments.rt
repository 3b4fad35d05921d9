ghost use Rattle.std.specs.Prelude.{ℕ, List, Option};
ghost use Rattle.std.specs.Io.{WritesAtMost};
ghost use Rattle.jass.specs.CommandLine.{GivesArgument};

use std::env::FillError;

/// The arguments of a program.
pub trait Arguments {
    /// The arguments' bytes in their order, the program's name first, where they are told.
    ghost told: { Self → Option (List (List ℕ)) };

    /// Copies the argument at a place to the buffer's front, and gives its length. NotPresent
    /// exactly where there is no such argument, TooLong where the buffer has no room for it.
    fn argument(&self, place: usize, buf: &mut [u8]) -> Result<usize, FillError>
        ensures bound { WritesAtMost result buf.new }
        ensures bytes { GivesArgument (told self.now) place result buf.new };
}
