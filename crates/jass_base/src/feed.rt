ghost use Rattle.std.specs.Prelude.{ℕ, Option, List};
ghost use Rattle.std.specs.Io.{ReadsAtMost};
ghost use Rattle.std.specs.Io.KnownBytes.{ReadConsumes};
ghost use Rattle.jass_base.specs.Outside.{HasCause};

use crate::faults::Failed;

/// An input that is read once, from front to end.
pub trait Feed {
    /// The bytes that are left, where they are told.
    ghost left: { Self → Option (List ℕ) };

    ghost faults: { Self → ℕ };

    /// Takes bytes off the front, as many as the buffer takes at the most. The answer is 0
    /// only for an empty buffer or at the end. After a failure nothing was taken.
    fn read(&mut self, buf: &mut [u8]) -> Result<usize, Failed>
        ensures bound { ReadsAtMost result buf.new }
        ensures bytes { ReadConsumes (left self.old) (left self.new) result buf.new }
        ensures cause { HasCause (faults self.old) (faults self.new) result };
}
