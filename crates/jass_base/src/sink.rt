ghost use Rattle.std.specs.Prelude.{ℕ, ◌≡◌, Option, Some, List, []};
ghost use Rattle.std.specs.FinMap.{empty};
ghost use Rattle.jass_base.specs.Outside.{Rest, HasCause, Puts};

use crate::faults::Failed;

/// An output that is written from front to end.
pub trait Sink {
    /// What was written, where it is told.
    ghost written: { Self → Option (List ℕ) };

    ghost faults: { Self → ℕ };

    /// What no put changes: the place that is written to, and the named contents beside it,
    /// where they are told.
    ghost rest: { Self → Rest } = { λ _. record { place = []; files = Some empty } };

    /// Appends all bytes. After a failure a prefix of them was appended.
    fn put(&mut self, bytes: &[u8]) -> Result<(), Failed>
        ensures bytes { Puts (written self.old) (written self.new) bytes.now result }
        ensures cause { HasCause (faults self.old) (faults self.new) result }
        ensures stays { rest self.new ≡ rest self.old };
}
