ghost use Rattle.std.specs.Prelude.{ℕ, ◌≡◌, ◌≤◌, Option};
ghost use Rattle.std.specs.Io.{ReadsAtMost};
ghost use Rattle.jass_base.specs.Outside.{Files, IsMissing, GivesBytes, ReadCause, HasCause, Creates, Appended};

use crate::faults::Failed;

/// Named contents that can be read at a place, made empty, and added to: a folder of files.
///
/// An implementation tells its contents or doesn't; a clause on contents holds where they
/// are told. Neither count of faults ever falls, and a call fails only where its count
/// rose, or, for `read_at` alone, where the name is missing.
pub trait Cabinet {
    /// The contents by name, where they are told.
    ghost told: { Self → Option Files };

    ghost read_faults: { Self → ℕ };

    ghost write_faults: { Self → ℕ };

    /// Reads bytes from the place `at` on, as many as the buffer takes at the most. The
    /// answer is 0 only for an empty buffer, or where no byte stands at `at` or after it.
    /// A missing name always fails, which raises no count.
    fn read_at(&mut self, name: &str, at: u64, buf: &mut [u8]) -> Result<usize, Failed>
        ensures bound { ReadsAtMost result buf.new }
        ensures bytes { GivesBytes (told self.old) name.now at result buf.new }
        ensures stays { told self.new ≡ told self.old }
        ensures cause { ReadCause (told self.old) name.now (read_faults self.old) (read_faults self.new) result }
        ensures missing { IsMissing (told self.old) name.now → read_faults self.new ≡ read_faults self.old }
        ensures others { write_faults self.old ≤ write_faults self.new };

    /// Makes the content of the name empty. After a failure it is as before, or empty.
    fn create(&mut self, name: &str) -> Result<(), Failed>
        ensures content { Creates (told self.old) (told self.new) name.now result }
        ensures cause { HasCause (write_faults self.old) (write_faults self.new) result }
        ensures others { read_faults self.old ≤ read_faults self.new };

    /// Puts the bytes behind the content of the name; a missing name is made first. After a
    /// failure a prefix of them was put there, or the name is as before.
    fn append(&mut self, name: &str, bytes: &[u8]) -> Result<(), Failed>
        ensures content { Appended (told self.old) (told self.new) name.now bytes.now result }
        ensures cause { HasCause (write_faults self.old) (write_faults self.new) result }
        ensures others { read_faults self.old ≤ read_faults self.new };

    /// Ends the writing of a name, behind its last `append`: a cabinet that holds back what is
    /// written until then puts it in place. Contents stay as they are, also after a failure.
    fn finish(&mut self, _name: &str) -> Result<(), Failed>
        ensures stays { told self.new ≡ told self.old }
        ensures cause { HasCause (write_faults self.old) (write_faults self.new) result }
        ensures others { read_faults self.old ≤ read_faults self.new }
    {
        Ok(())
    }
}
