ghost use Rattle.std.specs.Prelude.{◌∷◌};
ghost use Rattle.jass_base.specs.Outside.{content_there, others_told};

use crate::cabinet::Cabinet;
use crate::faults::Failed;
use crate::sink::Sink;

/// A name of a cabinet as a sink: what is put goes behind the content of the name. It tells what
/// is written where the cabinet tells its contents and the name is there, so that a name with no
/// bytes isn't taken for a missing one. The place that it writes to is the reference to the
/// cabinet, and the name. It has no constructor. The function that uses it makes it by its
/// fields, and so knows the cabinet when the borrow ends.
pub struct FileSink<'a, C: Cabinet> {
    pub files: &'a mut C,
    pub name: &'a str,
}

impl<'a, C: Cabinet> Sink for FileSink<'a, C> {
    ghost written = { λ s. content_there (C.told s.files.now) s.name.now };

    ghost faults = { λ s. C.write_faults s.files.now };

    ghost rest = { λ s. record {
      place = s.files.ghost_name ∷ s.name.now;
      files = others_told (C.told s.files.now) s.name.now;
    } };

    fn put(&mut self, bytes: &[u8]) -> Result<(), Failed> {
        self.files.append(self.name, bytes)
    }
}
