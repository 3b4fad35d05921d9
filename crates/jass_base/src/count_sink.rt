ghost use Rattle.std.specs.Prelude.{◌≡◌, None};

use crate::faults::Failed;
use crate::sink::Sink;

/// A sink that keeps nothing of what is put, tells none of it, and never fails.
#[derive(Debug, Drop)]
pub struct CountSink {}

impl CountSink {
    pub fn new() -> CountSink
        ensures { ⟦<CountSink as Sink>⟧.faults result ≡ 0 }
    {
        CountSink {}
    }
}

impl Sink for CountSink {
    ghost written = { λ _. None };

    ghost faults = { λ _. 0 };

    fn put(&mut self, _bytes: &[u8]) -> Result<(), Failed> {
        Ok(())
    }
}
