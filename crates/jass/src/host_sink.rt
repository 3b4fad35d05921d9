ghost use Rattle.std.specs.Prelude.{◌≡◌, None};

use jass_base::{Failed, Sink};
use std::io;
use std::io::{ErrorKind, Write};

/// A stream of the host as a sink; where it is None every write fails. It tells no content. Each
/// Err of the host raises a count, which stays at its last value.
#[derive(Drop)]
pub struct HostSink<W: Write + Drop> {
    inner: Option<W>,
    faults: u64,
    reason: Option<io::Error>,
}

impl<W: Write + Drop> HostSink<W> {
    pub fn new(inner: Option<W>) -> HostSink<W>
        ensures quiet { ⟦<HostSink<W> as Sink>⟧.faults result ≡ 0 }
    {
        HostSink {
            inner,
            faults: 0,
            reason: None,
        }
    }

    /// Why the host failed last, if it did.
    pub fn reason(&self) -> Option<io::Error> {
        self.reason
    }

    #[cfg(test)]
    pub fn inner(&self) -> Option<&W> {
        self.inner.as_ref()
    }
}

impl<W: Write + Drop> Sink for HostSink<W> {
    ghost written = { λ _. None };

    ghost faults = { λ s. s.faults };

    fn put(&mut self, bytes: &[u8]) -> Result<(), Failed> {
        let put = match &mut self.inner {
            Some(inner) => inner.write_all(bytes),
            None => Err(io::Error::from(ErrorKind::NotConnected)),
        };
        match put {
            Ok(()) => Ok(()),
            Err(reason) => {
                self.reason = Some(reason);
                self.faults = self.faults.saturating_add(1);
                Err(Failed)
            }
        }
    }
}
