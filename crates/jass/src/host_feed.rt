ghost use Rattle.std.specs.Prelude.{◌≡◌, None};
ghost use Rattle.std.specs.Io.{ReadsAtMost};

use jass_base::{Failed, Feed};
use std::io;
use std::io::{ErrorKind, Read};

/// A stream of the host as a feed; where it is None every read fails. It tells no content. Each
/// Err of the host raises a count, which stays at its last value.
#[derive(Drop)]
pub struct HostFeed<R: Read + Drop> {
    inner: Option<R>,
    faults: u64,
}

impl<R: Read + Drop> HostFeed<R> {
    pub fn new(inner: Option<R>) -> HostFeed<R>
        ensures quiet { ⟦<HostFeed<R> as Feed>⟧.faults result ≡ 0 }
    {
        HostFeed { inner, faults: 0 }
    }
}

impl<R: Read + Drop> Feed for HostFeed<R> {
    ghost left = { λ _. None };

    ghost faults = { λ f. f.faults };

    fn read(&mut self, buf: &mut [u8]) -> Result<usize, Failed> {
        let read = match &mut self.inner {
            Some(inner) => read_through(inner, buf),
            None => Err(io::Error::from(ErrorKind::NotConnected)),
        };
        match read {
            Ok(count) => Ok(count),
            Err(_) => {
                self.faults = self.faults.saturating_add(1);
                Err(Failed)
            }
        }
    }
}

/// One read of a stream, made again where a signal interrupts it.
fn read_through<R: Read + Drop>(inner: &mut R, buf: &mut [u8]) -> io::Result<usize>
    ensures { ReadsAtMost result buf.new }
{
    for _ in 0..u64::MAX {
        match inner.read(buf) {
            Err(e) if e.kind() == ErrorKind::Interrupted => {}
            done => return done,
        }
    }
    Err(io::Error::from(ErrorKind::TimedOut))
}
