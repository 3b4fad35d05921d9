ghost use Rattle.std.specs.Prelude.{◌≡◌, None};

use crate::host_sink::HostSink;
use jass_base::{Failed, Sink};
use std::alloc::Global;
use std::io::Write;

/// The notes of the host: a sink that also keeps what was put on it, so that more can be said of it. Where there is no
/// memory for that, nothing more is kept.
#[derive(Drop)]
pub struct HostNotes<W: Write + Drop> {
    sink: HostSink<W>,
    kept: Vec<u8>,
}

impl<W: Write + Drop> HostNotes<W> {
    pub fn new(alloc: Global, inner: Option<W>) -> HostNotes<W> {
        HostNotes {
            sink: HostSink::new(inner),
            kept: Vec::new(alloc),
        }
    }

    /// What was put, and the sink alone, on which more is put.
    pub fn parts(self) -> (Vec<u8>, HostSink<W>) {
        let HostNotes { sink, kept } = self;
        (kept, sink)
    }
}

impl<W: Write + Drop> Sink for HostNotes<W> {
    ghost written = { λ _. None };

    ghost faults = { λ s. s.sink.faults };

    fn put(&mut self, bytes: &[u8]) -> Result<(), Failed> {
        let _ = self.kept.extend_from_slice(bytes);
        self.sink.put(bytes)
    }
}
