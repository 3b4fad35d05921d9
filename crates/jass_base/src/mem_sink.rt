ghost use Rattle.std.specs.Prelude.{◌≡◌, [], Some, IsErr};
ghost use Rattle.jass_base.specs.Outside.{HasCause, Puts};
ghost use Rattle.jass_base.specs.Scripts.{uncalled, called, FailsNext};

use crate::faults::Failed;
use crate::row::Row;
use crate::scripted::Scripted;
use crate::sink::Sink;
use std::alloc::Global;

/// A sink that keeps what is put in memory, and some of whose puts fail. A refused growth
/// counts as a fault.
#[derive(Debug, Drop)]
pub struct MemSink {
    bytes: Row<u8>,
    bad: Row<u64>,
    puts: u64,
    faults: u64,
}

impl MemSink {
    /// `bad` names the puts that fail, counted from 0.
    pub fn new(alloc: Global, bad: Row<u64>) -> MemSink
        ensures written { ⟦<MemSink as Sink>⟧.written result ≡ Some [] }
        ensures faults { ⟦<MemSink as Sink>⟧.faults result ≡ 0 }
        ensures script { ⟦<MemSink as Scripted>⟧.writes result ≡ uncalled bad }
    {
        MemSink {
            bytes: Row::new(alloc),
            bad,
            puts: 0,
            faults: 0,
        }
    }

    pub fn written(&self) -> &[u8]
        ensures { ⟦<MemSink as Sink>⟧.written self.now ≡ Some result.now }
    {
        self.bytes.as_slice()
    }
}

impl Scripted for MemSink {
    ghost writes = { λ s. record { bad = s.bad; calls = s.puts } };
}

impl Sink for MemSink {
    ghost written = { λ s. Some s.bytes };

    ghost faults = { λ s. s.faults };

    fn put(&mut self, bytes: &[u8]) -> Result<(), Failed>
        ensures bytes { Puts (⟦<MemSink as Sink>⟧.written self.old)
            (⟦<MemSink as Sink>⟧.written self.new) bytes.now result }
        ensures cause { HasCause (⟦<MemSink as Sink>⟧.faults self.old) (⟦<MemSink as Sink>⟧.faults self.new) result }
        ensures stays { ⟦<MemSink as Sink>⟧.rest self.new ≡ ⟦<MemSink as Sink>⟧.rest self.old }
        ensures named { FailsNext (⟦<MemSink as Scripted>⟧.writes self.old) → IsErr result }
        ensures next { ⟦<MemSink as Scripted>⟧.writes self.new ≡ called (⟦<MemSink as Scripted>⟧.writes self.old) }
    {
        let put = self.puts;
        self.puts = self.puts.saturating_add(1);
        if self.bad.as_slice().contains(&put) {
            self.faults = self.faults.saturating_add(1);
            return Err(Failed);
        }
        match self.bytes.extend(bytes) {
            Ok(()) => Ok(()),
            Err(_) => {
                self.faults = self.faults.saturating_add(1);
                Err(Failed)
            }
        }
    }
}
