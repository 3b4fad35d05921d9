ghost use Rattle.std.specs.Prelude.{◌≡◌, ◌↔◌, Some, drop, IsErr};
ghost use Rattle.std.specs.Io.{ReadsAtMost};
ghost use Rattle.std.specs.Io.KnownBytes.{ReadConsumes};
ghost use Rattle.jass_base.specs.Outside.{HasCause};
ghost use Rattle.jass_base.specs.Scripts.{uncalled, called, FailsNext};

use crate::copy_at::copy_at;
use crate::faults::Failed;
use crate::feed::Feed;
use crate::row::Row;
use crate::scripted::Scripted;

/// A feed over bytes in memory, some of whose reads fail.
#[derive(Debug, Drop)]
pub struct MemFeed {
    bytes: Row<u8>,
    at: usize,
    bad: Row<u64>,
    reads: u64,
    faults: u64,
}

impl MemFeed {
    /// `bad` names the reads that fail, counted from 0.
    pub fn new(bytes: Row<u8>, bad: Row<u64>) -> MemFeed
        ensures left { ⟦<MemFeed as Feed>⟧.left result ≡ Some bytes }
        ensures faults { ⟦<MemFeed as Feed>⟧.faults result ≡ 0 }
        ensures script { ⟦<MemFeed as Scripted>⟧.reads result ≡ uncalled bad }
    {
        MemFeed {
            bytes,
            at: 0,
            bad,
            reads: 0,
            faults: 0,
        }
    }
}

impl Scripted for MemFeed {
    ghost reads = { λ f. record { bad = f.bad; calls = f.reads } };
}

impl Feed for MemFeed {
    ghost left = { λ f. Some (drop f.at f.bytes) };

    ghost faults = { λ f. f.faults };

    fn read(&mut self, buf: &mut [u8]) -> Result<usize, Failed>
        ensures bound { ReadsAtMost result buf.new }
        ensures bytes { ReadConsumes (⟦<MemFeed as Feed>⟧.left self.old)
            (⟦<MemFeed as Feed>⟧.left self.new) result buf.new }
        ensures cause { HasCause (⟦<MemFeed as Feed>⟧.faults self.old) (⟦<MemFeed as Feed>⟧.faults self.new) result }
        ensures named { IsErr result ↔ FailsNext (⟦<MemFeed as Scripted>⟧.reads self.old) }
        ensures next { ⟦<MemFeed as Scripted>⟧.reads self.new ≡ called (⟦<MemFeed as Scripted>⟧.reads self.old) }
    {
        let read = self.reads;
        self.reads = self.reads.saturating_add(1);
        if self.bad.as_slice().contains(&read) {
            self.faults = self.faults.saturating_add(1);
            return Err(Failed);
        }
        let count = copy_at(self.bytes.as_slice(), self.at, buf);
        self.at += count;
        Ok(count)
    }
}
