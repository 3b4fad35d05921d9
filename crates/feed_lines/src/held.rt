ghost use Rattle.std.specs.Prelude.{ℕ, ◌≡◌, ◌+◌, ◌<◌, ◌≤◌, [], min, nat_le, length, drop, IfOk};
ghost use Rattle.jass_base.specs.Outside.{HasCause};
ghost use Rattle.feed_lines.specs.Private.Reads.{Reads};

use crate::room::ROOM;
use jass_base::{Failed, Feed, NoMemory};
use std::alloc::Global;
use std::marker::Model;

/// Bytes that were taken from an input and are still wanted. Contracts see it as their list.
#[derive(Drop)]
pub(crate) struct Held {
    bytes: Vec<u8>,
    from: usize,
    to: usize,
}

impl Model for Held {
    ghost use Rattle.std.specs.Prelude.{List, ℕ, slice_range, length, ◌≡◌, ◌≤◌};

    ghost Value = { List ℕ };

    ghost view = { λ h. slice_range h.bytes.items h.from h.to };

    ghost invariant = { λ h. (h.from ≤ h.to) × (h.to ≤ 1048578) × (length h.bytes.items ≡ 1048578) };
}

impl Held {
    pub(crate) fn new(alloc: Global) -> Result<Held, NoMemory>
        ensures { IfOk result (λ held. held ≡ []) }
    {
        match vec![in alloc; 0u8; ROOM] {
            Ok(bytes) => Ok(Held {
                bytes,
                from: 0,
                to: 0,
            }),
            Err(_) => Err(NoMemory),
        }
    }

    pub(crate) fn as_slice(&self) -> &[u8]
        ensures { result.now ≡ self.now }
    {
        &self.bytes[self.from..self.to]
    }

    pub(crate) fn is_full(&self) -> bool
        ensures { result ≡ nat_le 1048578 (length self.now) }
    {
        self.to - self.from >= ROOM
    }

    pub(crate) fn clear(&mut self)
        ensures { self.new ≡ [] }
    {
        self.from = self.to;
    }

    pub(crate) fn drop_front(&mut self, count: usize)
        requires { count ≤ length self.old }
        ensures { self.new ≡ drop count self.old }
    {
        self.from += count;
    }

    /// Reads at most `most` bytes behind those that are held.
    pub(crate) fn read<I: Feed>(&mut self, input: &mut I, most: u64) -> Result<usize, Failed>
        requires some { 0 < most }
        requires room { length self.old < 1048578 }
        ensures reads { Reads (I.left input.old) (I.left input.new) self.old self.new result }
        ensures held { length self.new ≤ 1048578 }
        ensures most { IfOk result (λ count. count ≤ most) }
        ensures cause { HasCause (I.faults input.old) (I.faults input.new) result }
    {
        let len = self.to - self.from;
        self.bytes.copy_within(self.from..self.to, 0);
        self.from = 0;
        self.to = len;
        let count = at_most(ROOM - len, most);
        match input.read(&mut self.bytes[len..len + count]) {
            Ok(read) => {
                self.to += read;
                Ok(read)
            }
            Err(fault) => Err(fault),
        }
    }
}

/// A number of bytes, or a smaller limit.
fn at_most(count: usize, limit: u64) -> usize
    ensures { result ≡ min count limit }
{
    if limit < count as u64 {
        limit as usize
    } else {
        count
    }
}
