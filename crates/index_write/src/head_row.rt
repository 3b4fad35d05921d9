//! The heads of a term on their way to a row, gathered so that the row grows once for many of them.

ghost use Rattle.std.specs.Prelude.{◌≡◌, ◌+◌, ◌≤◌, [], ◌++◌, length, OnOk};
ghost use Rattle.index_layout.specs.Layout.{head_bytes};
ghost use Rattle.index_write.specs.Chosen.{head_data};
ghost use Rattle.index_write.specs.declared.head_row.TheConstants.{HEAD, ROOM};

use crate::head::PayloadHead;
use jass_base::{NoMemory, Row};
use std::marker::Model;

/// The bytes of a head.
const HEAD: usize = 11;

/// The room for a count and the heads of a term: most terms have no more than eight.
const ROOM: usize = 4 + 8 * HEAD;

/// Bytes that wait to be appended together.
#[derive(Drop)]
pub struct HeadRow {
    bytes: [u8; ROOM],
    len: usize,
}

impl Model for HeadRow {
    ghost use Rattle.std.specs.Prelude.{List, ℕ, take, ◌≤◌};
    ghost use Rattle.index_write.specs.declared.head_row.TheConstants.{ROOM};

    ghost Value = { List ℕ };

    ghost view = { λ r. take r.len r.bytes };

    ghost invariant = { λ r. r.len ≤ ROOM };
}

impl HeadRow {
    pub fn new() -> HeadRow
        ensures { result ≡ [] }
    {
        HeadRow {
            bytes: [0; ROOM],
            len: 0,
        }
    }

    /// Puts few bytes behind the others. Inlined, so that a fixed number of them is one store.
    #[inline(always)]
    pub fn push(&mut self, bytes: &[u8])
        requires { length self.old + length bytes.now ≤ ROOM }
        ensures { self.new ≡ self.old ++ bytes.now }
    {
        let end = self.len + bytes.len();
        self.bytes[self.len..end].copy_from_slice(bytes);
        self.len = end;
    }

    /// Puts a head behind the others, each of its numbers by one store.
    #[tactic(auto, unfolding(index_layout::specs::Layout::head_bytes))]
    #[inline(always)]
    fn push_head(&mut self, head: &PayloadHead)
        requires { length self.old + HEAD ≤ ROOM }
        ensures { self.new ≡ self.old ++ head_bytes (head_data head.now) }
    {
        self.push(&head.impact.to_le_bytes());
        self.push(&head.count.to_le_bytes());
        self.push(&[head.codec.number()]);
        self.push(&head.bytes.to_le_bytes());
    }

    /// Appends what waits.
    #[inline(always)]
    pub fn send(&mut self, out: &mut Row<u8>) -> Result<(), NoMemory>
        ensures bytes { OnOk result (out.new ≡ out.old ++ self.old) }
        ensures none { OnOk result (self.new ≡ []) }
    {
        out.extend(&self.bytes[..self.len])?;
        self.len = 0;
        Ok(())
    }

    /// Puts a head behind the others. Where it finds no room, they are appended first.
    #[inline(always)]
    pub fn put_head(&mut self, head: &PayloadHead, out: &mut Row<u8>) -> Result<(), NoMemory>
        ensures { OnOk result (out.new ++ self.new ≡ (out.old ++ self.old) ++ head_bytes (head_data head.now)) }
    {
        if self.len > ROOM - HEAD {
            self.send(out)?;
        }
        self.push_head(head);
        Ok(())
    }
}
