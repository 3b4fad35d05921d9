//! Bytes in blocks, none of which is moved when more come.

ghost use Rattle.std.specs.Prelude.{◌≡◌, ◌≤◌, ◌^◌, ◌++◌, [], List, ℕ, length, OnOk};
ghost use Rattle.index_write.specs.Private.Blocks.{joined};
ghost use Rattle.index_write.specs.Private.Pieces.{IsSent};

use crate::pieces::append;
use jass_base::{Cabinet, NoMemory, Row};
use std::alloc::Global;
use std::marker::Model;
use std::mem::replace;

/// With so many bytes a block is full.
const FULL: usize = 65_536;

/// What a block may have beyond these without taking more memory.
const BEYOND: usize = 4_096;

/// No memory holds more bytes.
const LIMIT: u64 = 1 << 62;

/// Bytes in blocks one behind the other. A block takes memory that was let go before, which a row that
/// grows can't.
#[derive(Drop)]
pub struct Blocks {
    blocks: Row<Row<u8>>,
    len: u64,
}

impl Model for Blocks {
    ghost use Rattle.std.specs.Prelude.{◌≡◌, ◌≤◌, ◌^◌, ℕ, List, length};
    ghost use Rattle.index_write.specs.Private.Blocks.{joined};

    ghost Value = { List ℕ };

    ghost view = { λ b. joined b.blocks };

    ghost invariant = { λ b. (b.len ≡ length (joined b.blocks)) × (b.len ≤ 2 ^ 62) };
}

impl Blocks {
    /// No bytes, and no memory is taken.
    pub fn new(alloc: Global) -> Blocks
        ensures { result ≡ [] }
    {
        Blocks {
            blocks: Row::new(alloc),
            len: 0,
        }
    }

    /// How many bytes these are.
    pub fn len(&self) -> u64
        ensures len { result ≡ length self.now }
        ensures few { result ≤ 2 ^ 62 }
    {
        self.len
    }

    /// Puts a block behind the others.
    pub fn push(&mut self, block: Row<u8>) -> Result<(), NoMemory>
        ensures { OnOk result (self.new ≡ self.old ++ block) }
    {
        let len = self.len.saturating_add(block.len() as u64);
        if len > LIMIT {
            return Err(NoMemory);
        }
        self.blocks.push(block)?;
        self.len = len;
        Ok(())
    }

    /// Puts a block behind the others where it is full, and then leaves an empty one.
    pub fn push_full(&mut self, alloc: Global, block: &mut Row<u8>) -> Result<(), NoMemory>
        ensures { OnOk result (self.new ++ block.new ≡ self.old ++ block.old) }
    {
        if block.len() < FULL {
            return Ok(());
        }
        let full = replace(block, Row::with_room(alloc, FULL + BEYOND)?);
        self.push(full)
    }

    /// The blocks.
    pub(crate) fn as_slice(&self) -> &[Row<u8>]
        ensures { joined result.now ≡ self.now }
    {
        self.blocks.as_slice()
    }
}

/// Appends blocks to a file, unless writing it failed before. The answer is whether it failed.
pub(crate) fn append_blocks<C: Cabinet>(
    blocks: &Blocks,
    failed: bool,
    files: &mut C,
    name: &str,
) -> bool
    ensures { (start : C) (text : List ℕ) → IsSent C.Cabinet start files.old name.now failed text
        → IsSent C.Cabinet start files.new name.now result (text ++ blocks.now) }
{
    let mut lost = failed;
    for block in blocks.as_slice() {
        lost = append(block.as_slice(), lost, files, name);
    }
    lost
}
