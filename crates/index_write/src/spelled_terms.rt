//! Terms with their heads, spelled as they come.

ghost use Rattle.std.specs.Prelude.{◌≡◌, ◌≤◌, ◌-◌, ◌^◌, [], ◌∷◌, ◌++◌, List, ℕ, length, map, min, OnOk};
ghost use Rattle.index_layout.specs.Heads.{TermHeads as EntryData};
ghost use Rattle.index_write.specs.Chosen.{head_data};
ghost use Rattle.index_write.specs.Private.Pieces.{IsSent};
ghost use Rattle.index_write.specs.Spelled.{AreFew, AreSpelled};
ghost use Rattle.jass_base.specs.declared.limits.TheConstants.{LONGEST_TERM, MOST_POSTINGS};

use crate::blocks::{Blocks, append_blocks};
use crate::front::put_entry;
use crate::head::PayloadHead;
use crate::pieces::append;
use crate::sums::term_sums;
use jass_base::{Cabinet, NoMemory, Row, Totals};
use std::alloc::Global;
use std::marker::Model;

/// Terms with their heads in the bytes that an index file has of them, so that heads aren't kept and
/// spelled later.
#[derive(Drop)]
pub struct SpelledTerms {
    alloc: Global,
    /// The bytes that stand in full blocks, and those behind them.
    blocks: Blocks,
    block: Row<u8>,
    /// The last term, to which the next one is compared.
    last: Row<u8>,
    count: u32,
    postings: u64,
    /// The greatest impact, 0 where there is no term.
    greatest: u16,
}

impl Model for SpelledTerms {
    ghost use Rattle.std.specs.Prelude.{◌++◌};
    ghost use Rattle.index_write.specs.Spelled.{SpelledView};

    ghost Value = { SpelledView };

    ghost view = { λ s. record {
      bytes = s.blocks ++ s.block;
      last = s.last;
      terms = s.count;
      postings = s.postings;
      greatest = s.greatest;
    } };
}

impl SpelledTerms {
    /// No terms yet, and no memory is taken.
    pub fn new(alloc: Global) -> SpelledTerms
        ensures { AreSpelled result [] }
    {
        SpelledTerms {
            alloc,
            blocks: Blocks::new(alloc),
            block: Row::new(alloc),
            last: Row::new(alloc),
            count: 0,
            postings: 0,
            greatest: 0,
        }
    }

    /// Puts a term with its heads behind the others. After an error these are of no more use.
    pub fn push(&mut self, term: &str, heads: &[PayloadHead]) -> Result<(), NoMemory>
        requires term { length term.now ≤ LONGEST_TERM }
        requires heads { length heads.now ≤ MOST_POSTINGS }
        ensures { OnOk result ((entries : List EntryData) → AreSpelled self.old entries
            → AreFew (entries ++ record { term = term.now; heads = map head_data heads.now } ∷ [])
            → AreSpelled self.new (entries ++ record { term = term.now; heads = map head_data heads.now } ∷ [])) }
    {
        let text = term.as_bytes();
        put_entry(self.last.as_slice(), text, heads, &mut self.block)?;
        self.blocks.push_full(self.alloc, &mut self.block)?;
        self.last.truncate(0);
        self.last.extend(text)?;
        let sums = term_sums(heads);
        self.count = self.count.saturating_add(1);
        self.postings = self.postings.saturating_add(sums.postings);
        self.greatest = self.greatest.max(sums.greatest);
        Ok(())
    }

    /// How many bytes the terms have, and 2^64 - 1 where they have more.
    pub(crate) fn len(&self) -> u64
        ensures { result ≡ min (length self.now.bytes) (2 ^ 64 - 1) }
    {
        self.blocks.len().saturating_add(self.block.len() as u64)
    }

    /// Appends the bytes of the terms to a file, unless writing it failed before. The answer is whether
    /// it failed.
    pub(crate) fn append<C: Cabinet>(&self, failed: bool, files: &mut C, name: &str) -> bool
        ensures { (start : C) (text : List ℕ) → IsSent C.Cabinet start files.old name.now failed text
            → IsSent C.Cabinet start files.new name.now result (text ++ self.now.bytes) }
    {
        let failed = append_blocks(&self.blocks, failed, files, name);
        append(self.block.as_slice(), failed, files, name)
    }

    /// The totals of a file of these terms and so many documents.
    pub(crate) fn totals(&self, docs: u32) -> Totals
        ensures { result ≡ record {
          docs = docs;
          terms = self.now.terms;
          postings = self.now.postings;
          greatest = self.now.greatest;
        } }
    {
        Totals {
            docs,
            terms: self.count,
            postings: self.postings,
            greatest: self.greatest,
        }
    }
}
