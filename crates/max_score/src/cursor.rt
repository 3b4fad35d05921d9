ghost use Rattle.std.specs.Prelude.{◌≡◌, ◌+◌, ◌<◌, ◌≤◌, ℕ, All, IfOk, filter, length, nat_le, slice_get, slice_index};
ghost use Rattle.std.specs.Int.{bit_at};
ghost use Rattle.index_model.specs.Querying.{segments_at};
ghost use Rattle.max_score.specs.Cursors.{IsSameCursor, left_of, postings_in, read_over, unread};

use crate::posting::Posting;
use crate::reading::read_term;
use index_file::Source;
use jass_base::{NoMemory, Steps};
use std::alloc::Global;
use std::marker::Model;
use std::simd::prelude::*;
use std::sync::ledger::Ledger;

/// The postings of one term, by rising document. No document comes twice.
#[derive(Drop)]
pub struct TermCursor {
    term: u32,
    started: bool,
    from: u32,
    /// The impact of each document; 0 where it has none.
    impacts: Vec<u16>,
}

impl Model for TermCursor {
    ghost use Rattle.std.specs.Prelude.{◌<◌, ◌≤◌, ◌^◌, length};
    ghost use Rattle.max_score.specs.Cursors.{CursorView};

    ghost Value = { CursorView };

    ghost view = { λ c. record {
      term = c.term;
      docs = length c.impacts.items;
      started = c.started;
      impacts = c.impacts.items;
      from = c.from;
    } };

    ghost invariant = { λ c. (c.from ≤ length c.impacts.items) × (length c.impacts.items < 2 ^ 32) };
}

impl TermCursor {
    /// A cursor that has read nothing yet. No other call takes memory.
    pub fn new<S: Source>(alloc: Global, source: &S, term: u32) -> Result<TermCursor, NoMemory>
        ensures { IfOk result (λ cursor. cursor ≡ unread term (length (S.index source.now).names)) }
    {
        match vec![in alloc; 0u16; source.docs() as usize] {
            Ok(impacts) => Ok(TermCursor {
                term,
                started: false,
                from: 0,
                impacts,
            }),
            Err(_) => Err(NoMemory),
        }
    }

    /// Reads all postings of the term, which are counted as steps.
    pub fn start<S: Source, L: Ledger>(&mut self, source: &S, steps: &mut Steps<L>)
        requires term { self.old.term < length (S.index source.now).terms }
        requires unread { self.old ≡ unread self.old.term (length (S.index source.now).names) }
        ensures read { self.new ≡ read_over (S.index source.now) self.old.term }
        ensures steps { steps.new ≡ steps.old + postings_in (segments_at (S.index source.now).terms self.old.term) }
    {
        let _ = self.read(source, steps);
    }

    /// Does what `start` does. The answer is the greatest impact, 0 where there is no posting.
    pub fn read<S: Source, L: Ledger>(&mut self, source: &S, steps: &mut Steps<L>) -> u16
        requires term { self.old.term < length (S.index source.now).terms }
        requires unread { self.old ≡ unread self.old.term (length (S.index source.now).names) }
        ensures read { self.new ≡ read_over (S.index source.now) self.old.term }
        ensures greatest { All (λ impact. impact ≤ result) self.new.impacts }
        ensures steps { steps.new ≡ steps.old + postings_in (segments_at (S.index source.now).terms self.old.term) }
    {
        source.is_searchable();
        let greatest = read_term(&mut self.impacts, source, self.term, steps);
        self.started = true;
        greatest
    }

    /// The first posting that is left; none where nothing is left.
    pub fn head(&self) -> Option<Posting>
        ensures { result ≡ slice_get (left_of self.now) 0 }
    {
        for doc in self.from as usize..self.impacts.len() {
            let impact = self.impacts[doc];
            if impact != 0 {
                return Some(Posting {
                    doc: doc as u32,
                    impact,
                });
            }
        }
        None
    }

    /// Drops the postings of documents below `to`.
    pub fn advance(&mut self, to: u32)
        ensures left { left_of self.new ≡ filter (λ p. nat_le to p.doc) (left_of self.old) }
        ensures same { IsSameCursor self.old self.new }
    {
        let docs = self.impacts.len() as u32;
        self.from = self.from.max(to.min(docs));
    }

    pub(crate) fn term(&self) -> u32
        ensures { result ≡ self.now.term }
    {
        self.term
    }

    /// Which of the 64 documents from one on have an impact: bit i is the mark of document `from` + i.
    pub fn marks(&self, from: u32) -> u64
        requires { from + 64 ≤ self.now.docs }
        ensures { (i : ℕ) → i < 64 → bit_at result i ≡ 0 → slice_index self.now.impacts (from + i) ≡ 0 }
    {
        some_of_64(&self.impacts, from as usize)
    }

    /// The impact of a document; 0 where it has none.
    pub fn impact(&self, doc: u32) -> u16
        requires { doc < self.now.docs }
        ensures { result ≡ slice_index self.now.impacts doc }
    {
        self.impacts[doc as usize]
    }
}

/// Which of the 64 numbers from a place on aren't 0: bit i is the mark of the number at that place + i.
fn some_of_64(numbers: &[u16], at: usize) -> u64
    requires { at + 64 ≤ length numbers.now }
    ensures { (i : ℕ) → i < 64 → bit_at result i ≡ 0 → slice_index numbers.now (at + i) ≡ 0 }
{
    u16x64::from_slice(&numbers[at..])
        .simd_ne(u16x64::splat(0))
        .to_bitmask()
}
