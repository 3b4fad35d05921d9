ghost use Rattle.std.specs.Prelude.{ℕ, ◌≡◌, ◌<◌, ◌≤◌, ◌*◌, ◌^◌, [], None, length, true, IfErr, IfOk};
ghost use Rattle.index_layout.specs.Heads.{TermHeads};
ghost use Rattle.index_layout.specs.Reading.{read_terms};
ghost use Rattle.index_layout.specs.Refusals.{Fails};
ghost use Rattle.index_file.specs.Private.Gathered.{IsReader, ReadsOne, last_read, rows_read, terms_read};
ghost use Rattle.jass_base.specs.declared.limits.TheConstants.{LONGEST_FILE, MOST_DOCUMENTS};

use crate::head_table::HeadTable;
use crate::heads::read_heads;
use crate::span::Span;
use crate::sums::Sums;
use crate::term::read_term;
use crate::term_row::TermRow;
use crate::term_table::TermTable;
use index_layout::OpenFault;
use jass_base::Row;
use std::alloc::Global;

/// The terms of a file that were read so far with their heads, and the sums of these. A row stands for each term, and
/// none behind the last.
#[derive(Drop)]
pub(crate) struct TermReader {
    pub(crate) text: Row<u8>,
    pub(crate) rows: Row<TermRow>,
    pub(crate) heads: HeadTable,
    pub(crate) sums: Sums,
    pub(crate) before: Option<Span>,
    pub(crate) groups: u32,
}

impl TermReader {
    /// No term.
    pub(crate) fn new(alloc: Global) -> TermReader
        ensures reader { (docs : ℕ) → IsReader docs result }
        ensures none { (terms_read result ≡ []) × (last_read result ≡ None) }
        ensures rows { length result.rows ≡ 0 }
        ensures heads { length result.heads ≡ 0 }
    {
        TermReader {
            text: Row::new(alloc),
            rows: Row::new(alloc),
            heads: HeadTable::new(alloc),
            sums: Sums {
                postings: 0,
                greatest: 0,
            },
            before: None,
            groups: 0,
        }
    }

    /// Reads the term at a place of some bytes with its heads, and gives the place behind it; or its first refusal.
    /// Where all terms get too much text, memory is wanting.
    pub(crate) fn read_one(
        &mut self,
        bytes: &[u8],
        docs: u32,
        at: usize,
        most_text: usize,
    ) -> Result<usize, OpenFault>
        requires at { at ≤ length bytes.now }
        requires few { length bytes.now ≤ LONGEST_FILE }
        requires docs { docs ≤ MOST_DOCUMENTS }
        requires most { most_text < 2 ^ 32 }
        requires reader { IsReader docs self.old }
        requires room { 11 * length self.old.heads ≤ LONGEST_FILE }
        ensures one { IfOk result (λ end. (term : TermHeads) × ReadsOne bytes.now docs at end self.old self.new term) }
        ensures end { IfOk result (λ end. end ≤ length bytes.now) }
        ensures refused { IfErr result (λ fault. Fails fault (read_terms bytes.now docs 1 (last_read self.old) at)) }
    {
        let start = self.text.len();
        let head = self.heads.len();
        let (place, count) = read_term(&mut self.text, self.before, bytes, at)?;
        let end = read_heads(&mut self.sums, bytes, docs, count, place)?;
        if self.text.len() > most_text {
            return Err(OpenFault::NoMemory);
        }
        match self.heads.append(bytes, place, count) {
            Ok(()) => {}
            Err(_) => return Err(OpenFault::NoMemory),
        }
        match self.rows.push(TermRow {
            text: start as u32,
            head: head as u32,
            group: self.groups,
        }) {
            Ok(()) => {}
            Err(_) => return Err(OpenFault::NoMemory),
        }
        self.groups += count.div_ceil(4);
        self.before = Some(Span {
            from: start as u32,
            to: self.text.len() as u32,
        });
        Ok(end)
    }

    /// Reads a term with its heads, which is all of some bytes; false where it is refused, or ends before them.
    pub(crate) fn read_whole(
        &mut self,
        bytes: &[u8],
        docs: u32,
        most_text: usize,
    ) -> Result<bool, OpenFault>
        requires few { length bytes.now ≤ LONGEST_FILE }
        requires docs { docs ≤ MOST_DOCUMENTS }
        requires most { most_text < 2 ^ 32 }
        requires reader { IsReader docs self.old }
        requires room { 11 * length self.old.heads ≤ LONGEST_FILE }
        ensures one { IfOk result (λ read. read ≡ true
            → (term : TermHeads) × ReadsOne bytes.now docs 0 (length bytes.now) self.old self.new term) }
        ensures fault { IfErr result (λ fault. fault ≡ OpenFault.NoMemory) }
    {
        match self.read_one(bytes, docs, 0, most_text) {
            Ok(end) => Ok(end == bytes.len()),
            Err(OpenFault::NoMemory) => Err(OpenFault::NoMemory),
            Err(_) => Ok(false),
        }
    }

    /// The tables of all terms, with a row behind the last, and the sums.
    pub(crate) fn finish(self) -> Result<(TermTable, Sums), OpenFault>
        requires text { length self.text < 2 ^ 32 }
        requires heads { length self.heads < 2 ^ 32 }
        ensures table { IfOk result (λ x.
            x.0 ≡ record { text = self.text; rows = rows_read self; heads = self.heads }) }
        ensures sums { IfOk result (λ x. x.1 ≡ self.sums) }
        ensures fault { IfErr result (λ fault. fault ≡ OpenFault.NoMemory) }
    {
        let TermReader {
            text,
            mut rows,
            heads,
            sums,
            before: _,
            groups,
        } = self;
        match rows.push(TermRow {
            text: text.len() as u32,
            head: heads.len() as u32,
            group: groups,
        }) {
            Ok(()) => Ok((TermTable { text, rows, heads }, sums)),
            Err(_) => Err(OpenFault::NoMemory),
        }
    }
}
