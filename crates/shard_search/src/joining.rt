ghost use Rattle.std.specs.Prelude.{◌≡◌, ◌≢◌, ◌<◌, ◌⊎◌, ◌++◌, ◌∷◌, [], List, length, drop, IfOk, OnOk};
ghost use Rattle.index_layout.specs.View.{FileView};
ghost use Rattle.index_file.specs.Places.{term_at};
ghost use Rattle.index_model.specs.Merging.{merged_segments, merged_terms, term_cmp};
ghost use Rattle.shard_search.specs.Parts.{index_at};
ghost use Rattle.shard_search.specs.Private.Heads.{head_order};
ghost use Rattle.shard_search.specs.Private.Tables.{GrowsTerm, IsSpan, IsTable, IsTermRow, row_term, span_segments, told_terms};

use crate::rows::{Span, TermRow};
use crate::table::Table;
use index_file::IndexFile;
use jass_base::NoMemory;
use std::alloc::Global;
use std::cmp::Ordering;

/// No rows.
const NOTHING: Span = Span { from: 0, to: 0 };

impl Table {
    /// Puts a term of a part behind the others, with the segments of two spans, merged.
    fn put_merged(
        &mut self,
        parts: &[IndexFile],
        first: &Table,
        row: TermRow,
        second: &Table,
        other: Span,
    ) -> Result<(), NoMemory>
        requires stands { IsTable parts.now self.old }
        requires first { IsTable parts.now first.now }
        requires row { IsTermRow parts.now first.now.segments row }
        requires second { IsTable parts.now second.now }
        requires other { IsSpan second.now.segments other }
        ensures { OnOk result (GrowsTerm parts.now self.old self.new (record {
          term = term_at (index_at parts.now row.part).terms row.term;
          segments = merged_segments (span_segments parts.now first.now row.span) (span_segments parts.now second.now other);
        })) }
    {
        let from = self.segments.len();
        self.merge_segments(parts, first, row.span, second, other)?;
        self.put_term(from, row.part, row.term)?;
        Ok(())
    }
}

/// The bytes of a term.
pub(crate) fn text_of(parts: &[IndexFile], row: TermRow) -> &str
    requires part { row.part < length parts.now }
    requires term { row.term < length (index_at parts.now row.part).terms }
    ensures { result.now ≡ term_at (index_at parts.now row.part).terms row.term }
{
    parts[row.part as usize].term(row.term)
}

/// Which of two tables has the next term, by its bytes: Less where the first has it, Equal where both have it.
fn next_term(parts: &[IndexFile], first: &Table, i: usize, second: &Table, j: usize) -> Ordering
    requires first { IsTable parts.now first.now }
    requires second { IsTable parts.now second.now }
    requires some { (i < length first.now.terms) ⊎ (j < length second.now.terms) }
    ensures order { result
        ≡ head_order term_cmp (drop i (told_terms parts.now first.now)) (drop j (told_terms parts.now second.now)) }
    ensures first { result ≢ Ordering.Greater → i < length first.now.terms }
    ensures second { result ≢ Ordering.Less → j < length second.now.terms }
{
    if i >= first.terms.len() {
        return Ordering::Greater;
    }
    if j >= second.terms.len() {
        return Ordering::Less;
    }
    let term = text_of(parts, first.terms.as_slice()[i]);
    let other = text_of(parts, second.terms.as_slice()[j]);
    term.as_bytes().cmp(other.as_bytes())
}

/// Two tables as one: a term of both has the segments of both, merged.
pub(crate) fn merge_tables(
    alloc: Global,
    parts: &[IndexFile],
    first: &Table,
    second: &Table,
) -> Result<Table, NoMemory>
    requires first { IsTable parts.now first.now }
    requires second { IsTable parts.now second.now }
    ensures stands { IfOk result (λ table. IsTable parts.now table) }
    ensures terms { IfOk result (λ table. told_terms parts.now table
        ≡ merged_terms (told_terms parts.now first.now) (told_terms parts.now second.now)) }
{
    let mut table = Table::new(alloc);
    let mut i = 0;
    let mut j = 0;
    'terms: while i < first.terms.len() || j < second.terms.len() {
        match next_term(parts, first, i, second, j) {
            Ordering::Less => {
                table.put_merged(parts, first, first.terms.as_slice()[i], first, NOTHING)?;
                i += 1;
            }
            Ordering::Greater => {
                table.put_merged(parts, second, second.terms.as_slice()[j], second, NOTHING)?;
                j += 1;
            }
            Ordering::Equal => {
                let other = second.terms.as_slice()[j].span;
                table.put_merged(parts, first, first.terms.as_slice()[i], second, other)?;
                i += 1;
                j += 1;
            }
        }
    }
    Ok(table)
}
