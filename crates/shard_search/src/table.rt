ghost use Rattle.std.specs.Prelude.{◌≡◌, ◌<◌, ◌+◌, ◌++◌, ◌∷◌, [], length, IfOk, OnOk, slice_range};
ghost use Rattle.index_model.specs.Querying.{segments_at};
ghost use Rattle.index_file.specs.Places.{segment_at};
ghost use Rattle.shard_search.specs.Parts.{IsPartSegment, base_of, index_at};
ghost use Rattle.index_model.specs.Merging.{joined_segment};
ghost use Rattle.index_model.specs.Unions.{raised_segment};
ghost use Rattle.shard_search.specs.Private.Tables.{Grows, IsSegmentRow, IsTable, row_segment};

use crate::rows::{PartSegment, SegmentRow, Span, TermRow};
use index_file::IndexFile;
use jass_base::{NoMemory, Row};
use std::alloc::Global;

/// The terms of parts with their segments: each term has its segments one after the other, and each segment the part
/// segments that it joins.
#[derive(Drop)]
pub(crate) struct Table {
    pub pieces: Row<PartSegment>,
    pub segments: Row<SegmentRow>,
    pub terms: Row<TermRow>,
}

/// A number of rows in 32 bits. More don't come up, as each has a posting.
fn place(count: usize) -> Result<u32, NoMemory>
    ensures { IfOk result (λ place. place ≡ count) }
{
    match u32::try_from(count) {
        Ok(place) => Ok(place),
        Err(_) => Err(NoMemory),
    }
}

impl Table {
    /// No term.
    pub(crate) fn new(alloc: Global) -> Table
        ensures pieces { result.pieces ≡ [] }
        ensures segments { result.segments ≡ [] }
        ensures terms { result.terms ≡ [] }
    {
        Table {
            pieces: Row::new(alloc),
            segments: Row::new(alloc),
            terms: Row::new(alloc),
        }
    }

    /// Puts a segment behind the others. It joins the part segments from a place on.
    fn put_segment(&mut self, from: usize, impact: u16, count: u32) -> Result<(), NoMemory>
        ensures segments { OnOk result (self.new.segments ≡ self.old.segments
            ++ record { impact = impact; count = count; from = from; to = length self.old.pieces } ∷ []) }
        ensures pieces { self.new.pieces ≡ self.old.pieces }
        ensures terms { self.new.terms ≡ self.old.terms }
    {
        let row = SegmentRow {
            impact,
            count,
            from: place(from)?,
            to: place(self.pieces.len())?,
        };
        self.segments.push(row)?;
        Ok(())
    }

    /// Puts a term of a part behind the others. Its segments are those from a place on.
    pub(crate) fn put_term(&mut self, from: usize, part: u32, term: u32) -> Result<(), NoMemory>
        ensures terms { OnOk result (self.new.terms ≡ self.old.terms
            ++ record { part = part; term = term; span = record { from = from; to = length self.old.segments } } ∷ []) }
        ensures pieces { self.new.pieces ≡ self.old.pieces }
        ensures segments { self.new.segments ≡ self.old.segments }
    {
        let span = Span {
            from: place(from)?,
            to: place(self.segments.len())?,
        };
        self.terms.push(TermRow { part, term, span })?;
        Ok(())
    }

    /// Puts a part's segment behind the others.
    pub(crate) fn put_part_segment(
        &mut self,
        parts: &[IndexFile],
        piece: PartSegment,
    ) -> Result<(), NoMemory>
        requires stands { IsTable parts.now self.old }
        requires piece { IsPartSegment parts.now piece }
        ensures { OnOk result (Grows parts.now self.old self.new
            (raised_segment (base_of parts.now piece.part)
            (segment_at (index_at parts.now piece.part).terms piece.term piece.segment) ∷ [])) }
    {
        let from = self.pieces.len();
        let head = parts[piece.part as usize].head(piece.term, piece.segment);
        self.pieces.push(piece)?;
        self.put_segment(from, head.impact, head.count)?;
        Ok(())
    }

    /// Puts a segment of another table behind the others.
    pub(crate) fn copy_segment(
        &mut self,
        parts: &[IndexFile],
        table: &Table,
        row: SegmentRow,
    ) -> Result<(), NoMemory>
        requires stands { IsTable parts.now self.old }
        requires table { IsTable parts.now table.now }
        requires row { IsSegmentRow parts.now table.now.pieces row }
        ensures { OnOk result (Grows parts.now self.old self.new
            (row_segment parts.now table.now.pieces row ∷ [])) }
    {
        let from = self.pieces.len();
        self.pieces.extend(&table.pieces.as_slice()[row.from as usize..row.to as usize])?;
        self.put_segment(from, row.impact, row.count)?;
        Ok(())
    }

    /// Puts the segment that joins those of two other tables behind the others.
    pub(crate) fn join_segments(
        &mut self,
        parts: &[IndexFile],
        first: &Table,
        own: SegmentRow,
        second: &Table,
        other: SegmentRow,
    ) -> Result<(), NoMemory>
        requires stands { IsTable parts.now self.old }
        requires first { IsTable parts.now first.now }
        requires own { IsSegmentRow parts.now first.now.pieces own }
        requires second { IsTable parts.now second.now }
        requires other { IsSegmentRow parts.now second.now.pieces other }
        ensures { OnOk result (Grows parts.now self.old self.new
            (joined_segment (row_segment parts.now first.now.pieces own) (row_segment parts.now second.now.pieces other) ∷ [])) }
    {
        let Some(count) = own.count.checked_add(other.count) else {
            return Err(NoMemory);
        };
        let from = self.pieces.len();
        self.pieces.extend(&first.pieces.as_slice()[own.from as usize..own.to as usize])?;
        self.pieces.extend(&second.pieces.as_slice()[other.from as usize..other.to as usize])?;
        self.put_segment(from, own.impact, count)?;
        Ok(())
    }
}
