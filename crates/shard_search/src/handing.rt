ghost use Rattle.std.specs.Prelude.{ℕ, ◌≡◌, ◌≢◌, ◌<◌, ◌≤◌, ◌+◌, ◌++◌, ◌∷◌, [], List, length, slice_range, take};
ghost use Rattle.index_model.specs.Querying.{segments_at};
ghost use Rattle.index_file.specs.Places.{segment_at};
ghost use Rattle.index_file.specs.Sources.{HandsOut};
ghost use Rattle.shard_search.specs.Parts.{pieces_docs};
ghost use Rattle.shard_search.specs.Union.{Leaves, union_index};

use crate::cursor::ShardCursor;
use crate::raising::raise;
use crate::rows::SegmentRow;
use crate::shards::Shards;
use index_file::{Head, Piece, Source};
use jass_base::Steps;
use std::sync::ledger::Ledger;

impl Shards {
    /// The row of a segment.
    fn row(&self, t: u32, s: u32) -> SegmentRow
        requires t { t < length (union_index self.now).terms }
        requires s { s < length (segments_at (union_index self.now).terms t) }
        ensures impact { result.impact ≡ (segment_at (union_index self.now).terms t s).impact }
        ensures count { result.count ≡ length (segment_at (union_index self.now).terms t s).docs }
        ensures docs { pieces_docs self.now.files (slice_range self.now.pieces result.from result.to)
            ≡ (segment_at (union_index self.now).terms t s).docs }
        ensures some { result.from < result.to }
        ensures within { result.to ≤ length self.now.pieces }
    {
        let span = self.table.terms.as_slice()[t as usize].span;
        self.table.segments.as_slice()[span.from as usize + s as usize]
    }

    /// A cursor at the first document of some part segments.
    fn begin(&self, from: u32, to: u32) -> ShardCursor
        requires some { from < to }
        requires within { to ≤ length self.now.pieces }
        ensures leaves { Leaves self.now result (pieces_docs self.now.files (slice_range self.now.pieces from to)) }
        ensures some { 1 ≤ result.left }
    {
        let piece = self.table.pieces.as_slice()[from as usize];
        let file = &self.parts.as_slice()[piece.part as usize];
        file.is_checked();
        ShardCursor {
            inner: file.cursor(piece.term, piece.segment),
            part: piece.part,
            left: file.head(piece.term, piece.segment).count,
            next: from + 1,
            end: to,
        }
    }

    /// The cursor at the next part segment, where it has given all of the one before.
    fn ready(&self, cursor: ShardCursor) -> ShardCursor
        requires stands { (docs : List ℕ) × Leaves self.now cursor docs }
        ensures leaves { (docs : List ℕ) → Leaves self.now cursor docs → Leaves self.now result docs }
        ensures some { (docs : List ℕ) → Leaves self.now cursor docs → docs ≢ [] → 1 ≤ result.left }
    {
        if cursor.left > 0 {
            return cursor;
        }
        if cursor.next >= cursor.end {
            return cursor;
        }
        self.begin(cursor.next, cursor.end)
    }

    /// The document of some part segments that have one.
    fn only_doc<L: Ledger>(&self, from: u32, to: u32, steps: &mut Steps<L>) -> u32
        requires some { from < to }
        requires within { to ≤ length self.now.pieces }
        requires one { length (pieces_docs self.now.files (slice_range self.now.pieces from to)) ≡ 1 }
        ensures doc { pieces_docs self.now.files (slice_range self.now.pieces from to) ≡ result ∷ [] }
        ensures steps { steps.new ≡ steps.old + 1 }
    {
        let piece = self.table.pieces.as_slice()[from as usize];
        let file = &self.parts.as_slice()[piece.part as usize];
        file.is_checked();
        self.bases.as_slice()[piece.part as usize]
            + file.first_doc(piece.term, piece.segment, steps)
    }

    /// Puts the next documents of a part's segment, raised, to the front of a block, and returns how many.
    fn give<L: Ledger>(
        &self,
        cursor: &mut ShardCursor,
        block: &mut [u32; 128],
        steps: &mut Steps<L>,
    ) -> u32
        requires stands { (docs : List ℕ) × Leaves self.now cursor.old docs }
        ensures gives { (docs : List ℕ) → Leaves self.now cursor.old docs
            → (rest : List ℕ) × Leaves self.now cursor.new rest × (take result block.new ++ rest ≡ docs) }
        ensures most { result ≤ 128 }
        ensures some { 1 ≤ cursor.old.left → 1 ≤ result }
        ensures steps { steps.new ≡ steps.old + result }
    {
        let part = cursor.part as usize;
        let given = self.parts.as_slice()[part].next_block(&mut cursor.inner, block, steps);
        raise(block, given, self.bases.as_slice()[part]);
        cursor.left -= given as u32;
        given as u32
    }
}

impl Source for Shards {
    type Cursor = ShardCursor;

    ghost index = { union_index };

    ghost left = { Leaves };

    fn is_searchable(&self) {
        let _ = &self.docs;
    }

    fn docs(&self) -> u32 {
        self.docs
    }

    fn segments(&self, t: u32) -> u32 {
        if t >= self.terms {
            return 0;
        }
        let span = self.table.terms.as_slice()[t as usize].span;
        span.to - span.from
    }

    fn head(&self, t: u32, s: u32) -> Head {
        let row = self.row(t, s);
        Head {
            impact: row.impact,
            count: row.count,
        }
    }

    fn first_doc<L: Ledger>(&self, t: u32, s: u32, steps: &mut Steps<L>) -> u32 {
        let row = self.row(t, s);
        self.only_doc(row.from, row.to, steps)
    }

    fn start(&self, t: u32, s: u32) -> ShardCursor {
        let row = self.row(t, s);
        self.begin(row.from, row.to)
    }

    fn hand_out<L: Ledger>(
        &self,
        cursor: &mut ShardCursor,
        block: &mut [u32; 128],
        steps: &mut Steps<L>,
    ) -> Piece<'_> {
        *cursor = self.ready(*cursor);
        Piece::Block {
            count: self.give(cursor, block, steps),
        }
    }
}
