ghost use Rattle.std.specs.Prelude.{ℕ, ◌≡◌, ◌<◌, ◌+◌, ◌∷◌, [], List, length};
ghost use Rattle.index_model.specs.Index.{IndexData};
ghost use Rattle.index_model.specs.Querying.{segments_at};
ghost use Rattle.index_file.specs.Places.{segment_at};
ghost use Rattle.index_file.specs.Sources.{HandsOut, IsPiece, IsSearchable, piece_docs};

use crate::figures::Head;
use crate::piece::Piece;
use jass_base::Steps;
use std::sync::ledger::Ledger;

/// An index whose segments are handed out in pieces: that of a file, or of several files seen as one. Each posting that
/// is handed out is counted as a step, in whatever form it leaves.
pub trait Source {
    /// How far the documents of a segment have been handed out.
    type Cursor: Drop;

    /// The index that is searched.
    ghost index: { Self → IndexData };

    /// The cursor still hands out these documents.
    ghost left: { Self → Self.Cursor → List ℕ → Type 0 };

    /// That the index can be searched: a caller learns it by the call.
    fn is_searchable(&self)
        ensures { IsSearchable (index self.now) };

    /// The number of documents.
    fn docs(&self) -> u32
        ensures { result ≡ length (index self.now).names };

    /// How many segments a term has; 0 where there is no such term.
    fn segments(&self, t: u32) -> u32
        ensures { result ≡ length (segments_at (index self.now).terms t) };

    /// The head of a segment of a term.
    fn head(&self, t: u32, s: u32) -> Head
        requires t { t < length (index self.now).terms }
        requires s { s < length (segments_at (index self.now).terms t) }
        ensures impact { result.impact ≡ (segment_at (index self.now).terms t s).impact }
        ensures count { result.count ≡ length (segment_at (index self.now).terms t s).docs };

    /// The document of a segment that has one.
    fn first_doc<L: Ledger>(&self, t: u32, s: u32, steps: &mut Steps<L>) -> u32
        requires t { t < length (index self.now).terms }
        requires s { s < length (segments_at (index self.now).terms t) }
        requires one { length (segment_at (index self.now).terms t s).docs ≡ 1 }
        ensures doc { (segment_at (index self.now).terms t s).docs ≡ result ∷ [] }
        ensures steps { steps.new ≡ steps.old + 1 };

    /// A cursor at the first document of a segment.
    fn start(&self, t: u32, s: u32) -> Self::Cursor
        requires t { t < length (index self.now).terms }
        requires s { s < length (segments_at (index self.now).terms t) }
        ensures { left self.now result (segment_at (index self.now).terms t s).docs };

    /// Hands out the next documents of a segment, one at least until its end. `block` is room for them; what stands
    /// there behind them is left open.
    fn hand_out<L: Ledger>(
        &self,
        cursor: &mut Self::Cursor,
        block: &mut [u32; 128],
        steps: &mut Steps<L>,
    ) -> Piece<'_>
        requires stands { (docs : List ℕ) × left self.now cursor.old docs }
        ensures piece { (docs : List ℕ) → left self.now cursor.old docs
            → HandsOut (left self.now cursor.new) result block.new docs }
        ensures fits { IsPiece result }
        ensures steps { steps.new ≡ steps.old + length (piece_docs result block.new) };
}
