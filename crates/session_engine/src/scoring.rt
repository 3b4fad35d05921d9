ghost use Rattle.std.specs.Prelude.{◌≡◌, ℕ, ◌+◌, ◌*◌, ◌<◌, ◌≤◌, ◌^◌, All, length};
ghost use Rattle.jass_base.specs.declared.limits.TheConstants.{MOST_DOCUMENTS};
ghost use Rattle.accumulator_pages.specs.Pages.{HasRoomFor};
ghost use Rattle.frame_pool.specs.ChainView.{LeavesPool};
ghost use Rattle.index_file.specs.Places.{segment_at};
ghost use Rattle.index_file.specs.Sources.{IsPiece, piece_docs};
ghost use Rattle.index_model.specs.Querying.{segments_at};
ghost use Rattle.lane_kernels.specs.Bitmap.{set_bits};
ghost use Rattle.ranking_model.specs.Scores.{added};
ghost use Rattle.sharp_bounds.specs.Marks.{marked};
ghost use Rattle.session_scores.specs.Scores.{AreScoresOf, ScoresStand, docs_of, own_chain, own_view, scores_of};

use crate::marks::Marks;
use frame_pool::FramePool;
use frame_pool::laws::calls_on_one_chain;
use index_file::{Piece, Source};
use jass_base::Steps;
use ranking_model::prefix_laws::{one_segment_more_is_added, scores_stay_small};
use session_scores::Scores;
use sharp_bounds::mask_laws::each_posting_marks_its_document;
use std::sync::ledger::Ledger;

/// A segment of a term, and the weight that it adds to the score of each of its documents.
#[derive(Clone, Copy)]
pub struct WeighedSegment {
    /// The term's place in the query.
    pub term_place: u32,
    pub term: u32,
    pub segment: u32,
    pub weight: u32,
    pub count: u32,
}

/// Adds the weight of a whole segment to the scores of its documents, and marks each of them. `block` is room for
/// documents.
pub fn score_segment<S: Source, M: Marks, L: Ledger>(
    scores: &mut Scores,
    source: &S,
    pool: &mut FramePool,
    segment: WeighedSegment,
    block: &mut [u32; 128],
    marks: &mut M,
    steps: &mut Steps<L>,
)
    requires term { segment.term < length (S.index source.now).terms }
    requires segment { segment.segment < length (segments_at (S.index source.now).terms segment.term) }
    requires count { segment.count ≡ length (segment_at (S.index source.now).terms segment.term segment.segment).docs }
    requires weight { 1 ≤ segment.weight }
    requires stand { ScoresStand scores.old pool.old }
    requires docs { docs_of scores.old ≡ length (S.index source.now).names }
    requires fits { All (λ score. score < 2 ^ 32) (added segment.weight
        (segment_at (S.index source.now).terms segment.term segment.segment).docs (scores_of scores.old pool.old)) }
    requires room { HasRoomFor (own_view scores.old pool.old) (docs_of scores.old) segment.count }
    requires place { M.has_place marks.old segment.term_place }
    requires marks { All (λ doc. M.has_mask marks.old doc)
        (segment_at (S.index source.now).terms segment.term segment.segment).docs }
    ensures scores { scores_of scores.new pool.new ≡ added segment.weight
        (segment_at (S.index source.now).terms segment.term segment.segment).docs (scores_of scores.old pool.old) }
    ensures frames { length (own_view scores.new pool.new).frames
        ≤ length (own_view scores.old pool.old).frames + segment.count }
    ensures stand { ScoresStand scores.new pool.new }
    ensures same { AreScoresOf scores.old scores.new }
    ensures leaves { LeavesPool pool.old pool.new (own_chain scores.old) }
    ensures steps { steps.new ≡ steps.old + segment.count }
    ensures masks { M.masks marks.new ≡ marked segment.term_place
        (segment_at (S.index source.now).terms segment.term segment.segment).docs (M.masks marks.old) }
    ensures places { (place : ℕ) → M.has_place marks.old place → M.has_place marks.new place }
    ensures marks { (doc : ℕ) → M.has_mask marks.old doc → M.has_mask marks.new doc }
{
    source.is_searchable();
    if segment.count == 1 {
        let doc = source.first_doc(segment.term, segment.segment, steps);
        scores.add(pool, doc, segment.weight);
        marks.mark_one(segment.term_place, doc);
    } else {
        score_pieces(scores, source, pool, segment, block, marks, steps);
    }
}

/// Adds a weight to the scores of the documents of a piece; those of a block stand at its front.
fn score_piece(
    scores: &mut Scores,
    pool: &mut FramePool,
    piece: Piece<'_>,
    block: &[u32; 128],
    weight: u32,
)
    requires piece { IsPiece piece }
    requires weight { 1 ≤ weight }
    requires stand { ScoresStand scores.old pool.old }
    requires inside { All (λ doc. doc < docs_of scores.old) (piece_docs piece block.now) }
    requires fits { All (λ score. score < 2 ^ 32)
        (added weight (piece_docs piece block.now) (scores_of scores.old pool.old)) }
    requires room { HasRoomFor (own_view scores.old pool.old) (docs_of scores.old)
        (length (piece_docs piece block.now)) }
    ensures scores { scores_of scores.new pool.new
        ≡ added weight (piece_docs piece.entry block.now) (scores_of scores.old pool.old) }
    ensures frames { length (own_view scores.new pool.new).frames
        ≤ length (own_view scores.old pool.old).frames + length (piece_docs piece.entry block.now) }
    ensures stand { ScoresStand scores.new pool.new }
    ensures same { AreScoresOf scores.old scores.new }
    ensures leaves { LeavesPool pool.old pool.new (own_chain scores.old) }
{
    match piece {
        Piece::Block { count } => scores.add_all(pool, &block[..count as usize], weight),
        Piece::Bits {
            row,
            bits,
            count: _,
        } => score_bits(scores, pool, row, bits, weight),
    }
}

/// Adds a weight to the scores of the documents whose bits are set, by rows of 128. Bit i of the bytes is that of
/// document 128 * first + i. Not inlined: within the loop over pieces it would take the registers of `add_all`.
#[inline(never)]
fn score_bits(scores: &mut Scores, pool: &mut FramePool, first: u32, bits: &[u8], weight: u32)
    requires few { 128 * first + 8 * length bits.now ≤ MOST_DOCUMENTS }
    requires weight { 1 ≤ weight }
    requires stand { ScoresStand scores.old pool.old }
    requires inside { All (λ doc. doc < docs_of scores.old) (set_bits (128 * first) bits.now) }
    requires fits { All (λ score. score < 2 ^ 32)
        (added weight (set_bits (128 * first) bits.now) (scores_of scores.old pool.old)) }
    requires room { HasRoomFor (own_view scores.old pool.old) (docs_of scores.old)
        (length (set_bits (128 * first) bits.now)) }
    ensures scores { scores_of scores.new pool.new
        ≡ added weight (set_bits (128 * first) bits.now) (scores_of scores.old pool.old) }
    ensures frames { length (own_view scores.new pool.new).frames
        ≤ length (own_view scores.old pool.old).frames + length (set_bits (128 * first) bits.now) }
    ensures stand { ScoresStand scores.new pool.new }
    ensures same { AreScoresOf scores.old scores.new }
    ensures leaves { LeavesPool pool.old pool.new (own_chain scores.old) }
{
    calls_on_one_chain();
    one_segment_more_is_added();
    scores_stay_small();
    let mut row = 0;
    'rows: while 16 * row < bits.len() {
        let end = (16 * row + 16).min(bits.len());
        scores.add_bits(pool, first + row as u32, &bits[16 * row..end], weight);
        row += 1;
    }
}

/// Adds the weight of a whole segment and marks its documents, piece by piece.
fn score_pieces<S: Source, M: Marks, L: Ledger>(
    scores: &mut Scores,
    source: &S,
    pool: &mut FramePool,
    segment: WeighedSegment,
    block: &mut [u32; 128],
    marks: &mut M,
    steps: &mut Steps<L>,
)
    requires term { segment.term < length (S.index source.now).terms }
    requires segment { segment.segment < length (segments_at (S.index source.now).terms segment.term) }
    requires count { segment.count ≡ length (segment_at (S.index source.now).terms segment.term segment.segment).docs }
    requires weight { 1 ≤ segment.weight }
    requires stand { ScoresStand scores.old pool.old }
    requires inside { All (λ doc. doc < docs_of scores.old)
        (segment_at (S.index source.now).terms segment.term segment.segment).docs }
    requires fits { All (λ score. score < 2 ^ 32) (added segment.weight
        (segment_at (S.index source.now).terms segment.term segment.segment).docs (scores_of scores.old pool.old)) }
    requires room { HasRoomFor (own_view scores.old pool.old) (docs_of scores.old) segment.count }
    requires place { M.has_place marks.old segment.term_place }
    requires marks { All (λ doc. M.has_mask marks.old doc)
        (segment_at (S.index source.now).terms segment.term segment.segment).docs }
    ensures scores { scores_of scores.new pool.new ≡ added segment.weight
        (segment_at (S.index source.now).terms segment.term segment.segment).docs (scores_of scores.old pool.old) }
    ensures frames { length (own_view scores.new pool.new).frames
        ≤ length (own_view scores.old pool.old).frames + segment.count }
    ensures stand { ScoresStand scores.new pool.new }
    ensures same { AreScoresOf scores.old scores.new }
    ensures leaves { LeavesPool pool.old pool.new (own_chain scores.old) }
    ensures steps { steps.new ≡ steps.old + segment.count }
    ensures masks { M.masks marks.new ≡ marked segment.term_place
        (segment_at (S.index source.now).terms segment.term segment.segment).docs (M.masks marks.old) }
    ensures places { (place : ℕ) → M.has_place marks.old place → M.has_place marks.new place }
    ensures marks { (doc : ℕ) → M.has_mask marks.old doc → M.has_mask marks.new doc }
{
    calls_on_one_chain();
    one_segment_more_is_added();
    scores_stay_small();
    each_posting_marks_its_document();
    let mut cursor = source.start(segment.term, segment.segment);
    let mut left = segment.count;
    'pieces: while left > 0 {
        let piece = source.hand_out(&mut cursor, block, steps);
        score_piece(scores, pool, piece, block, segment.weight);
        marks.mark_piece(segment.term_place, piece, block);
        left -= piece.count();
    }
}
