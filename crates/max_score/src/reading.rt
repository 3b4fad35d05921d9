//! The segments of a term, written as the impacts of documents.

ghost use Rattle.std.specs.Prelude.{◌≡◌, ◌+◌, ◌*◌, ◌<◌, ◌≤◌, All, length, ℕ};
ghost use Rattle.jass_base.specs.declared.limits.TheConstants.{MOST_DOCUMENTS};
ghost use Rattle.index_file.specs.Places.{segment_at};
ghost use Rattle.index_file.specs.Sources.{IsPiece, piece_docs};
ghost use Rattle.index_model.specs.Querying.{segments_at};
ghost use Rattle.lane_kernels.specs.Bitmap.{set_bits};
ghost use Rattle.max_score.specs.Cursors.{postings_in};
ghost use Rattle.max_score.specs.Private.Stamping.{stamped, stamped_all};

use index_file::{Piece, Source};
use jass_base::Steps;
use lane_kernels::bits_to_docs;
use std::sync::ledger::Ledger;

/// Writes the impact of each document of a term. The answer is the greatest that was written, 0 where none was.
pub fn read_term<S: Source, L: Ledger>(
    impacts: &mut [u16],
    source: &S,
    term: u32,
    steps: &mut Steps<L>,
) -> u16
    requires term { term < length (S.index source.now).terms }
    requires docs { length impacts.old ≡ length (S.index source.now).names }
    requires least { All (λ impact. impact ≡ 0) impacts.old }
    ensures impacts { impacts.new ≡ stamped_all (segments_at (S.index source.now).terms term) impacts.old }
    ensures greatest { All (λ impact. impact ≤ result) impacts.new }
    ensures steps { steps.new ≡ steps.old + postings_in (segments_at (S.index source.now).terms term) }
{
    source.is_searchable();
    let mut block = [0u32; 128];
    let mut greatest = 0;
    for segment in 0..source.segments(term) {
        let head = source.head(term, segment);
        read_segment(
            impacts,
            source,
            Segment {
                term,
                segment,
                impact: head.impact,
                count: head.count,
            },
            &mut block,
            steps,
        );
        greatest = greatest.max(head.impact);
    }
    greatest
}

/// A segment of a term, its impact, and how many documents it has.
#[derive(Clone, Copy)]
struct Segment {
    term: u32,
    segment: u32,
    impact: u16,
    count: u32,
}

/// Writes the impact of a segment at each of its documents. `block` is room for documents.
fn read_segment<S: Source, L: Ledger>(
    impacts: &mut [u16],
    source: &S,
    segment: Segment,
    block: &mut [u32; 128],
    steps: &mut Steps<L>,
)
    requires term { segment.term < length (S.index source.now).terms }
    requires segment { segment.segment < length (segments_at (S.index source.now).terms segment.term) }
    requires count { segment.count ≡ length (segment_at (S.index source.now).terms segment.term segment.segment).docs }
    requires docs { length impacts.old ≡ length (S.index source.now).names }
    ensures impacts { impacts.new ≡ stamped segment.impact
        (segment_at (S.index source.now).terms segment.term segment.segment).docs impacts.old }
    ensures steps { steps.new ≡ steps.old + segment.count }
{
    source.is_searchable();
    if segment.count == 1 {
        let doc = source.first_doc(segment.term, segment.segment, steps);
        impacts[doc as usize] = segment.impact;
    } else {
        read_pieces(impacts, source, segment, block, steps);
    }
}

/// Writes the impact of a segment at each of its documents, piece by piece. `block` is room for documents.
fn read_pieces<S: Source, L: Ledger>(
    impacts: &mut [u16],
    source: &S,
    segment: Segment,
    block: &mut [u32; 128],
    steps: &mut Steps<L>,
)
    requires term { segment.term < length (S.index source.now).terms }
    requires segment { segment.segment < length (segments_at (S.index source.now).terms segment.term) }
    requires count { segment.count ≡ length (segment_at (S.index source.now).terms segment.term segment.segment).docs }
    requires inside { All (λ doc. doc < length impacts.old)
        (segment_at (S.index source.now).terms segment.term segment.segment).docs }
    ensures impacts { impacts.new ≡ stamped segment.impact
        (segment_at (S.index source.now).terms segment.term segment.segment).docs impacts.old }
    ensures steps { steps.new ≡ steps.old + segment.count }
{
    let mut cursor = source.start(segment.term, segment.segment);
    let mut left = segment.count;
    'pieces: while left > 0 {
        let piece = source.hand_out(&mut cursor, block, steps);
        stamp_piece(impacts, piece, block, segment.impact);
        left -= piece.count();
    }
}

/// Writes an impact at the documents of a piece; those of a block stand at its front.
fn stamp_piece(impacts: &mut [u16], piece: Piece<'_>, block: &[u32; 128], impact: u16)
    requires piece { IsPiece piece }
    requires inside { All (λ doc. doc < length impacts.old) (piece_docs piece block.now) }
    ensures { impacts.new ≡ stamped impact (piece_docs piece.entry block.now) impacts.old }
{
    match piece {
        Piece::Block { count } => stamp(impacts, &block[..count as usize], impact),
        Piece::Bits {
            row,
            bits,
            count: _,
        } => stamp_bits(impacts, row, bits, impact),
    }
}

/// Writes an impact at the documents whose bits are set, by rows of 128. Bit i of the bytes is that of document
/// 128 * first + i.
fn stamp_bits(impacts: &mut [u16], first: u32, bits: &[u8], impact: u16)
    requires few { 128 * first + 8 * length bits.now ≤ MOST_DOCUMENTS }
    requires inside { All (λ doc. doc < length impacts.old) (set_bits (128 * first) bits.now) }
    ensures { impacts.new ≡ stamped impact (set_bits (128 * first) bits.now) impacts.old }
{
    let mut docs = [0u32; 128];
    let mut row = 0;
    'rows: while 16 * row < bits.len() {
        let end = (16 * row + 16).min(bits.len());
        let count = bits_to_docs(&bits[16 * row..end], 128 * (first + row as u32), &mut docs);
        stamp(impacts, &docs[..count], impact);
        row += 1;
    }
}

/// Writes an impact at some documents.
fn stamp(impacts: &mut [u16], docs: &[u32], impact: u16)
    requires { All (λ doc. doc < length impacts.old) docs.now }
    ensures { impacts.new ≡ stamped impact docs.now impacts.old }
{
    for doc in docs {
        impacts[*doc as usize] = impact;
    }
}
