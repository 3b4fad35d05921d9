ghost use Rattle.std.specs.Prelude.{◌≡◌, ℕ, ◌+◌, ◌*◌, ◌<◌, ◌≤◌, List, [], ◌∷◌, All, length};
ghost use Rattle.accumulator_pages.specs.Adding.{page_count};
ghost use Rattle.index_file.specs.Sources.{IsPiece, piece_docs};
ghost use Rattle.jass_base.specs.declared.limits.TheConstants.{MOST_DOCUMENTS};
ghost use Rattle.lane_kernels.specs.Bitmap.{set_bits};
ghost use Rattle.sharp_bounds.specs.Marks.{marked};

use index_file::Piece;
use lane_kernels::bits_to_docs;
use sharp_bounds::Masks;
use sharp_bounds::mask_laws::{a_frame_for_each_page_is_enough, each_posting_marks_its_document};

/// What a search keeps of the documents of the segments that it scores, beside their scores: a mask of each, in which
/// the place of the segment's term is marked.
pub trait Marks {
    /// The mask of each document.
    ghost masks: { Self → List ℕ };

    /// The place can be marked.
    ghost has_place: { Self → ℕ → Type 0 };

    /// The document has a mask.
    ghost has_mask: { Self → ℕ → Type 0 };

    /// Marks the place of a term for a document.
    fn mark_one(&mut self, place: u32, doc: u32)
        requires place { has_place self.old place }
        requires inside { has_mask self.old doc }
        ensures masks { masks self.new ≡ marked place (doc ∷ []) (masks self.old) }
        ensures places { (other : ℕ) → has_place self.old other → has_place self.new other }
        ensures docs { (other : ℕ) → has_mask self.old other → has_mask self.new other };

    /// Marks it for the documents of a piece; those of a block stand at its front.
    fn mark_piece(&mut self, place: u32, piece: Piece<'_>, block: &[u32; 128])
        requires piece { IsPiece piece }
        requires place { has_place self.old place }
        requires inside { All (λ doc. has_mask self.old doc) (piece_docs piece block.now) }
        ensures masks { masks self.new ≡ marked place (piece_docs piece.entry block.now) (masks self.old) }
        ensures places { (other : ℕ) → has_place self.old other → has_place self.new other }
        ensures docs { (other : ℕ) → has_mask self.old other → has_mask self.new other };
}

/// The marks of a search that keeps none.
#[derive(Drop)]
pub struct NoMarks;

impl Marks for NoMarks {
    ghost use Rattle.std.specs.Prelude.{[], ⊤};

    ghost masks = { λ _. [] };

    ghost has_place = { λ _ place. ⊤ };

    ghost has_mask = { λ _ doc. ⊤ };

    fn mark_one(&mut self, place: u32, doc: u32) {}

    fn mark_piece(&mut self, place: u32, piece: Piece<'_>, block: &[u32; 128]) {}
}

/// Masks of 64 places, with a frame for each page of their documents.
impl Marks for Masks {
    ghost use Rattle.std.specs.Prelude.{◌<◌, ◌≤◌, length};
    ghost use Rattle.accumulator_pages.specs.Adding.{page_count};

    ghost masks = { λ m. m.masks };

    ghost has_place = { λ m place. (place < 64) × (page_count (length m.masks) ≤ m.frames) };

    ghost has_mask = { λ m doc. doc < length m.masks };

    fn mark_one(&mut self, place: u32, doc: u32) {
        a_frame_for_each_page_is_enough();
        self.mark(doc, place as u8);
    }

    fn mark_piece(&mut self, place: u32, piece: Piece<'_>, block: &[u32; 128]) {
        each_posting_marks_its_document();
        match piece {
            Piece::Block { count } => self.mark_all(&block[..count as usize], place as u8),
            Piece::Bits {
                row,
                bits,
                count: _,
            } => mark_bits(self, row, bits, place as u8),
        }
    }
}

/// Marks a place for the documents whose bits are set, by rows of 128. Bit i of the bytes is that of document
/// 128 * first + i.
fn mark_bits(masks: &mut Masks, first: u32, bits: &[u8], place: u8)
    requires few { 128 * first + 8 * length bits.now ≤ MOST_DOCUMENTS }
    requires inside { All (λ doc. doc < length masks.old.masks) (set_bits (128 * first) bits.now) }
    requires place { place < 64 }
    requires frames { page_count (length masks.old.masks) ≤ masks.old.frames }
    ensures masks { masks.new.masks ≡ marked place (set_bits (128 * first) bits.now) masks.old.masks }
    ensures frames { masks.new.frames ≡ masks.old.frames }
{
    each_posting_marks_its_document();
    let mut block = [0u32; 128];
    let mut row = 0;
    'rows: while 16 * row < bits.len() {
        let end = (16 * row + 16).min(bits.len());
        let count = bits_to_docs(&bits[16 * row..end], 128 * (first + row as u32), &mut block);
        masks.mark_all(&block[..count], place);
        row += 1;
    }
}
