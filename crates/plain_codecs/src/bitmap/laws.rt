//! The payloads that are read are those of lists of documents.

ghost use Rattle.std.specs.Prelude.{ℕ, ◌≡◌, ◌≤◌, ◌<◌, List, length, All, Ok};
ghost use Rattle.jass_base.specs.Gaps.{AreDocs};
ghost use Rattle.lane_kernels.specs.Bitmap.{set_bits};
ghost use Rattle.plain_codecs.specs.Bitmap.{bitmap_of, bitmap_size, read_bitmap};
ghost use Rattle.jass_base.specs.declared.limits.TheConstants.{MOST_DOCUMENTS};

use lane_kernels::laws::set_bits_rise;

/// The set bits of a payload are its documents, and so many bytes are the payload of their
/// set bits.
pub fn bits_are_documents()
    ensures size { (d : ℕ) (docs : List ℕ) → length (bitmap_of d docs) ≡ bitmap_size d }
    ensures found { (d : ℕ) (docs : List ℕ) → AreDocs d docs → set_bits 0 (bitmap_of d docs) ≡ docs }
    ensures only { (d : ℕ) (bytes : List ℕ) → All (λ byte. byte < 256) bytes → length bytes ≡ bitmap_size d
        → bitmap_of d (set_bits 0 bytes) ≡ bytes }
{
    set_bits_rise();
}

/// Documents are read exactly from their payload.
pub fn payloads_are_read()
    ensures found { (d count : ℕ) (docs bytes : List ℕ) → AreDocs d docs → length docs ≡ count
        → bytes ≡ bitmap_of d docs → read_bitmap d count bytes ≡ Ok docs }
    ensures only { (d count : ℕ) (docs bytes : List ℕ) → 1 ≤ count → d ≤ MOST_DOCUMENTS → All (λ byte. byte < 256) bytes
        → read_bitmap d count bytes ≡ Ok docs → AreDocs d docs × (length docs ≡ count) × (bytes ≡ bitmap_of d docs) }
{
    bits_are_documents();
    set_bits_rise();
}
