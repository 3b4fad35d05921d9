//! What the definitions of the codecs promise. Each function does nothing of its own: its contract
//! is the law, and a caller learns it by the call.

ghost use Rattle.std.specs.Prelude.{ℕ, ◌≡◌, ◌≤◌, ◌<◌, ◌*◌, List, length, All, Ok, Some};
ghost use Rattle.jass_base.specs.Gaps.{AreDocs};
ghost use Rattle.lane_kernels.specs.Bitmap.{set_bits};
ghost use Rattle.plain_codecs.specs.Bitmap.{bitmap_size};
ghost use Rattle.segment_codecs.specs.Codecs.{chosen_codec, codec_number, codec_of, payload_of, payload_size, read_payload};
ghost use Rattle.segment_codecs.specs.declared.codec.Codec.{Codec};
ghost use Rattle.jass_base.specs.declared.limits.TheConstants.{MOST_DOCUMENTS};

use jass_base::laws::{gap_varints_are_read, gaps_of_docs};
use plain_codecs::{bitmap, varbyte};

/// The bytes that are read are the payloads.
pub fn payloads_are_read()
    ensures found { (codec : Codec) (d count : ℕ) (docs bytes : List ℕ) → AreDocs d docs
        → length docs ≡ count → bytes ≡ payload_of codec d docs
        → read_payload codec d count bytes ≡ Ok docs }
    ensures only { (codec : Codec) (d count : ℕ) (docs bytes : List ℕ) → 1 ≤ count → d ≤ MOST_DOCUMENTS
        → All (λ byte. byte < 256) bytes → read_payload codec d count bytes ≡ Ok docs
        → AreDocs d docs × (length docs ≡ count) × (bytes ≡ payload_of codec d docs) }
{
    varbyte::laws::payloads_are_read();
    codec_packed::laws::payloads_are_read();
    bitmap::laws::payloads_are_read();
    codec_simple8::laws::payloads_are_read();
}

/// The set bits of a bitmap are its documents, and it has a bit for each document of the index.
pub fn bitmaps_are_their_documents()
    ensures docs { (d : ℕ) (docs : List ℕ) → AreDocs d docs → set_bits 0 (payload_of Codec.Bitmap d docs) ≡ docs }
    ensures size { (d : ℕ) (docs : List ℕ) → length (payload_of Codec.Bitmap d docs) ≡ bitmap_size d }
{
    bitmap::laws::bits_are_documents();
}

/// A codec has its number and no other one.
pub fn codecs_have_their_numbers()
    ensures found { (codec : Codec) → codec_of (codec_number codec) ≡ Some codec }
    ensures only { (codec : Codec) (number : ℕ) → codec_of number ≡ Some codec → codec_number codec ≡ number }
{}

/// A payload has a byte or more, and the chosen one at most four for each document.
pub fn payloads_have_few_bytes()
    ensures some { (codec : Codec) (d : ℕ) (docs : List ℕ) → AreDocs d docs → 1 ≤ payload_size d docs codec }
    ensures few { (d : ℕ) (docs : List ℕ) → AreDocs d docs
        → payload_size d docs (chosen_codec d docs) ≤ 4 * length docs }
{
    the_choice_is_the_first_of_the_shortest();
    gap_varints_are_read();
    gaps_of_docs();
    bitmap::laws::bits_are_documents();
}

/// No codec has a shorter payload than the chosen one, and none with a lower number an equal one.
pub fn the_choice_is_the_first_of_the_shortest()
    ensures shortest { (d : ℕ) (docs : List ℕ) (codec : Codec)
        → payload_size d docs (chosen_codec d docs) ≤ payload_size d docs codec }
    ensures first { (d : ℕ) (docs : List ℕ) (codec : Codec)
        → codec_number codec < codec_number (chosen_codec d docs)
        → payload_size d docs (chosen_codec d docs) < payload_size d docs codec }
{}
