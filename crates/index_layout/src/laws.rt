//! What reading and writing promise of one another. Each function does nothing: its contract is the
//! law, and a caller learns it by the call.

ghost use Rattle.std.specs.Prelude.{ℕ, ◌≡◌, ◌<◌, ◌≤◌, List, length, All, Ok};
ghost use Rattle.index_model.specs.Index.{IndexData, IsIndex};
ghost use Rattle.index_layout.specs.Layout.{file_length};
ghost use Rattle.index_layout.specs.Reading.{read_index};
ghost use Rattle.index_layout.specs.View.{FileView, IsFileView, chosen_view, file_bytes, index_postings, index_text, view_heads};
ghost use Rattle.jass_base.specs.declared.limits.TheConstants.{LONGEST_FILE, MOST_POSTINGS};

use segment_codecs::laws::{codecs_have_their_numbers, payloads_are_read};

/// The bytes of a view are read as that view, and bytes that are read are the bytes of their view,
/// so that a view has one file.
pub fn files_are_read()
    ensures found { (v : FileView) → IsFileView v → read_index (file_bytes v) ≡ Ok v }
    ensures only { (v : FileView) (bytes : List ℕ) → All (λ byte. byte < 256) bytes
        → read_index bytes ≡ Ok v → (bytes ≡ file_bytes v) × IsFileView v }
{
    payloads_are_read();
    codecs_have_their_numbers();
}

/// A file has one view: its bytes determine the index, and the codec of each segment.
pub fn files_have_one_view()
    ensures { (v w : FileView) → IsFileView v → IsFileView w → file_bytes v ≡ file_bytes w → v ≡ w }
{
    files_are_read();
}

/// The text of an index of at most 2^29 postings is a file where it has at most 2^32 bytes.
pub fn texts_are_files()
    ensures { (index : IndexData) → IsIndex index → index_postings index ≤ MOST_POSTINGS
        → length (index_text index) ≤ LONGEST_FILE → IsFileView (chosen_view index) }
{}

/// How many bytes a file has, by its names and heads alone.
pub fn lengths_are_known()
    ensures { (v : FileView) → length (file_bytes v) ≡ file_length v.index.names (view_heads v) }
{}
