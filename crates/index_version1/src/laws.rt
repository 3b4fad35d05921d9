//! What the reading of version 1 promises. Each function does nothing: its contract is the law, and
//! a caller learns it by the call.

ghost use Rattle.std.specs.Prelude.{ℕ, ◌≡◌, ◌<◌, ◌+◌, List, All, Ok, take};
ghost use Rattle.index_model.specs.Index.{IndexData};
ghost use Rattle.index_layout.specs.View.{FileView};
ghost use Rattle.index_version1.specs.Files.{IsFile1View, IsIndexFile1, file1_bytes};
ghost use Rattle.index_version1.specs.Reading.{read_file1, read_index1};
ghost use Rattle.jass_base.specs.declared.limits.TheConstants.{LONGEST_FILE};

use segment_codecs::laws::{codecs_have_their_numbers, payloads_are_read};

/// The bytes of a view are read as that view, and bytes that are read are the bytes of their view.
pub fn old_files_are_read()
    ensures found { (v : FileView) → IsFile1View v → read_file1 (file1_bytes v) ≡ Ok v }
    ensures only { (v : FileView) (bytes : List ℕ) → All (λ byte. byte < 256) bytes
        → read_file1 bytes ≡ Ok v → (bytes ≡ file1_bytes v) × IsFile1View v }
{
    payloads_are_read();
    codecs_have_their_numbers();
}

/// Bytes are read as an index exactly where they are its file, so that they have one index.
pub fn indexes_are_read()
    ensures found { (index : IndexData) (bytes : List ℕ) → IsIndexFile1 bytes index → read_index1 bytes ≡ Ok index }
    ensures only { (index : IndexData) (bytes : List ℕ) → All (λ byte. byte < 256) bytes
        → read_index1 bytes ≡ Ok index → IsIndexFile1 bytes index }
{
    old_files_are_read();
}

/// The first 2^32 + 1 bytes decide: a longer file is refused whatever else stands in it.
pub fn the_front_is_enough()
    ensures { (bytes : List ℕ) → read_index1 (take (LONGEST_FILE + 1) bytes) ≡ read_index1 bytes }
{}
