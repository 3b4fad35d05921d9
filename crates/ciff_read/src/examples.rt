//! The definitions on a file of one term and three documents.

ghost use Rattle.std.specs.Prelude.{◌≡◌};
ghost use Rattle.jass_base.specs.Ciff.{IsCiff};
ghost use Rattle.jass_base.specs.CiffText.{canonical_ciff};
ghost use Rattle.ciff_read.specs.Examples.{small_file, small_collection};

use crate::laws::files_are_read;

/// The file stands for the collection, and is its canonical spelling.
pub fn small_file_stands()
    ensures stands { IsCiff small_file small_collection }
    ensures canonical { canonical_ciff small_collection ≡ small_file }
{
    files_are_read();
}
