//! Exports of small indexes (`specs/Examples.antt`), by computation.

ghost use Rattle.std.specs.Prelude.{◌≡◌, ◌∷◌, []};
ghost use Rattle.jass_base.specs.CiffText.{canonical_ciff};
ghost use Rattle.index_model.specs.Examples.{one_term};
ghost use Rattle.index_export.specs.Examples.{crossing, posting, small_export};
ghost use Rattle.index_export.specs.Exports.{export_of, exported_list};

/// The index of three documents and one term, as a CIFF file of 56 bytes.
pub fn a_small_index_is_exported()
    ensures { canonical_ciff (export_of one_term) ≡ small_export }
{}

/// A term whose first segment has a document between those of its second.
pub fn lists_rise()
    ensures postings { (exported_list crossing).postings ≡ posting 0 1 ∷ posting 2 3 ∷ posting 5 1 ∷ [] }
    ensures df { (exported_list crossing).df ≡ 3 }
    ensures cf { (exported_list crossing).cf ≡ 5 }
{}
