//! A canonical file stands for its collection, and begins no other one.

ghost use Rattle.std.specs.Prelude.{ℕ, ◌≡◌, List, ◌++◌};
ghost use Rattle.jass_base.specs.declared.collection.Collection.{Collection};
ghost use Rattle.jass_base.specs.Ciff.{CollectionData, IsCiff};
ghost use Rattle.jass_base.specs.CiffText.{canonical_ciff};
ghost use Rattle.jass_base.specs.CiffViews.{collection_data};
ghost use Rattle.ciff_write.specs.Keeping.{KeepsLimits, IsWithinFile};

use ciff_read::laws::files_are_read;
use wire_fields::laws::fields_are_read;

/// The canonical file of a collection that keeps the limits stands for it, and is a
/// beginning of the canonical file of no other one.
pub fn canonical_files_stand()
    ensures stands { (c : CollectionData) → KeepsLimits c → IsCiff (canonical_ciff c) c }
    ensures alone { (c e : CollectionData) (rest : List ℕ) → KeepsLimits c → KeepsLimits e
        → canonical_ciff e ≡ canonical_ciff c ++ rest → c ≡ e }
{
    fields_are_read();
    files_are_read();
}

/// A collection that is written keeps the limits, up to those of the whole file.
pub fn collections_keep_limits()
    ensures { (c : Collection) → IsWithinFile c → KeepsLimits (collection_data c) }
{}
