//! The law that ties an export to its index. The function does nothing: its contract is the law,
//! and a caller learns it by the call.

ghost use Rattle.std.specs.Prelude.{◌≡◌, map};
ghost use Rattle.jass_base.specs.Ciff.{DocData};
ghost use Rattle.weights.specs.declared.quantizing.Bits.TheVariants.{Raw};
ghost use Rattle.weights.specs.declared.weighting.Rule.TheVariants.{Tf};
ghost use Rattle.index_model.specs.Grouping.{index_with};
ghost use Rattle.index_model.specs.Index.{IndexData, IsIndex};
ghost use Rattle.impact_segments.specs.Collections.{index_of};
ghost use Rattle.index_export.specs.Exports.{export_of};

use index_model::laws::{an_index_is_that_of_its_flat_list, the_flat_list_is_flat};

/// The index of an export, by raw term frequencies, is the index that was exported.
pub fn an_export_keeps_the_index()
    ensures { (index : IndexData) → IsIndex index →
        index_with (map (λ (d : DocData). d.name) (export_of index).docs) (index_of (export_of index) Tf Raw) ≡ index }
{
    the_flat_list_is_flat();
    an_index_is_that_of_its_flat_list();
}
