ghost use Rattle.std.specs.Prelude.{◌≡◌, map, IfOk};
ghost use Rattle.weights.specs.Quantizing.{IsImpactWidth};
ghost use Rattle.jass_base.specs.declared.doc_record.DocRecord.{DocRecord};
ghost use Rattle.impact_segments.specs.Collections.{index_of};
ghost use Rattle.index_model.specs.Flat.{flat_of};
ghost use Rattle.index_model.specs.Views.{index_data};
ghost use Rattle.jass_base.specs.CiffViews.{collection_data};

use crate::listing::lists_by_term;
use crate::terms::{greatest_impact, terms_of};
use crate::weighing::Weigher;
use jass_base::{Collection, DocRecord, ImpactIndex, NoMemory, Row, Text};
use std::alloc::Global;
use weights::{Bits, Rule};

/// The impact-ordered index of a collection, with its terms by rising bytes. Terms without
/// postings are left out. With `Bits::Of(b)`, b from 1 to 16, the weights become impacts by
/// their place in the range of all weights of the collection (Anh, de Kretser and Moffat,
/// 2001). Nothing but memory is refused.
pub fn build(
    alloc: Global,
    collection: &Collection,
    rule: Rule,
    bits: Bits,
) -> Result<ImpactIndex, NoMemory>
    requires { IsImpactWidth bits }
    ensures flat { IfOk result (λ index.
        flat_of (index_data index) ≡ index_of (collection_data collection.now) rule bits) }
    ensures names { IfOk result (λ index. index.names ≡ map (λ (d : DocRecord). d.name) collection.now.docs) }
{
    let weigher = Weigher::new(alloc, rule, collection.docs.as_slice())?;
    let range = weigher.range_for(bits, collection.lists.as_slice());
    let lists = lists_by_term(alloc, collection.lists.as_slice())?;
    let terms = terms_of(alloc, &weigher, bits, range, &lists)?;
    let names = names_of(alloc, collection.docs.as_slice())?;
    Ok(ImpactIndex {
        names,
        greatest: greatest_impact(terms.as_slice()),
        terms,
    })
}

/// The names of the documents.
fn names_of(alloc: Global, docs: &[DocRecord]) -> Result<Row<Text>, NoMemory>
    ensures { IfOk result (λ names. names ≡ map (λ (d : DocRecord). d.name) docs.now) }
{
    let mut names = Row::new(alloc);
    for doc in docs {
        let name = Text::from_str(alloc, doc.name.as_str())?;
        names.push(name).map_err(|refused| refused.1)?;
    }
    Ok(names)
}
