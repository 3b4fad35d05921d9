ghost use Rattle.std.specs.Prelude.{◌≡◌, ◌<◌, ◌≤◌, ◌^◌, length, map, All, IfOk};
ghost use Rattle.jass_base.specs.CiffViews.{doc_data};
ghost use Rattle.trial_data.specs.Private.Gathering.{records_from};
ghost use Rattle.jass_base.specs.declared.limits.TheConstants.{MOST_TRIAL};

use crate::names::put_name;
use jass_base::{DocRecord, NoMemory, Row, Text};
use std::alloc::Global;

/// The records of documents with these lengths.
pub(crate) fn records_of(alloc: Global, lengths: &[u32]) -> Result<Row<DocRecord>, NoMemory>
    requires few { length lengths.now ≤ MOST_TRIAL }
    requires small { All (λ n. n < 2 ^ 31) lengths.now }
    ensures { IfOk result (λ docs. map doc_data docs ≡ records_from 0 lengths.now) }
{
    let mut text = String::new(alloc);
    let mut docs = Row::new(alloc);
    for length in lengths {
        put_name(&mut text, "D", docs.len() as u32)?;
        let name = Text::from_str(alloc, text.as_str())?;
        docs.push(DocRecord {
            name,
            length: *length,
        })?;
    }
    Ok(docs)
}
