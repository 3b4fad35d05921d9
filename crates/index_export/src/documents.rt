ghost use Rattle.std.specs.Prelude.{◌≡◌, length, map, IfOk};
ghost use Rattle.jass_base.specs.CiffViews.{doc_data};
ghost use Rattle.index_export.specs.Private.Gathering.{name_records};

use index_file::IndexFile;
use jass_base::{DocRecord, NoMemory, Row, Text};
use std::alloc::Global;

/// The records of the documents, each of length 0.
pub(crate) fn records_of(alloc: Global, index: &IndexFile) -> Result<Row<DocRecord>, NoMemory>
    ensures { IfOk result (λ docs. map doc_data docs ≡ name_records index.now.index.names) }
{
    index.is_checked();
    let mut docs = Row::new(alloc);
    for doc in 0..index.docs() {
        let name = Text::from_str(alloc, index.name(doc))?;
        docs.push(DocRecord { name, length: 0 })?;
    }
    Ok(docs)
}
