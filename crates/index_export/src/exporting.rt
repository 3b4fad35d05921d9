ghost use Rattle.std.specs.Prelude.{◌≡◌, ◌+◌, ◌≤◌, ◌<◌, ◌^◌, [], length, replicate, IfOk, OnOk, OnErr};
ghost use Rattle.jass_base.specs.CiffViews.{collection_data, header_data};
ghost use Rattle.index_layout.specs.View.{index_postings};
ghost use Rattle.index_export.specs.Exports.{export_of};

use crate::documents::records_of;
use crate::lists::{cf_sum, lists_of};
use index_file::IndexFile;
use jass_base::{Collection, Header, NoMemory, Steps, Text};
use std::alloc::Global;
use std::sync::ledger::Ledger;

/// The collection of an index: a list for each term, with the impact of each posting as its tf, and
/// the names of the documents, whose lengths are 0. Nothing but memory is refused.
pub fn export_collection<L: Ledger>(
    alloc: Global,
    index: &IndexFile,
    steps: &mut Steps<L>,
) -> Result<Collection, NoMemory>
    ensures collection { IfOk result (λ c. collection_data c ≡ export_of index.now.index) }
    ensures steps { OnOk result (steps.new ≡ steps.old + index_postings index.now.index) }
    ensures counted { OnErr result (steps.new ≤ steps.old + index_postings index.now.index) }
    ensures later { OnErr result (steps.old ≤ steps.new) }
{
    index.is_checked();
    let lists = lists_of(alloc, index, steps)?;
    let docs = records_of(alloc, index)?;
    let header = header_of(alloc, index, cf_sum(lists.as_slice()))?;
    Ok(Collection {
        header,
        lists,
        docs,
    })
}

/// The header of an index whose impacts have this sum.
fn header_of(alloc: Global, index: &IndexFile, total_terms: u64) -> Result<Header, NoMemory>
    requires { total_terms < 2 ^ 63 }
    ensures { IfOk result (λ header. header_data header ≡ record {
      version = 1;
      total_lists = length index.now.index.terms;
      total_docs = length index.now.index.names;
      total_terms = total_terms;
      average = replicate 8 0;
      description = [];
    }) }
{
    index.is_checked();
    let description = Text::from_str(alloc, "")?;
    Ok(Header {
        version: 1,
        total_lists: index.terms(),
        total_docs: index.docs(),
        total_terms,
        average: [0; 8],
        description,
    })
}
