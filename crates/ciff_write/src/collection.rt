ghost use Rattle.jass_base.specs.Outside.{Wrote};
ghost use Rattle.jass_base.specs.CiffText.{canonical_ciff};
ghost use Rattle.jass_base.specs.CiffViews.{collection_data};
ghost use Rattle.gathered_text.specs.Gathering.{Gathers};

use crate::document::put_docs;
use crate::header::put_header;
use crate::postings_list::put_lists;
use gathered_text::{Buffer, flush};
use jass_base::{Collection, Sink, WriteFault};

/// Puts the canonical CIFF file of a collection on the sink. After a WriteFault, which comes
/// only where the sink counted a fault, a prefix of the file was put. It takes no memory.
pub fn write_collection<S: Sink>(collection: &Collection, out: &mut S) -> Result<(), WriteFault>
    ensures { Wrote S.written S.faults S.rest out.old out.new (canonical_ciff (collection_data collection.now)) result }
{
    let mut buffer = Buffer::new();
    put_collection(out, &mut buffer, collection)?;
    flush(out, &mut buffer)
}

/// Puts the messages of a collection.
fn put_collection<S: Sink>(
    out: &mut S,
    buffer: &mut Buffer,
    collection: &Collection,
) -> Result<(), WriteFault>
    ensures { Gathers S.written S.faults S.rest out.old out.new buffer.old buffer.new
        (canonical_ciff (collection_data collection.now)) result }
{
    let lists = collection.lists.as_slice();
    let docs = collection.docs.as_slice();
    put_header(
        out,
        buffer,
        &collection.header,
        lists.len() as u64,
        docs.len() as u64,
    )?;
    put_lists(out, buffer, lists)?;
    put_docs(out, buffer, docs)
}
