ghost use Rattle.std.specs.Prelude.{◌≡◌, length, map};
ghost use Rattle.jass_base.specs.CiffText.{sized, doc_body, docs_spelling};
ghost use Rattle.jass_base.specs.CiffViews.{doc_data};
ghost use Rattle.gathered_text.specs.Gathering.{Gathers};

use crate::gather::{put_number, put_size, put_text};
use crate::lengths::{number_len, text_len};
use gathered_text::Buffer;
use jass_base::{DocRecord, Sink, WriteFault};

const NUMBER: u8 = 1;

const NAME: u8 = 2;

const LENGTH: u8 = 3;

/// Puts the records of all documents by rising number.
pub fn put_docs<S: Sink>(
    out: &mut S,
    buffer: &mut Buffer,
    docs: &[DocRecord],
) -> Result<(), WriteFault>
    ensures { Gathers S.written S.faults S.rest out.old out.new buffer.old buffer.new
        (docs_spelling 0 (map doc_data docs.now)) result }
{
    let mut number: u64 = 0;
    for doc in docs {
        put_doc(out, buffer, number, doc)?;
        number += 1;
    }
    Ok(())
}

/// Puts the record of the document of a number.
fn put_doc<S: Sink>(
    out: &mut S,
    buffer: &mut Buffer,
    number: u64,
    doc: &DocRecord,
) -> Result<(), WriteFault>
    ensures { Gathers S.written S.faults S.rest out.old out.new buffer.old buffer.new
        (sized (doc_body number (doc_data doc.now))) result }
{
    put_size(out, buffer, doc_len(number, doc))?;
    put_number(out, buffer, NUMBER, number)?;
    put_text(out, buffer, NAME, doc.name.as_str())?;
    put_number(out, buffer, LENGTH, u64::from(doc.length))
}

/// The bytes of the body of a document's record.
fn doc_len(number: u64, doc: &DocRecord) -> u64
    ensures { result ≡ length (doc_body number (doc_data doc.now)) }
{
    let numbers = number_len(number) + number_len(u64::from(doc.length));
    text_len(doc.name.as_str()) + u64::from(numbers)
}
