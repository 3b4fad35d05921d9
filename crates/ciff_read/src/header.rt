ghost use Rattle.std.specs.Prelude.{◌≡◌, ◌≤◌, length, drop, Ok, Err, IfOk, MatchResult};
ghost use Rattle.jass_base.specs.Ciff.{FitsHeader};
ghost use Rattle.ciff_read.specs.Judging as judging;
ghost use Rattle.ciff_read.specs.Private.Places.{message_in, start_in, start_data};
ghost use Rattle.ciff_read.specs.Reading.{start_at, header_at};
ghost use Rattle.ciff_read.specs.Refusals.{Answers};

use crate::body::Body;
use crate::file_head::{FileHead, HeadFields};
use crate::refusal::{CiffFault, CiffWhy, refused, refused_field};
use crate::text::text_of;
use jass_base::limits::{MOST_DOCUMENTS, MOST_TERMS};
use jass_base::{Header, Text};
use std::alloc::Global;
use wire_fields::next_field;

/// Reads the header, which is the message at `at`.
pub fn read_header(
    alloc: Global,
    bytes: &[u8],
    at: usize,
    body: Body,
) -> Result<FileHead, CiffFault>
    requires { body.end ≤ length bytes.now }
    ensures { Answers start_data result (header_at at (message_in bytes.now body)) }
{
    let fields = match walk_header(&bytes[..body.end], body.from) {
        Ok(fields) => fields,
        Err(fault) => return Err(fault),
    };
    let description = match judge_header(&fields) {
        Ok(description) => description,
        Err(why) => return Err(refused(at, why)),
    };
    let Ok(description) = Text::from_str(alloc, description) else {
        return Err(CiffFault::NoMemory);
    };
    Ok(FileHead {
        header: Header {
            version: fields.version as u32,
            total_lists: fields.total_lists as u32,
            total_docs: fields.total_docs as u32,
            total_terms: fields.total_terms,
            average: fields.average,
            description,
        },
        lists: fields.lists as u32,
        docs: fields.docs as u32,
    })
}

/// The description, or why the header is refused.
fn judge_header<'a>(fields: &HeadFields<'a>) -> Result<&'a str, CiffWhy>
    ensures exact { MatchResult result (λ text. judging.judge_header (start_in fields.now) ≡ Ok (start_in fields.now))
        (λ why. judging.judge_header (start_in fields.now) ≡ Err why) }
    ensures text { IfOk result (λ text. text.now ≡ fields.now.description.now) }
    ensures fits { IfOk result (λ text. FitsHeader (start_in fields.now).header fields.now.lists fields.now.docs) }
{
    if fields.version >= 1 << 31
        || fields.lists >= 1 << 31
        || fields.docs >= 1 << 31
        || fields.total_lists >= 1 << 31
        || fields.total_docs >= 1 << 31
        || fields.total_terms >= 1 << 63
    {
        return Err(CiffWhy::Range);
    }
    let Some(description) = text_of(fields.description) else {
        return Err(CiffWhy::Text);
    };
    if fields.lists > u64::from(MOST_TERMS) || fields.docs > u64::from(MOST_DOCUMENTS) {
        return Err(CiffWhy::Limit);
    }
    Ok(description)
}

/// Walks the fields from a place to the end of the body. Of each field the last one counts.
fn walk_header(bytes: &[u8], from: usize) -> Result<HeadFields<'_>, CiffFault>
    requires { from ≤ length bytes.now }
    ensures { Answers start_in result (start_at from (drop from bytes.now)) }
{
    let mut fields = HeadFields {
        version: 0,
        lists: 0,
        docs: 0,
        total_lists: 0,
        total_docs: 0,
        total_terms: 0,
        average: [0; 8],
        description: b"",
    };
    let mut at = from;
    'fields: loop {
        match next_field(bytes, at) {
            Ok(Some(field)) => {
                fields.version = field.number_or(1, fields.version);
                fields.lists = field.number_or(2, fields.lists);
                fields.docs = field.number_or(3, fields.docs);
                fields.total_lists = field.number_or(4, fields.total_lists);
                fields.total_docs = field.number_or(5, fields.total_docs);
                fields.total_terms = field.number_or(6, fields.total_terms);
                fields.average = field.eight_or(7, bytes, fields.average);
                fields.description = field.bytes_or(8, bytes, fields.description);
                at = field.next;
            }
            Ok(None) => return Ok(fields),
            Err(fault) => return Err(refused_field(fault)),
        }
    }
}
