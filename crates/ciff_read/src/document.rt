ghost use Rattle.std.specs.Prelude.{ℕ, ◌≡◌, ◌+◌, ◌<◌, ◌≤◌, List, length, drop, IfOk, IfErr, OnOk};
ghost use Rattle.ciff_read.specs.Judging.{is_among};
ghost use Rattle.ciff_read.specs.Private.Places.{message_in, numbered_in, records_of, AreMarked, PutsDoc};
ghost use Rattle.ciff_read.specs.Reading.{numbered_at, doc_at};
ghost use Rattle.ciff_read.specs.Private.Recording.{recorded};
ghost use Rattle.ciff_read.specs.Refusals.{Answers, Fails};

use crate::body::Body;
use crate::doc_fields::DocFields;
use crate::documents::Documents;
use crate::known_field::doc_field;
use crate::refusal::{CiffFault, CiffWhy, refused, refused_field};
use crate::walked_doc::WalkedDoc;
use std::alloc::Global;

/// Walks the fields from a place to the end of `bytes`.
fn walk_document(bytes: &[u8], from: usize) -> Result<DocFields<'_>, CiffFault>
    requires { from ≤ length bytes.now }
    ensures { Answers numbered_in result (numbered_at from (drop from bytes.now)) }
{
    let mut fields = DocFields {
        docid: 0,
        name: b"",
        length: 0,
    };
    let mut at = from;
    'fields: loop {
        match doc_field(bytes, at) {
            Ok(Some(field)) => {
                fields.docid = field.number_or(1, fields.docid);
                fields.name = field.bytes_or(2, bytes, fields.name);
                fields.length = field.number_or(3, fields.length);
                at = field.next;
            }
            Ok(None) => return Ok(fields),
            Err(fault) => return Err(refused_field(fault)),
        }
    }
}

/// Reads the record of the message at `at`, in a file of so many documents, and puts it to
/// those of the messages before.
pub fn read_document(
    alloc: Global,
    bytes: &[u8],
    at: usize,
    body: Body,
    docs: u32,
    documents: &mut Documents,
) -> Result<(), CiffFault>
    requires within { body.end ≤ length bytes.now }
    requires marked { AreMarked documents.old }
    ensures exact { PutsDoc bytes.now at body docs result documents.old documents.new }
    ensures marked { OnOk result (AreMarked documents.new) }
    ensures one { OnOk result (length (records_of documents.new) ≡ length (records_of documents.old) + 1) }
{
    let walked = match walk_doc(bytes, at, body, docs) {
        Ok(walked) => walked,
        Err(fault) => return Err(fault),
    };
    let is_new = !documents.has(walked.number);
    let record = match walked.finish(alloc, at, is_new) {
        Ok(record) => record,
        Err(fault) => return Err(fault),
    };
    match documents.put(walked.number, record) {
        Ok(()) => Ok(()),
        Err(_) => Err(CiffFault::NoMemory),
    }
}

/// Walks the record of the message at `at`, and judges its number by itself. Whether another
/// record has the number is left to the caller.
pub fn walk_doc<'a>(
    bytes: &'a [u8],
    at: usize,
    body: Body,
    docs: u32,
) -> Result<WalkedDoc<'a>, CiffFault>
    requires { body.end ≤ length bytes.now }
    ensures walked { IfOk result (λ doc. (numbers : List ℕ)
        → doc_at docs numbers at (message_in bytes.now body) ≡ recorded (is_among doc.number numbers) at doc) }
    ensures refused { IfErr result (λ fault. (numbers : List ℕ)
        → Fails fault (doc_at docs numbers at (message_in bytes.now body))) }
    ensures number { IfOk result (λ doc. doc.number ≡ doc.fields.docid) }
    ensures below { IfOk result (λ doc. doc.number < docs) }
{
    let fields = match walk_document(&bytes[..body.end], body.from) {
        Ok(fields) => fields,
        Err(fault) => return Err(fault),
    };
    if fields.docid >= 1 << 31 {
        return Err(refused(at, CiffWhy::Range));
    }
    if fields.docid >= u64::from(docs) {
        return Err(refused(at, CiffWhy::DocRange));
    }
    Ok(WalkedDoc {
        number: fields.docid as u32,
        fields,
    })
}
