ghost use Rattle.std.specs.Prelude.{◌≡◌, ◌≤◌, Ok, [], length, drop, IfOk};
ghost use Rattle.jass_base.specs.Ciff.{CollectionData, IsCiff};
ghost use Rattle.jass_base.specs.CiffViews.{collection_data};
ghost use Rattle.ciff_read.specs.Counts.{posting_count};
ghost use Rattle.ciff_read.specs.Private.Lists.{AreLists};
ghost use Rattle.ciff_read.specs.Private.Places.{lists_in, docs_in};
ghost use Rattle.ciff_read.specs.Reading.{lists_at, all_docs_at, read_ciff};
ghost use Rattle.ciff_read.specs.Refusals.{Answers};
ghost use Rattle.jass_base.specs.declared.limits.TheConstants.{MOST_DOCUMENTS, MOST_POSTINGS};

use crate::document::read_document;
use crate::documents::Documents;
use crate::header::read_header;
use crate::laws::files_are_read;
use crate::message::read_length;
use crate::postings_list::read_list;
use crate::refusal::{CiffFault, CiffWhy, refused};
use indexmap::IndexSet;
use jass_base::{Collection, DocRecord, Posting, PostingsList, Row};
use std::alloc::Global;

/// Reads a whole CIFF file: the collection exactly where the bytes stand for one, else the
/// first refusal in the order of the format, with its place. Memory may be refused instead.
pub fn read_collection(alloc: Global, bytes: &[u8]) -> Result<Collection, CiffFault>
    ensures accepted { IfOk result (λ c. IsCiff bytes.now (collection_data c)) }
    ensures only { (c : CollectionData) → IsCiff bytes.now c → Answers collection_data result (Ok c) }
    ensures exact { Answers collection_data result (read_ciff bytes.now) }
    ensures few { IfOk result (λ c. posting_count c.lists ≤ MOST_POSTINGS) }
{
    files_are_read();
    read_messages(alloc, bytes)
}

/// Reads the messages of a file, one after the other.
fn read_messages(alloc: Global, bytes: &[u8]) -> Result<Collection, CiffFault>
    ensures exact { Answers collection_data result (read_ciff bytes.now) }
    ensures few { IfOk result (λ c. posting_count c.lists ≤ MOST_POSTINGS) }
{
    let body = read_length(bytes, 0)?;
    let head = read_header(alloc, bytes, 0, body)?;
    let (lists, at) = read_lists(alloc, bytes, body.end, head.lists, head.docs)?;
    let (docs, at) = read_documents(alloc, bytes, at, head.docs)?;
    if at < bytes.len() {
        return Err(refused(at, CiffWhy::Trailing));
    }
    Ok(Collection {
        header: head.header,
        lists,
        docs,
    })
}

/// Reads so many postings lists from a place on, and gives the place behind the last.
fn read_lists(
    alloc: Global,
    bytes: &[u8],
    from: usize,
    count: u32,
    docs: u32,
) -> Result<(Row<PostingsList>, usize), CiffFault>
    requires from { from ≤ length bytes.now }
    requires docs { docs ≤ MOST_DOCUMENTS }
    ensures exact { Answers (lists_in bytes.now) result (lists_at count docs 0 [] from (drop from bytes.now)) }
    ensures given { IfOk result (λ x. AreLists bytes.now count docs x.0 x.1) }
{
    let mut lists = Row::new(alloc);
    let mut terms: IndexSet<&str> = IndexSet::new(alloc);
    // The lists stay, so that none hands its memory back.
    let mut spare = Vec::new(alloc);
    match fill_lists(
        alloc, &mut spare, bytes, from, count, docs, &mut lists, &mut terms,
    ) {
        Ok(at) => Ok((lists, at)),
        Err(fault) => Err(fault),
    }
}

/// The same, into lists and terms of which there are none yet. It owns nothing but one list at a time.
fn fill_lists<'a>(
    alloc: Global,
    spare: &mut Vec<Posting>,
    bytes: &'a [u8],
    from: usize,
    count: u32,
    docs: u32,
    lists: &mut Row<PostingsList>,
    terms: &mut IndexSet<&'a str>,
) -> Result<usize, CiffFault>
    requires from { from ≤ length bytes.now }
    requires docs { docs ≤ MOST_DOCUMENTS }
    requires lists { lists.old ≡ [] }
    requires terms { terms.old.keys ≡ [] }
    ensures exact { Answers (λ at. lists_in bytes.now (lists.new, at)) result
        (lists_at count docs 0 [] from (drop from bytes.now)) }
    ensures given { IfOk result (AreLists bytes.now count docs lists.new) }
{
    let mut at = from;
    let mut before: u64 = 0;
    'lists: for _ in 0..count {
        let body = read_length(bytes, at)?;
        let list = read_list(alloc, spare, bytes, at, body, docs, before, terms)?;
        before += list.postings.len() as u64;
        at = body.end;
        match lists.push(list) {
            Ok(()) => {}
            Err(_) => return Err(CiffFault::NoMemory),
        }
    }
    Ok(at)
}

/// Reads so many documents' records from a place on, and gives the place behind the last.
fn read_documents(
    alloc: Global,
    bytes: &[u8],
    from: usize,
    count: u32,
) -> Result<(Row<DocRecord>, usize), CiffFault>
    requires { from ≤ length bytes.now }
    ensures exact { Answers (docs_in bytes.now) result (all_docs_at count from (drop from bytes.now)) }
    ensures within { IfOk result (λ x. x.1 ≤ length bytes.now) }
    ensures count { IfOk result (λ x. length x.0 ≡ count) }
{
    let mut documents = Documents::new(alloc);
    let mut at = from;
    'documents: for _ in 0..count {
        let body = read_length(bytes, at)?;
        read_document(alloc, bytes, at, body, count, &mut documents)?;
        at = body.end;
    }
    match documents.into_row(alloc) {
        Ok(docs) => Ok((docs, at)),
        Err(_) => Err(CiffFault::NoMemory),
    }
}
