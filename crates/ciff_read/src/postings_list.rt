ghost use Rattle.std.specs.Prelude.{ℕ, ◌≡◌, ◌+◌, ◌≤◌, false, List, length, map, [], ◌∷◌, ◌++◌, take, IfOk, IfErr};
ghost use Rattle.jass_base.specs.CiffViews.{list_data};
ghost use Rattle.jass_base.specs.Lists.{HasDocsBelow};
ghost use Rattle.wire_fields.specs.Places.{IsWithin};
ghost use Rattle.ciff_read.specs.Private.Finishing.{finished};
ghost use Rattle.ciff_read.specs.Private.Places.{message_in, ReadsList, GathersField};
ghost use Rattle.ciff_read.specs.Reading.{list_at};
ghost use Rattle.ciff_read.specs.Refusals.{Answers, Fails};
ghost use Rattle.ciff_read.specs.Seen.{is_seen};
ghost use Rattle.jass_base.specs.declared.limits.TheConstants.{LONGEST_TERM, MOST_DOCUMENTS, MOST_POSTINGS};

use crate::body::Body;
use crate::gathered::Gathered;
use crate::known_field::list_field;
use crate::list_fields::ListFields;
use crate::posting_fields::read_entry;
use crate::refusal::{CiffFault, CiffWhy, refused, refused_field};
use crate::terms::add_term;
use crate::text::text_of;
use crate::walked_list::WalkedList;
use indexmap::IndexSet;
use jass_base::limits::LONGEST_TERM;
use jass_base::{Posting, PostingsList};
use std::alloc::Global;
use wire_fields::{Field, Value};

/// The fewest bytes of a posting that has a gap.
const USUAL_BYTES: usize = 6;

/// Reads the postings list of the message at `at`, in a file of so many documents with so
/// many postings in the lists before, and adds its term to theirs. The postings get the memory of the spare vector.
pub fn read_list<'a>(
    alloc: Global,
    spare: &mut Vec<Posting>,
    bytes: &'a [u8],
    at: usize,
    body: Body,
    docs: u32,
    before: u64,
    terms: &mut IndexSet<&'a str>,
) -> Result<PostingsList, CiffFault>
    requires within { body.end ≤ length bytes.now }
    requires docs { docs ≤ MOST_DOCUMENTS }
    requires before { before ≤ MOST_POSTINGS }
    ensures new { IfOk result (λ list. is_seen list.term (map (λ t. t.now) terms.old.keys) ≡ false) }
    ensures terms { IfOk result (λ list. map (λ t. t.now) terms.new.keys
        ≡ map (λ t. t.now) terms.old.keys ++ list.term ∷ []) }
    ensures few { IfOk result (λ list. before + length list.postings ≤ MOST_POSTINGS) }
    ensures below { IfOk result (HasDocsBelow docs) }
    ensures exact { Answers list_data result
        (list_at docs before (map (λ t. t.now) terms.old.keys) at (message_in bytes.now body)) }
{
    let walked = walk_one(alloc, spare, bytes, at, body, docs, before)?;
    let is_new = match add_term(terms, walked.term) {
        Ok(is_new) => is_new,
        Err(_) => return Err(CiffFault::NoMemory),
    };
    match walked.finish(alloc, at, is_new) {
        Ok(list) => Ok(list),
        Err(fault) => Err(fault),
    }
}

/// Walks the list of the message at `at`, and judges its term by itself. Whether other lists
/// have the term is left to the caller. The postings get the memory of the spare vector.
pub fn walk_one<'a>(
    alloc: Global,
    spare: &mut Vec<Posting>,
    bytes: &'a [u8],
    at: usize,
    body: Body,
    docs: u32,
    before: u64,
) -> Result<WalkedList<'a>, CiffFault>
    requires within { body.end ≤ length bytes.now }
    requires docs { docs ≤ MOST_DOCUMENTS }
    requires before { before ≤ MOST_POSTINGS }
    ensures walked { IfOk result (λ list. (terms : List (List ℕ))
        → list_at docs before terms at (message_in bytes.now body) ≡ finished (is_seen list.term.now terms) at list) }
    ensures refused { IfErr result (λ fault. (terms : List (List ℕ))
        → Fails fault (list_at docs before terms at (message_in bytes.now body))) }
    ensures fits { IfOk result (λ list. length list.term.now ≤ LONGEST_TERM) }
    ensures docs { IfOk result (λ list. list.gathered.docs ≡ docs) }
    ensures before { IfOk result (λ list. list.gathered.before ≡ before) }
{
    let room = (body.end - body.from) / USUAL_BYTES;
    let room = room.min(docs as usize);
    let mut gathered = match Gathered::with_room(alloc, spare, docs, before, room) {
        Ok(gathered) => gathered,
        Err(_) => return Err(CiffFault::NoMemory),
    };
    let fields = match walk_list(alloc, bytes, body, &mut gathered) {
        Ok(fields) => fields,
        Err(fault) => return Err(fault),
    };
    let Some(term) = text_of(fields.term) else {
        return Err(refused(at, CiffWhy::Text));
    };
    if term.len() > LONGEST_TERM {
        return Err(refused(at, CiffWhy::Limit));
    }
    Ok(WalkedList {
        term,
        df: fields.df,
        cf: fields.cf,
        gathered,
    })
}

/// Walks the fields of a message's body, and gathers the postings.
fn walk_list<'a>(
    alloc: Global,
    bytes: &'a [u8],
    body: Body,
    gathered: &mut Gathered,
) -> Result<ListFields<'a>, CiffFault>
    requires { body.end ≤ length bytes.now }
    ensures read { ReadsList (take body.end bytes.now) body.from result gathered.old gathered.new }
    ensures docs { gathered.new.docs ≡ gathered.old.docs }
    ensures before { gathered.new.before ≡ gathered.old.before }
{
    let front = &bytes[..body.end];
    let mut fields = ListFields {
        term: b"",
        df: 0,
        cf: 0,
    };
    let mut at = body.from;
    'fields: loop {
        at = gathered.take_run(alloc, bytes, at, body.end);
        match list_field(front, at) {
            Ok(Some(field)) => {
                fields.term = field.bytes_or(1, front, fields.term);
                fields.df = field.number_or(2, fields.df);
                fields.cf = field.number_or(3, fields.cf);
                match gather(front, at, &field, gathered) {
                    Ok(()) => {}
                    Err(fault) => return Err(fault),
                }
                at = field.next;
            }
            Ok(None) => return Ok(fields),
            Err(fault) => return Err(refused_field(fault)),
        }
    }
}

/// Reads the posting of the field at `at`, where it is one.
fn gather(bytes: &[u8], at: usize, field: &Field, gathered: &mut Gathered) -> Result<(), CiffFault>
    requires value { IsWithin field.now.value field.now.next }
    requires within { field.now.next ≤ length bytes.now }
    ensures read { GathersField bytes.now at field.now result gathered.old gathered.new }
    ensures docs { gathered.new.docs ≡ gathered.old.docs }
    ensures before { gathered.new.before ≡ gathered.old.before }
{
    if field.number != 4 {
        return Ok(());
    }
    let Value::Bytes(first, after) = field.value else {
        return Ok(());
    };
    let entry = read_entry(&bytes[..after], first)?;
    match gathered.take(at, entry) {
        Ok(()) => Ok(()),
        Err(_) => Err(CiffFault::NoMemory),
    }
}
