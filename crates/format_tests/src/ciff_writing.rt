// Files of one term and three documents that are read and written again, a sink that fails,
// and postings at the ends of the ranges that are spelled in a way of their own.

use ciff_read::read_collection;
use ciff_write::write_collection;
use jass_base::{MemSink, Row};
use std::alloc::Global;
use std::process::Abort;

const FILE: [u8; 71] = [
    0x15, 0x08, 0x01, 0x10, 0x01, 0x18, 0x03, 0x20, 0x01, 0x28, 0x03, 0x30, 0x0f, 0x39, 0x00, 0x00,
    0x00, 0x00, 0x00, 0x00, 0x14, 0x40, 0x17, 0x0a, 0x01, 0x61, 0x10, 0x03, 0x18, 0x0f, 0x22, 0x02,
    0x10, 0x09, 0x22, 0x04, 0x08, 0x01, 0x10, 0x05, 0x22, 0x04, 0x08, 0x01, 0x10, 0x01, 0x06, 0x12,
    0x02, 0x64, 0x30, 0x18, 0x09, 0x08, 0x08, 0x01, 0x12, 0x02, 0x64, 0x31, 0x18, 0x05, 0x08, 0x08,
    0x02, 0x12, 0x02, 0x64, 0x32, 0x18, 0x01,
];

/// The same collection: df in a longer varint, the first record's fields in another order
/// and with one that is unknown.
const OTHER: [u8; 74] = [
    0x15, 0x08, 0x01, 0x10, 0x01, 0x18, 0x03, 0x20, 0x01, 0x28, 0x03, 0x30, 0x0f, 0x39, 0x00, 0x00,
    0x00, 0x00, 0x00, 0x00, 0x14, 0x40, 0x18, 0x0a, 0x01, 0x61, 0x10, 0x83, 0x00, 0x18, 0x0f, 0x22,
    0x02, 0x10, 0x09, 0x22, 0x04, 0x08, 0x01, 0x10, 0x05, 0x22, 0x04, 0x08, 0x01, 0x10, 0x01, 0x08,
    0x18, 0x09, 0x12, 0x02, 0x64, 0x30, 0x48, 0x05, 0x08, 0x08, 0x01, 0x12, 0x02, 0x64, 0x31, 0x18,
    0x05, 0x08, 0x08, 0x02, 0x12, 0x02, 0x64, 0x32, 0x18, 0x01,
];

/// The collection without an average length and lengths of documents.
const EXPORT: [u8; 56] = [
    0x0c, 0x08, 0x01, 0x10, 0x01, 0x18, 0x03, 0x20, 0x01, 0x28, 0x03, 0x30, 0x0f, 0x17, 0x0a, 0x01,
    0x61, 0x10, 0x03, 0x18, 0x0f, 0x22, 0x02, 0x10, 0x09, 0x22, 0x04, 0x08, 0x01, 0x10, 0x05, 0x22,
    0x04, 0x08, 0x01, 0x10, 0x01, 0x04, 0x12, 0x02, 0x64, 0x30, 0x06, 0x08, 0x01, 0x12, 0x02, 0x64,
    0x31, 0x06, 0x08, 0x02, 0x12, 0x02, 0x64, 0x32,
];

/// Whether the collection of one file is written as the other one.
fn is_written(rt: &impl Abort, alloc: Global, file: &[u8], canonical: &[u8]) -> bool {
    let collection = read_collection(alloc, file).expect(rt, "a collection");
    let mut sink = MemSink::new(alloc, Row::new(alloc));
    let written = write_collection(&collection, &mut sink).is_ok() && sink.written() == canonical;
    drop(sink);
    drop(collection);
    written
}

/// Whether the write of a collection fails where the first put does, with nothing put.
fn fails(rt: &impl Abort, alloc: Global, file: &[u8]) -> bool {
    let collection = read_collection(alloc, file).expect(rt, "a collection");
    let mut bad = Row::new(alloc);
    bad.extend(&[0]).expect(rt, "memory");
    let mut sink = MemSink::new(alloc, bad);
    let fails = write_collection(&collection, &mut sink).is_err() && sink.written().is_empty();
    drop(sink);
    drop(collection);
    fails
}

/// Files, each with what is written of it.
const FILES: [(&[u8], &[u8]); 4] = [
    (&FILE, &FILE),
    (&OTHER, &FILE),
    (&EXPORT, &EXPORT),
    (b"\x00", b"\x00"),
];

fn check_written(rt: &impl Abort, alloc: Global, files: &[(&[u8], &[u8])]) {
    for (file, canonical) in files {
        assert!(rt; is_written(rt, alloc, file, canonical));
    }
}

#[test]
fn collections_are_written(rt: HostRuntime) {
    check_written(&rt, rt.alloc(), &FILES);
    check_failed(&rt, rt.alloc());
}

fn check_failed(rt: &impl Abort, alloc: Global) {
    assert!(rt; fails(rt, alloc, &FILE));
}

/// A number as a varint of three bytes.
fn long(number: u32) -> [u8; 3] {
    let low = (number % 128 + 128) as u8;
    let middle = (number / 128 % 128 + 128) as u8;
    [low, middle, (number / 16_384 % 128) as u8]
}

/// A file with one posting, in the last of its documents.
fn file_of_one_posting(rt: &impl Abort, alloc: Global, doc: u32, tf: u32) -> Row<u8> {
    let mut bytes = Row::new(alloc);
    put_header(rt, &mut bytes, doc.saturating_add(1));
    put_list(rt, &mut bytes, doc, tf);
    put_documents(rt, &mut bytes, doc.saturating_add(1));
    bytes
}

/// The header of a file of one list and so many documents.
fn put_header(rt: &impl Abort, bytes: &mut Row<u8>, docs: u32) {
    bytes.extend(b"\x06\x10\x01\x18").expect(rt, "memory");
    bytes.extend(&long(docs)).expect(rt, "memory");
}

/// A list of one posting.
fn put_list(rt: &impl Abort, bytes: &mut Row<u8>, doc: u32, tf: u32) {
    bytes.extend(b"\x0a\x22\x08\x08").expect(rt, "memory");
    bytes.extend(&long(doc)).expect(rt, "memory");
    bytes.extend(b"\x10").expect(rt, "memory");
    bytes.extend(&long(tf)).expect(rt, "memory");
}

/// The records of so many documents.
fn put_documents(rt: &impl Abort, bytes: &mut Row<u8>, docs: u32) {
    for number in 0..docs {
        bytes.extend(b"\x07\x12\x01d\x08").expect(rt, "memory");
        bytes.extend(&long(number)).expect(rt, "memory");
    }
}

/// Whether the field of a posting is so spelled, and its bytes counted so, where it is the only one
/// of the only list.
fn is_spelled(rt: &impl Abort, alloc: Global, gap: u32, tf: u32, field: &[u8]) -> bool {
    let file = file_of_one_posting(rt, alloc, gap, tf);
    let collection = read_collection(alloc, file.as_slice()).expect(rt, "a collection");
    drop(file);
    let mut sink = MemSink::new(alloc, Row::new(alloc));
    let spelled = write_collection(&collection, &mut sink).is_ok()
        && begins_with(sink.written(), field);
    drop(sink);
    drop(collection);
    spelled
}

/// Whether the message behind the header begins with the field, and is counted so.
fn begins_with(bytes: &[u8], field: &[u8]) -> bool {
    let Some((header, messages)) = bytes.split_first() else {
        return false;
    };
    if usize::from(*header) > messages.len() {
        return false;
    }
    match messages[usize::from(*header)..].split_first() {
        Some((count, fields)) => usize::from(*count) == field.len() && fields.starts_with(field),
        None => false,
    }
}

/// Gaps and frequencies, each with the field of such a posting.
const FIELDS: [(u32, u32, &[u8]); 8] = [
    (0, 1, b"\x22\x02\x10\x01"),
    (1, 1, b"\x22\x04\x08\x01\x10\x01"),
    (127, 127, b"\x22\x04\x08\x7f\x10\x7f"),
    (127, 128, b"\x22\x05\x08\x7f\x10\x80\x01"),
    (128, 127, b"\x22\x05\x08\x80\x01\x10\x7f"),
    (16_383, 1, b"\x22\x05\x08\xff\x7f\x10\x01"),
    (16_384, 127, b"\x22\x06\x08\x80\x80\x01\x10\x7f"),
    (16_384, 128, b"\x22\x07\x08\x80\x80\x01\x10\x80\x01"),
];

fn check_fields(rt: &impl Abort, alloc: Global, fields: &[(u32, u32, &[u8])]) {
    for (gap, tf, field) in fields {
        assert!(rt; is_spelled(rt, alloc, *gap, *tf, field));
    }
}

#[test]
fn postings_are_spelled(rt: HostRuntime) {
    check_fields(&rt, rt.alloc(), &FIELDS);
}
