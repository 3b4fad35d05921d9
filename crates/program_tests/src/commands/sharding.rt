// Parts of a collection answered as one: rows, and cuts of a made collection.

use super::exhausting::drawn_queries;
use super::searching::{NOTHING, OLD};
use super::{Made, NONE, ONE_TERM, TWO_TERMS, cabinet_with, check_left, made_by, put, store};
use jass_base::{Collection, DocRecord, MemCabinet, PostingsList};
use std::alloc::Global;
use std::process::Abort;
use trial_data::make_with_draws;

/// Document d0; `a`: (0,9).
const FIRST_DOC: [u8; 41] = [
    0x15, 0x08, 0x01, 0x10, 0x01, 0x18, 0x01, 0x20, 0x01, 0x28, 0x01, 0x30, 0x09, 0x39, 0x00, 0x00,
    0x00, 0x00, 0x00, 0x00, 0x22, 0x40, 0x0b, 0x0a, 0x01, 0x61, 0x10, 0x01, 0x18, 0x09, 0x22, 0x02,
    0x10, 0x09, 0x06, 0x12, 0x02, 0x64, 0x30, 0x18, 0x09,
];

/// Documents d1 and d2; `a`: (0,5), (1,1).
const OTHER_DOCS: [u8; 56] = [
    0x15, 0x08, 0x01, 0x10, 0x01, 0x18, 0x02, 0x20, 0x01, 0x28, 0x02, 0x30, 0x06, 0x39, 0x00, 0x00,
    0x00, 0x00, 0x00, 0x00, 0x08, 0x40, 0x11, 0x0a, 0x01, 0x61, 0x10, 0x02, 0x18, 0x06, 0x22, 0x02,
    0x10, 0x05, 0x22, 0x04, 0x08, 0x01, 0x10, 0x01, 0x06, 0x12, 0x02, 0x64, 0x31, 0x18, 0x05, 0x08,
    0x08, 0x01, 0x12, 0x02, 0x64, 0x32, 0x18, 0x01,
];

/// No documents.
const NO_DOCS: [u8; 22] = [
    0x15, 0x08, 0x01, 0x10, 0x00, 0x18, 0x00, 0x20, 0x00, 0x28, 0x00, 0x30, 0x00, 0x39, 0x00, 0x00,
    0x00, 0x00, 0x00, 0x00, 0x00, 0x00,
];

/// Two parts, queries, words, the status, the output, the note, and what `run` holds then.
type Sharded<'a> = (
    &'a [u8],
    &'a [u8],
    &'a [u8],
    &'a str,
    u8,
    &'a [u8],
    &'a [u8],
    &'a [u8],
);

const SHARDED: [Sharded<'static>; 8] = [
    (
        &FIRST_DOC,
        &OTHER_DOCS,
        b"q a",
        "shards 2 first second queries run k=2 budget=2",
        0,
        b"q postings 2 segments 2 of 3 cutoff 5 next 1 bound 1 unknown 0 final\n",
        NOTHING,
        b"q Q0 d0 1 9 jass\nq Q0 d1 2 5 jass\n",
    ),
    (
        &ONE_TERM,
        &ONE_TERM,
        b"q a",
        "shards 2 first second queries run k=2 budget=3",
        0,
        b"q postings 2 segments 1 of 3 cutoff 9 next 5 bound 5 unknown 0 set\n",
        NOTHING,
        b"q Q0 d0 1 9 jass\nq Q0 d0 2 9 jass\n",
    ),
    (
        &NO_DOCS,
        &ONE_TERM,
        b"q a",
        "shards 2 first second queries run",
        0,
        b"q postings 3 segments 3 of 3 cutoff 1 next 0 bound 0 unknown 0 final\n",
        NOTHING,
        b"q Q0 d0 1 9 jass\nq Q0 d1 2 5 jass\nq Q0 d2 3 1 jass\n",
    ),
    (
        &TWO_TERMS,
        &ONE_TERM,
        b"q cat A z",
        "shards 2 first second queries run tag=t mode=folded",
        0,
        b"q postings 6 segments 5 of 5 cutoff 1 next 0 bound 0 unknown 1 final\n",
        NOTHING,
        b"q Q0 d0 1 9 t\nq Q0 d1 2 5 t\nq Q0 d0 3 3 t\nq Q0 d1 4 1 t\nq Q0 d3 5 1 t\nq Q0 d2 6 1 t\n",
    ),
    (
        &ONE_TERM,
        &ONE_TERM,
        b" q a",
        "shards 2 first second queries run",
        3,
        NOTHING,
        b"queries: refusal 51 at line 1\n",
        OLD,
    ),
    (
        &ONE_TERM,
        &ONE_TERM,
        b"q a",
        "shards 2 first ciff none run",
        3,
        NOTHING,
        b"ciff: refusal 40 at 0\n",
        OLD,
    ),
    (
        &ONE_TERM,
        &ONE_TERM,
        b"q a",
        "shards 2 first second none run",
        4,
        NOTHING,
        b"none: read fault\n",
        OLD,
    ),
    (
        &ONE_TERM,
        &ONE_TERM,
        b"q a",
        "shards 2 first first queries run",
        2,
        NOTHING,
        b"word 4\n",
        OLD,
    ),
];

/// Makes an index file of a collection by the words of an import from `ciff`.
fn import(rt: &impl Abort, alloc: Global, files: &mut MemCabinet, ciff: &[u8], words: &str) {
    store(rt, files, "ciff", ciff);
    let Made { left, content } = made_by(rt, alloc, words, files, NONE, "ciff");
    assert_eq!(rt; left.status, 0, "{words}");
    drop(content);
}

/// Each search over two parts ends so.
fn check_sharded(rt: &impl Abort, alloc: Global, searches: &[Sharded<'_>]) {
    for (first, second, queries, words, status, out, notes, run) in searches {
        let mut files = cabinet_with(rt, alloc, "run", OLD, &[], &[]);
        store(rt, &mut files, "queries", queries);
        import(rt, alloc, &mut files, first, "import ciff first");
        import(rt, alloc, &mut files, second, "import ciff second");
        let made = made_by(rt, alloc, words, &mut files, NONE, "run");
        check_left(rt, words, &made.left, *status, out, notes);
        assert!(rt; made.content.as_slice() == *run, "{words}");
    }
}

#[test]
fn two_parts_are_answered_as_one(rt: HostRuntime) {
    check_sharded(&rt, rt.alloc(), &SHARDED);
}

// ---- cuts

/// Puts a number below 2^28 as a varint.
fn put_varint(rt: &impl Abort, bytes: &mut Vec<u8>, number: u32) {
    let mut rest = number;
    for _ in 0..3u32 {
        if rest >= 128 {
            put(rt, bytes, &[(rest % 128) as u8 | 128]);
            rest /= 128;
        }
    }
    put(rt, bytes, &[u8::try_from(rest).expect(rt, "too large")]);
}

/// A number of things as a number of 32 bits.
fn counted(rt: &impl Abort, count: usize) -> u32 {
    u32::try_from(count).expect(rt, "too many")
}

/// Puts a field of a message, a number.
fn put_number(rt: &impl Abort, bytes: &mut Vec<u8>, tag: u8, number: u32) {
    put(rt, bytes, &[tag]);
    put_varint(rt, bytes, number);
}

/// Puts bytes behind their number.
fn put_counted(rt: &impl Abort, bytes: &mut Vec<u8>, behind: &[u8]) {
    put_varint(rt, bytes, counted(rt, behind.len()));
    put(rt, bytes, behind);
}

/// Puts the header of a CIFF file.
fn put_header(rt: &impl Abort, alloc: Global, bytes: &mut Vec<u8>, lists: u32, docs: u32) {
    let mut header = Vec::new(alloc);
    put_number(rt, &mut header, 0x08, 1);
    put_number(rt, &mut header, 0x10, lists);
    put_number(rt, &mut header, 0x18, docs);
    put_number(rt, &mut header, 0x20, lists);
    put_number(rt, &mut header, 0x28, docs);
    put_counted(rt, bytes, header.as_slice());
}

/// Puts a posting, by what its document lies behind the one before.
fn put_posting(rt: &impl Abort, alloc: Global, list: &mut Vec<u8>, gap: u32, tf: u32) {
    let mut posting = Vec::new(alloc);
    put_number(rt, &mut posting, 0x08, gap);
    put_number(rt, &mut posting, 0x10, tf);
    put(rt, list, &[0x22]);
    put_counted(rt, list, posting.as_slice());
}

/// Puts the postings of a list whose documents lie in a range.
fn put_list(
    rt: &impl Abort,
    alloc: Global,
    bytes: &mut Vec<u8>,
    list: &PostingsList,
    from: u32,
    to: u32,
) {
    let mut message = Vec::new(alloc);
    put(rt, &mut message, &[0x0a]);
    put_counted(rt, &mut message, list.term.as_str().as_bytes());
    let mut last = from;
    for posting in list.postings.as_slice() {
        if from <= posting.doc && posting.doc < to {
            put_posting(
                rt,
                alloc,
                &mut message,
                posting.doc.wrapping_sub(last),
                posting.tf,
            );
            last = posting.doc;
        }
    }
    put_counted(rt, bytes, message.as_slice());
}

/// Puts a document by its number in a part.
fn put_doc(rt: &impl Abort, alloc: Global, bytes: &mut Vec<u8>, number: u32, doc: &DocRecord) {
    let mut message = Vec::new(alloc);
    put_number(rt, &mut message, 0x08, number);
    put(rt, &mut message, &[0x12]);
    put_counted(rt, &mut message, doc.name.as_str().as_bytes());
    put_number(rt, &mut message, 0x18, doc.length);
    put_counted(rt, bytes, message.as_slice());
}

/// The CIFF file of the documents of a collection in a range.
fn part_of(rt: &impl Abort, alloc: Global, collection: &Collection, from: u32, to: u32) -> Vec<u8> {
    let mut bytes = Vec::new(alloc);
    let docs = collection.docs.as_slice();
    let docs = docs
        .get(from as usize..to as usize)
        .expect(rt, "no such documents");
    put_header(
        rt,
        alloc,
        &mut bytes,
        counted(rt, collection.lists.len()),
        counted(rt, docs.len()),
    );
    for list in collection.lists.as_slice() {
        put_list(rt, alloc, &mut bytes, list, from, to);
    }
    for (number, doc) in docs.iter().enumerate() {
        put_doc(rt, alloc, &mut bytes, counted(rt, number), doc);
    }
    bytes
}

/// A search over a collection cut behind some documents leaves what one over the whole leaves.
fn check_cut(rt: &impl Abort, alloc: Global, first: u32, second: u32) {
    let (collection, mut draws) = make_with_draws(alloc, 3, 400, 300).expect(rt, "no memory");
    let queries = drawn_queries(rt, alloc, &mut draws);
    let mut files = cabinet_with(rt, alloc, "queries", queries.as_slice(), &[], &[]);
    let parts = [
        ("import ciff a", 0, first),
        ("import ciff b", first, second),
        ("import ciff c", second, 400),
        ("import ciff whole", 0, 400),
    ];
    for (words, from, to) in &parts {
        let ciff = part_of(rt, alloc, &collection, *from, *to);
        import(rt, alloc, &mut files, ciff.as_slice(), words);
    }
    let whole = made_by(
        rt,
        alloc,
        "search whole queries run k=10 budget=40,all",
        &mut files,
        NONE,
        "run",
    );
    let cut = made_by(
        rt,
        alloc,
        "shards 3 a b c queries run k=10 budget=40,all",
        &mut files,
        NONE,
        "run",
    );
    assert_eq!(rt; whole.left.status, 0);
    check_left(
        rt,
        "shards",
        &cut.left,
        0,
        whole.left.out.written(),
        NOTHING,
    );
    assert!(rt; cut.content == whole.content);
    assert!(rt; cut.content.iter().filter(|byte| **byte == b'\n').count() > 300);
}

#[test]
fn a_cut_collection_is_answered_as_the_whole(rt: HostRuntime) {
    check_cut(&rt, rt.alloc(), 128, 301);
    check_cut(&rt, rt.alloc(), 0, 399);
    check_cut(&rt, rt.alloc(), 77, 77);
}
