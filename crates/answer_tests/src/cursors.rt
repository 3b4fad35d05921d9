// The postings of a term by rising document: what a cursor shows first, and what it drops.

ghost use Rattle.std.specs.Prelude.{◌≡◌, ◌<◌};

use index_file::IndexFile;
use jass_base::{Row, Steps};
use max_score::TermCursor;
use std::alloc::Global;
use std::marker::Brand;
use std::process::Abort;
use std::sync::ledger::{Blank, Ledger};

/// Documents d0 to d2; `a`: (0,9), (1,5), (2,1).
const SPARSE: [u8; 103] = [
    0x4a, 0x41, 0x53, 0x53, 0x49, 0x44, 0x58, 0x32, 0x67, 0x00, 0x00, 0x00, 0x00, 0x00, 0x00, 0x00,
    0x03, 0x00, 0x00, 0x00, 0x01, 0x00, 0x00, 0x00, 0x03, 0x00, 0x00, 0x00, 0x00, 0x00, 0x00, 0x00,
    0x09, 0x00, 0x00, 0x00, 0x00, 0x00, 0x00, 0x00, 0x02, 0x00, 0x00, 0x00, 0x64, 0x30, 0x02, 0x00,
    0x00, 0x00, 0x64, 0x31, 0x02, 0x00, 0x00, 0x00, 0x64, 0x32, 0x00, 0x00, 0x01, 0x00, 0x61, 0x03,
    0x00, 0x00, 0x00, 0x09, 0x00, 0x01, 0x00, 0x00, 0x00, 0x00, 0x01, 0x00, 0x00, 0x00, 0x05, 0x00,
    0x01, 0x00, 0x00, 0x00, 0x00, 0x01, 0x00, 0x00, 0x00, 0x01, 0x00, 0x01, 0x00, 0x00, 0x00, 0x00,
    0x01, 0x00, 0x00, 0x00, 0x00, 0x01, 0x02,
];

/// Documents d0 to d2; `a`: (0,9), (2,9), in a bitmap.
const DENSE: [u8; 79] = [
    0x4a, 0x41, 0x53, 0x53, 0x49, 0x44, 0x58, 0x32, 0x4f, 0x00, 0x00, 0x00, 0x00, 0x00, 0x00, 0x00,
    0x03, 0x00, 0x00, 0x00, 0x01, 0x00, 0x00, 0x00, 0x02, 0x00, 0x00, 0x00, 0x00, 0x00, 0x00, 0x00,
    0x09, 0x00, 0x00, 0x00, 0x00, 0x00, 0x00, 0x00, 0x02, 0x00, 0x00, 0x00, 0x64, 0x30, 0x02, 0x00,
    0x00, 0x00, 0x64, 0x31, 0x02, 0x00, 0x00, 0x00, 0x64, 0x32, 0x00, 0x00, 0x01, 0x00, 0x61, 0x01,
    0x00, 0x00, 0x00, 0x09, 0x00, 0x02, 0x00, 0x00, 0x00, 0x02, 0x01, 0x00, 0x00, 0x00, 0x05,
];

/// Where a cursor is sent, and the document and the impact that it shows first then.
type Sent = (u32, Option<(u32, u16)>);

const SPARSE_HEADS: [Sent; 7] = [
    (0, Some((0, 9))),
    (1, Some((1, 5))),
    (1, Some((1, 5))),
    (0, Some((1, 5))),
    (2, Some((2, 1))),
    (3, None),
    (0, None),
];

const DENSE_HEADS: [Sent; 4] = [
    (0, Some((0, 9))),
    (1, Some((2, 9))),
    (4_294_967_295, None),
    (2, None),
];

/// The index of a file of these bytes.
fn index_of(rt: &impl Abort, alloc: Global, bytes: &[u8]) -> IndexFile {
    let mut row = Row::new(alloc);
    row.extend(bytes).expect(rt, "no memory");
    IndexFile::from_bytes(alloc, row).expect(rt, "refused")
}

/// A cursor that has read the term of a file.
fn started<L: Ledger>(rt: &impl Abort, alloc: Global, bytes: &[u8], blank: Blank) -> TermCursor
    requires name { blank.name ≡ L.name }
    requires parts { blank.parts ≡ L.parts }
    requires some { 0 < blank.parts }
{
    let file = index_of(rt, alloc, bytes);
    assert!(rt; file.terms() == 1);
    let mut cursor = TermCursor::new(alloc, &file, 0).expect(rt, "no memory");
    assert!(rt; cursor.head().is_none());
    let mut steps = Steps::<L>::new(blank);
    cursor.start(&file, &mut steps);
    cursor
}

/// The document and the impact that a cursor shows first.
fn shown(cursor: &TermCursor) -> Option<(u32, u16)> {
    match cursor.head() {
        Some(posting) => Some((posting.doc, posting.impact)),
        None => None,
    }
}

/// A cursor that is sent to these documents in turn shows these postings.
fn check_heads(rt: &impl Abort, alloc: Global, bytes: &[u8], heads: &[Sent]) {
    let mut cursor = started::<Brand>(rt, alloc, bytes, Blank::new(1));
    for (to, head) in heads {
        cursor.advance(*to);
        assert!(rt; shown(&cursor) == *head, "{to}");
    }
}

#[test]
fn a_cursor_shows_no_posting_twice(rt: HostRuntime) {
    check_heads(&rt, rt.alloc(), &SPARSE, &SPARSE_HEADS);
    check_heads(&rt, rt.alloc(), &DENSE, &DENSE_HEADS);
}
