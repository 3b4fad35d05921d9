// Files that are exported: one of a term whose documents rise over its segments, and one of a term
// whose documents don't.

ghost use Rattle.std.specs.Prelude.{◌≡◌, ◌<◌};

use crate::index_reading::accepted;
use index_export::export_collection;
use index_file::IndexFile;
use jass_base::{Collection, Posting, Steps};
use std::alloc::Global;
use std::marker::Brand;
use std::process::Abort;
use std::sync::ledger::{Blank, Ledger};

/// Documents d0 to d2; `a`: (0,9), (1,5), (2,1).
const RISING: [u8; 103] = [
    0x4a, 0x41, 0x53, 0x53, 0x49, 0x44, 0x58, 0x32, 0x67, 0x00, 0x00, 0x00, 0x00, 0x00, 0x00, 0x00,
    0x03, 0x00, 0x00, 0x00, 0x01, 0x00, 0x00, 0x00, 0x03, 0x00, 0x00, 0x00, 0x00, 0x00, 0x00, 0x00,
    0x09, 0x00, 0x00, 0x00, 0x00, 0x00, 0x00, 0x00, 0x02, 0x00, 0x00, 0x00, 0x64, 0x30, 0x02, 0x00,
    0x00, 0x00, 0x64, 0x31, 0x02, 0x00, 0x00, 0x00, 0x64, 0x32, 0x00, 0x00, 0x01, 0x00, 0x61, 0x03,
    0x00, 0x00, 0x00, 0x09, 0x00, 0x01, 0x00, 0x00, 0x00, 0x00, 0x01, 0x00, 0x00, 0x00, 0x05, 0x00,
    0x01, 0x00, 0x00, 0x00, 0x00, 0x01, 0x00, 0x00, 0x00, 0x01, 0x00, 0x01, 0x00, 0x00, 0x00, 0x00,
    0x01, 0x00, 0x00, 0x00, 0x00, 0x01, 0x02,
];

/// Documents d0 to d5; `a`: impact 3 in document 2, and impact 1 in documents 0 and 5.
const CROSSING: [u8; 110] = [
    0x4a, 0x41, 0x53, 0x53, 0x49, 0x44, 0x58, 0x32, 0x6e, 0x00, 0x00, 0x00, 0x00, 0x00, 0x00, 0x00,
    0x06, 0x00, 0x00, 0x00, 0x01, 0x00, 0x00, 0x00, 0x03, 0x00, 0x00, 0x00, 0x00, 0x00, 0x00, 0x00,
    0x03, 0x00, 0x00, 0x00, 0x00, 0x00, 0x00, 0x00, 0x02, 0x00, 0x00, 0x00, 0x64, 0x30, 0x02, 0x00,
    0x00, 0x00, 0x64, 0x31, 0x02, 0x00, 0x00, 0x00, 0x64, 0x32, 0x02, 0x00, 0x00, 0x00, 0x64, 0x33,
    0x02, 0x00, 0x00, 0x00, 0x64, 0x34, 0x02, 0x00, 0x00, 0x00, 0x64, 0x35, 0x00, 0x00, 0x01, 0x00,
    0x61, 0x02, 0x00, 0x00, 0x00, 0x03, 0x00, 0x01, 0x00, 0x00, 0x00, 0x00, 0x01, 0x00, 0x00, 0x00,
    0x01, 0x00, 0x02, 0x00, 0x00, 0x00, 0x00, 0x02, 0x00, 0x00, 0x00, 0x02, 0x00, 0x04,
];

/// The collection of the index.
fn exported<L: Ledger>(alloc: Global, index: &IndexFile, blank: Blank) -> Option<Collection>
    requires name { blank.name ≡ L.name }
    requires parts { blank.parts ≡ L.parts }
    requires some { 0 < blank.parts }
{
    let mut steps = Steps::<L>::new(blank);
    export_collection(alloc, index, &mut steps).ok()
}

/// Whether the collection has one list, of `a`, with these postings.
fn has_list(collection: &Collection, postings: &[Posting], cf: u64) -> bool {
    match collection.lists.as_slice() {
        [list] => {
            list.term.as_str() == "a"
                && list.df == 3
                && list.cf == cf
                && list.postings.as_slice() == postings
        }
        _ => false,
    }
}

/// Whether the header counts one list, so many documents and terms.
fn has_header(collection: &Collection, docs: u32, terms: u64) -> bool {
    let header = &collection.header;
    header.total_lists == 1 && header.total_docs == docs && header.total_terms == terms
}

/// Whether the index is exported with so many documents and terms, and these postings.
fn exports<L: Ledger>(
    alloc: Global,
    index: &IndexFile,
    blank: Blank,
    docs: u32,
    terms: u64,
    postings: &[Posting],
) -> bool
    requires name { blank.name ≡ L.name }
    requires parts { blank.parts ≡ L.parts }
    requires some { 0 < blank.parts }
{
    match exported::<L>(alloc, index, blank) {
        Some(collection) => {
            let exports = has_list(&collection, postings, terms)
                && has_header(&collection, docs, terms)
                && collection.docs.len() == docs as usize;
            drop(collection);
            exports
        }
        None => false,
    }
}

/// The same of the index with these bytes.
fn is_exported(
    rt: &impl Abort,
    alloc: Global,
    bytes: &[u8],
    docs: u32,
    terms: u64,
    postings: &[Posting],
) -> bool {
    let index = accepted(rt, alloc, bytes);
    let exports = exports::<Brand>(alloc, &index, Blank::new(1), docs, terms, postings);
    drop(index);
    exports
}

const FALLING: [Posting; 3] = [
    Posting { doc: 0, tf: 9 },
    Posting { doc: 1, tf: 5 },
    Posting { doc: 2, tf: 1 },
];

const SORTED: [Posting; 3] = [
    Posting { doc: 0, tf: 1 },
    Posting { doc: 2, tf: 3 },
    Posting { doc: 5, tf: 1 },
];

#[test]
fn lists_are_exported_by_rising_document(rt: HostRuntime) {
    check_exported(&rt, rt.alloc());
}

fn check_exported(rt: &impl Abort, alloc: Global) {
    assert!(rt; is_exported(rt, alloc, &RISING, 3, 15, &FALLING));
    assert!(rt; is_exported(rt, alloc, &CROSSING, 6, 5, &SORTED));
}
