// `rewrite` on small files and a large one.

use super::{Made, NONE, ONE_TERM, SLOPPY, TWO_TERMS, cabinet_with, check_left, made_by, put};
use std::alloc::Global;
use std::process::Abort;

/// Rewrites a file into another, and takes the content of that.
fn rewrite_file(rt: &impl Abort, alloc: Global, ciff: &[u8]) -> Made {
    let mut files = cabinet_with(rt, alloc, "b.ciff", ciff, &[], &[]);
    made_by(
        rt,
        alloc,
        "rewrite b.ciff c.ciff",
        &mut files,
        NONE,
        "c.ciff",
    )
}

/// A canonical file of 88 KB: 120 documents and 120 terms, which have 119 postings each.
fn large_file(rt: &impl Abort, alloc: Global) -> Vec<u8> {
    let mut bytes = Vec::new(alloc);
    put(
        rt,
        &mut bytes,
        &[12, 8, 1, 16, 120, 24, 120, 32, 120, 40, 120, 48, 1],
    );
    for number in 0..120u8 {
        add_list(rt, &mut bytes, number);
    }
    for number in 0..120u8 {
        add_document(rt, &mut bytes, number);
    }
    bytes
}

fn add_list(rt: &impl Abort, bytes: &mut Vec<u8>, number: u8) {
    let odd = number % 2;
    put(rt, bytes, &[210 + 2 * odd, 5, 10, 4, b't']);
    add_digits(rt, bytes, number);
    put(rt, bytes, &[16, 119, 24, 119]);
    if odd == 1 {
        put(rt, bytes, &[34, 4, 8, 1, 16, 1]);
    } else {
        put(rt, bytes, &[34, 2, 16, 1]);
    }
    for tf in 1..119u8 {
        put(rt, bytes, &[34, 4, 8, 1, 16, tf]);
    }
}

fn add_document(rt: &impl Abort, bytes: &mut Vec<u8>, number: u8) {
    if number == 0 {
        put(rt, bytes, &[8, 18, 4, b'd']);
    } else {
        put(rt, bytes, &[10, 8, number, 18, 4, b'd']);
    }
    add_digits(rt, bytes, number);
    put(rt, bytes, &[24, 119]);
}

/// The three digits of a number.
fn add_digits(rt: &impl Abort, bytes: &mut Vec<u8>, number: u8) {
    put(
        rt,
        bytes,
        &[
            b'0' + number / 100,
            b'0' + number / 10 % 10,
            b'0' + number % 10,
        ],
    );
}

/// A file is rewritten as this one.
fn check_rewritten(rt: &impl Abort, alloc: Global, ciff: &[u8], canonical: &[u8]) {
    let made = rewrite_file(rt, alloc, ciff);
    check_left(rt, "rewrite", &made.left, 0, b"", b"");
    assert!(rt; made.content.as_slice() == canonical);
}

#[test]
fn a_large_file_gives_itself(rt: HostRuntime) {
    let large = large_file(&rt, rt.alloc());
    check_rewritten(&rt, rt.alloc(), large.as_slice(), large.as_slice());
}

/// Files, each with its canonical spelling.
const FILES: [(&[u8], &[u8]); 4] = [
    (&SLOPPY, &ONE_TERM),
    (&ONE_TERM, &ONE_TERM),
    (&TWO_TERMS, &TWO_TERMS),
    (&[0], &[0]),
];

/// Each file is rewritten in its canonical spelling.
fn check_files(rt: &impl Abort, alloc: Global, files: &[(&[u8], &[u8])]) {
    for (ciff, canonical) in files {
        check_rewritten(rt, alloc, ciff, canonical);
    }
}

#[test]
fn files_are_rewritten(rt: HostRuntime) {
    check_files(&rt, rt.alloc(), &FILES);
}
