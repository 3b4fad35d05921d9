// Texts that are longer than the room in which they are gathered go to a sink by pieces: where a put fails, so many bytes
// of them went.

use gathered_text::put_all;
use jass_base::{MemSink, Row};
use std::alloc::Global;
use std::process::Abort;

/// Puts a piece of this size behind a text, or of all the bytes, where there are fewer.
fn append_piece<'a>(rt: &impl Abort, text: &mut Vec<&'a [u8]>, bytes: &'a [u8], size: usize) {
    let piece = &bytes[..bytes.len().min(size)];
    text.extend_from_slice(&[piece]).expect(rt, "no memory");
}

/// A text of these sizes with so many pieces of 15,000 bytes behind them, each of them a front of the same bytes.
fn text_of<'a>(
    rt: &impl Abort,
    alloc: Global,
    bytes: &'a [u8],
    sizes: &[usize],
    pieces: u32,
) -> Vec<&'a [u8]> {
    let mut text = Vec::new(alloc);
    append_sizes(rt, &mut text, bytes, sizes);
    append_equal(rt, &mut text, bytes, pieces);
    text
}

/// Appends a piece of each of these sizes.
fn append_sizes<'a>(rt: &impl Abort, text: &mut Vec<&'a [u8]>, bytes: &'a [u8], sizes: &[usize]) {
    for size in sizes {
        append_piece(rt, text, bytes, *size);
    }
}

/// Appends so many pieces of 15,000 bytes.
fn append_equal<'a>(rt: &impl Abort, text: &mut Vec<&'a [u8]>, bytes: &'a [u8], pieces: u32) {
    for _ in 0..pieces {
        append_piece(rt, text, bytes, 15_000);
    }
}

/// How many bytes of a text go where the put with a number fails, and whether all of it does.
fn put(rt: &impl Abort, alloc: Global, text: &[&[u8]], bad_put: u64) -> (usize, bool) {
    let bad = Vec::from_slice(alloc, &[bad_put]).expect(rt, "no memory");
    let mut sink = MemSink::new(alloc, Row::from_vec(bad));
    let whole = put_all(&mut sink, text).is_ok();
    let count = sink.written().len();
    drop(sink);
    (count, whole)
}

/// How many bytes go of the text of these sizes and so many pieces where the put with a number fails, and whether all do.
fn put_text(
    rt: &impl Abort,
    alloc: Global,
    bytes: &[u8],
    sizes: &[usize],
    pieces: u32,
    bad_put: u64,
) -> (usize, bool) {
    let text = text_of(rt, alloc, bytes, sizes, pieces);
    let went = put(rt, alloc, text.as_slice(), bad_put);
    drop(text);
    went
}

/// The sizes and pieces of texts, the put that fails, how many bytes go, and whether all do. Behind a piece that finds no
/// room in one go, the next put ends at a multiple again.
const TEXTS: [(&[usize], u32, u64, usize, bool); 8] = [
    (&[], 20, 0, 0, false),
    (&[], 20, 1, 131_072, false),
    (&[], 20, 2, 262_144, false),
    (&[], 20, 3, 300_000, true),
    (&[45_000, 200_000], 12, 1, 45_000, false),
    (&[45_000, 200_000], 12, 2, 245_000, false),
    (&[45_000, 200_000], 12, 3, 262_144, false),
    (&[45_000, 200_000], 12, 4, 393_216, false),
];

/// So much goes of each text as stands beside it.
fn check_texts(
    rt: &impl Abort,
    alloc: Global,
    bytes: &[u8],
    texts: &[(&[usize], u32, u64, usize, bool)],
) {
    for (sizes, pieces, bad_put, count, whole) in texts {
        let (found, all) = put_text(rt, alloc, bytes, sizes, *pieces, *bad_put);
        assert!(rt; found == *count && all == *whole);
    }
}

/// The texts go as told, where their pieces are fronts of 200,000 bytes.
fn check_long(rt: &impl Abort, alloc: Global) {
    let bytes = vec![in alloc; b'x'; 200_000].expect(rt, "no memory");
    check_texts(rt, alloc, bytes.as_slice(), &TEXTS);
}

#[test]
fn long_texts_go_by_pieces(rt: HostRuntime) {
    check_long(&rt, rt.alloc());
}
