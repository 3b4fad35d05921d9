// Index files of more than 64 KiB, whose heads stand at the bounds of what an opened index holds in a word: what is
// read of them, and what is refused where a byte far behind the front is another.

ghost use Rattle.std.specs.Prelude.{◌≡◌, ◌<◌};

use crate::index_reading::answer_by_name;
use index_file::{Head, IndexFile, open};
use index_write::{Blocks, PayloadHead, SpelledNames, SpelledTerms, write_parts};
use jass_base::{MemCabinet, Row, Steps};
use segment_codecs::Codec;
use std::alloc::Global;
use std::marker::Brand;
use std::process::Abort;
use std::sync::ledger::{Blank, Ledger};

/// The heads of the term `a`, where a bitmap has so many bytes. A word has room for an impact below 1,024, for less than
/// 512 documents, and for less than 1,024 bytes.
fn heads(bitmap: u32) -> [PayloadHead; 6] {
    [
        head(65_535, 1, Codec::Varbyte, 2),
        head(1_024, 2, Codec::Varbyte, 3),
        head(1_023, 511, Codec::Bitmap, bitmap),
        head(1_022, 512, Codec::Varbyte, 513),
        head(7, 1_100, Codec::Varbyte, 1_101),
        head(1, 1, Codec::Varbyte, 2),
    ]
}

fn head(impact: u16, count: u32, codec: Codec, bytes: u32) -> PayloadHead {
    PayloadHead {
        count,
        bytes,
        impact,
        codec,
    }
}

/// The front of the bitmap of the documents from 0 to 510.
const BITS: [u8; 64] = [
    0xff, 0xff, 0xff, 0xff, 0xff, 0xff, 0xff, 0xff, 0xff, 0xff, 0xff, 0xff, 0xff, 0xff, 0xff, 0xff,
    0xff, 0xff, 0xff, 0xff, 0xff, 0xff, 0xff, 0xff, 0xff, 0xff, 0xff, 0xff, 0xff, 0xff, 0xff, 0xff,
    0xff, 0xff, 0xff, 0xff, 0xff, 0xff, 0xff, 0xff, 0xff, 0xff, 0xff, 0xff, 0xff, 0xff, 0xff, 0xff,
    0xff, 0xff, 0xff, 0xff, 0xff, 0xff, 0xff, 0xff, 0xff, 0xff, 0xff, 0xff, 0xff, 0xff, 0xff, 0x7f,
];

/// The front of a payload, behind which only zeros stand, and the first and the last of its documents. Those between
/// them are documents of it, too.
type Run<'a> = (&'a [u8], u32, u32);

/// The segments of these heads.
const RUNS: [Run<'static>; 6] = [
    (b"\xf7\x3f", 8_183, 8_183),
    (b"\xc0\x3e", 8_000, 8_001),
    (&BITS, 0, 510),
    (b"\xff\x03", 511, 1_022),
    (b"\xd0\x0f", 2_000, 3_099),
    (b"\xcf\x0f", 1_999, 1_999),
];

#[test]
fn heads_are_read_at_the_bounds_of_a_word(rt: HostRuntime) {
    check_heads(&rt, rt.alloc(), 8_184, 1_023);
    check_heads(&rt, rt.alloc(), 8_185, 1_024);
}

/// The heads and the documents of the file of so many documents, whose bitmap has so many bytes.
fn check_heads(rt: &impl Abort, alloc: Global, docs: u32, bitmap: u32) {
    let mut files = written(rt, alloc, docs, bitmap);
    let file = open(alloc, &mut files, "i").expect(rt, "a file");
    drop(files);
    let read = are_read(&file, bitmap);
    drop(file);
    assert!(rt; read);
}

/// A cabinet with the file of so many documents, by the name `i`.
fn written(rt: &impl Abort, alloc: Global, docs: u32, bitmap: u32) -> MemCabinet {
    let mut files = MemCabinet::new(alloc, Row::new(alloc), Row::new(alloc));
    put_file(rt, alloc, docs, bitmap, &mut files);
    files
}

fn put_file(rt: &impl Abort, alloc: Global, docs: u32, bitmap: u32, files: &mut MemCabinet) {
    let names = names(rt, alloc, docs);
    let terms = terms(rt, alloc, bitmap);
    let payloads = payloads(rt, alloc, bitmap);
    let written = write_parts(alloc, &names, &terms, &payloads, files, "i");
    drop(payloads);
    drop(terms);
    drop(names);
    written.expect(rt, "a file");
}

/// So many names.
fn names(rt: &impl Abort, alloc: Global, docs: u32) -> SpelledNames {
    let mut names = SpelledNames::with_room(alloc, 0);
    for _ in 0..docs {
        names.push("d00001").expect(rt, "memory");
    }
    names
}

/// The term with its heads.
fn terms(rt: &impl Abort, alloc: Global, bitmap: u32) -> SpelledTerms {
    let mut terms = SpelledTerms::new(alloc);
    terms.push("a", &heads(bitmap)).expect(rt, "memory");
    terms
}

/// The payloads of the term.
fn payloads(rt: &impl Abort, alloc: Global, bitmap: u32) -> Blocks {
    let heads = heads(bitmap);
    let mut bytes = Row::new(alloc);
    for i in 0..6 {
        put_payload(rt, &mut bytes, RUNS[i].0, heads[i].bytes);
    }
    let mut payloads = Blocks::new(alloc);
    payloads.push(bytes).expect(rt, "memory");
    payloads
}

/// Puts a payload of so many bytes.
fn put_payload(rt: &impl Abort, bytes: &mut Row<u8>, front: &[u8], size: u32) {
    bytes.extend(front).expect(rt, "memory");
    for _ in front.len()..size as usize {
        bytes.extend(&[0]).expect(rt, "memory");
    }
}

/// Whether the heads and the documents of a file are these.
fn are_read(file: &IndexFile, bitmap: u32) -> bool {
    have_runs::<Brand>(file, &heads(bitmap), Blank::new(1))
}

fn have_runs<L: Ledger>(file: &IndexFile, heads: &[PayloadHead; 6], blank: Blank) -> bool
    requires name { blank.name ≡ L.name }
    requires parts { blank.parts ≡ L.parts }
    requires some { 0 < blank.parts }
{
    let mut steps = Steps::<L>::new(blank);
    let mut all = file.segments(0) == 6;
    for i in 0..6 {
        let (_, first, last) = RUNS[i];
        all = all && is_read(file, i as u32, heads[i], (first, last), &mut steps);
    }
    drop(steps);
    all
}

/// Whether a segment has this impact, so many documents, and by its blocks this first and this last one. A block has a
/// document at least, and no segment has 2,000.
fn is_read<L: Ledger>(
    file: &IndexFile,
    s: u32,
    head: PayloadHead,
    wanted: (u32, u32),
    steps: &mut Steps<L>,
) -> bool {
    if file.terms() != 1 || s >= file.segments(0) {
        return false;
    }
    let Head { impact, count } = file.head(0, s);
    let mut cursor = file.cursor(0, s);
    let mut block = [0u32; 128];
    let mut ends = (u32::MAX, 0);
    'blocks: for _ in 0..2_000 {
        let given = file.next_block(&mut cursor, &mut block, steps);
        if given == 0 {
            return impact == head.impact && count == head.count && ends == wanted;
        }
        ends = (ends.0.min(block[0]), block[given - 1]);
    }
    false
}

/// A place, what stands from there on up to another place, and the answer for the file then.
type Far<'a> = (usize, &'a [u8], usize, (u32, u64));

/// The file as it is; with one byte more, and with one less; with a blank in the name of document 8,000; with no
/// document in the first segment; and with document 16,335 or 2,000 in the last one.
const FAR: [Far<'static>; 7] = [
    (84_599, b"", 84_599, (0, 8_184)),
    (84_599, b"\0", 84_599, (41, 8)),
    (84_598, b"", 84_599, (41, 8)),
    (80_044, b" ", 80_045, (42, 80_040)),
    (81_891, b"\0", 81_892, (44, 81_889)),
    (84_598, b"\x7f", 84_599, (33, 84_597)),
    (84_597, b"\xd0", 84_598, (46, 84_597)),
];

#[test]
fn bytes_far_behind_the_front_are_judged(rt: HostRuntime) {
    check_far(&rt, rt.alloc());
}

fn check_far(rt: &impl Abort, alloc: Global) {
    let files = written(rt, alloc, 8_184, 1_023);
    check_answers(rt, alloc, files.content("i").expect(rt, "a file"), &FAR);
    drop(files);
}

fn check_answers(rt: &impl Abort, alloc: Global, whole: &[u8], rows: &[Far<'_>]) {
    for (from, put, to, answer) in rows {
        assert!(rt; answers(rt, alloc, whole, *from, put, *to, *answer));
    }
}

/// Whether this is the answer for the bytes where others stand between two places.
fn answers(
    rt: &impl Abort,
    alloc: Global,
    whole: &[u8],
    from: usize,
    put: &[u8],
    to: usize,
    answer: (u32, u64),
) -> bool {
    if from > to || to > whole.len() {
        return false;
    }
    let mut bytes = Row::new(alloc);
    bytes.extend(&whole[..from]).expect(rt, "memory");
    bytes.extend(put).expect(rt, "memory");
    bytes.extend(&whole[to..]).expect(rt, "memory");
    let told = answer_by_name(rt, alloc, bytes.as_slice());
    drop(bytes);
    told == answer
}
