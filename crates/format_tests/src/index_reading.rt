// The file of three documents and one term: what is seen of it, what is refused where a byte of it
// is changed, and where it is refused when it is cut.

ghost use Rattle.std.specs.Prelude.{◌≡◌, ◌<◌};

use index_check::check_file;
use index_file::{CodecUse, IndexFile, Piece, Source, open};
use index_layout::{OpenFault, OpenWhy};
use jass_base::{Lexicon, MemCabinet, Names, Row, Steps, Totals};
use std::alloc::Global;
use std::marker::Brand;
use std::process::Abort;
use std::sync::ledger::{Blank, Ledger};

/// Documents d0 to d2; `a`: (0,9), (1,5), (2,1).
const FILE: [u8; 103] = [
    0x4a, 0x41, 0x53, 0x53, 0x49, 0x44, 0x58, 0x32, 0x67, 0x00, 0x00, 0x00, 0x00, 0x00, 0x00, 0x00,
    0x03, 0x00, 0x00, 0x00, 0x01, 0x00, 0x00, 0x00, 0x03, 0x00, 0x00, 0x00, 0x00, 0x00, 0x00, 0x00,
    0x09, 0x00, 0x00, 0x00, 0x00, 0x00, 0x00, 0x00, 0x02, 0x00, 0x00, 0x00, 0x64, 0x30, 0x02, 0x00,
    0x00, 0x00, 0x64, 0x31, 0x02, 0x00, 0x00, 0x00, 0x64, 0x32, 0x00, 0x00, 0x01, 0x00, 0x61, 0x03,
    0x00, 0x00, 0x00, 0x09, 0x00, 0x01, 0x00, 0x00, 0x00, 0x00, 0x01, 0x00, 0x00, 0x00, 0x05, 0x00,
    0x01, 0x00, 0x00, 0x00, 0x00, 0x01, 0x00, 0x00, 0x00, 0x01, 0x00, 0x01, 0x00, 0x00, 0x00, 0x00,
    0x01, 0x00, 0x00, 0x00, 0x00, 0x01, 0x02,
];

/// The file with one byte changed.
fn changed(place: usize, byte: u8) -> [u8; 103]
    requires { place < 103 }
{
    let mut bytes = FILE;
    bytes[place] = byte;
    bytes
}

/// The bytes as a file, or why they are none.
fn opened(rt: &impl Abort, alloc: Global, bytes: &[u8]) -> Result<IndexFile, OpenFault> {
    let mut row = Row::new(alloc);
    row.extend(bytes).expect(rt, "memory");
    IndexFile::from_bytes(alloc, row)
}

/// The file of bytes that are accepted.
pub(crate) fn accepted(rt: &impl Abort, alloc: Global, bytes: &[u8]) -> IndexFile {
    opened(rt, alloc, bytes).expect(rt, "a file")
}

/// The refusal's number and place; 0 at the number of documents for a file that is accepted.
fn answer(opened: Result<IndexFile, OpenFault>) -> (u32, u64) {
    match opened {
        Ok(file) => {
            let docs = u64::from(file.totals().docs);
            drop(file);
            (0, docs)
        }
        Err(fault) => told(fault),
    }
}

/// The number and place of a refusal.
fn told(fault: OpenFault) -> (u32, u64) {
    match fault {
        OpenFault::Refused(refusal) => (refusal.why.number(), refusal.at),
        OpenFault::ReadFault => (1, 0),
        OpenFault::NoMemory => (2, 0),
    }
}

/// In place of the weight of a segment whose two readings differ: more than the weight of the whole file.
const UNLIKE: u32 = 1_000;

/// The sum over all segments of impact times the first document and one, each read in both ways.
fn weighed<L: Ledger>(file: &IndexFile, blank: Blank) -> u32
    requires name { blank.name ≡ L.name }
    requires parts { blank.parts ≡ L.parts }
    requires some { 0 < blank.parts }
{
    let mut steps = Steps::<L>::new(blank);
    let sum = weight_of_terms(file, &mut steps);
    drop(steps);
    sum
}

/// The same with a fresh ledger.
fn weight(file: &IndexFile) -> u32 {
    weighed::<Brand>(file, Blank::new(1))
}

fn weight_of_terms<L: Ledger>(file: &IndexFile, steps: &mut Steps<L>) -> u32 {
    let mut sum = 0u32;
    for t in 0..file.terms() {
        sum = sum.wrapping_add(weight_of_term(file, t, steps));
    }
    sum
}

fn weight_of_term<L: Ledger>(file: &IndexFile, t: u32, steps: &mut Steps<L>) -> u32 {
    let mut sum = 0u32;
    for s in 0..file.segments(t) {
        sum = sum.wrapping_add(weight_of_segment(file, t, s, steps));
    }
    sum
}

fn weight_of_segment<L: Ledger>(file: &IndexFile, t: u32, s: u32, steps: &mut Steps<L>) -> u32 {
    if t >= file.terms() || s >= file.segments(t) {
        return UNLIKE;
    }
    let head = file.head(t, s);
    if head.count != 1 {
        return UNLIKE;
    }
    let first = file.first_doc(t, s, steps);
    if first_of_block(file, t, s, steps) != first {
        return UNLIKE;
    }
    u32::from(head.impact).wrapping_mul(first.wrapping_add(1))
}

/// The document of a segment, as its only block gives it; the greatest number where that has others.
fn first_of_block<L: Ledger>(file: &IndexFile, t: u32, s: u32, steps: &mut Steps<L>) -> u32 {
    if t >= file.terms() || s >= file.segments(t) {
        return u32::MAX;
    }
    let mut cursor = file.cursor(t, s);
    let mut block = [0u32; 128];
    match file.next_block(&mut cursor, &mut block, steps) {
        1 => block[0],
        _ => u32::MAX,
    }
}

const TOTALS: Totals = Totals {
    docs: 3,
    terms: 1,
    postings: 3,
    greatest: 9,
};

const CODECS: CodecUse = CodecUse {
    varbyte: 3,
    packed: 0,
    bitmap: 0,
    simple8: 0,
};

/// Terms, each with the number by which it is found.
const FOUND: [(&[u8], Option<u32>); 3] = [(b"a", Some(0)), (b"b", None), (b"", None)];

fn check_found(rt: &impl Abort, file: &IndexFile, rows: &[(&[u8], Option<u32>)]) {
    for (term, number) in rows {
        assert!(rt; is_found(file, term, *number));
    }
}

fn is_found(file: &IndexFile, term: &[u8], number: Option<u32>) -> bool {
    file.find(term) == number
}

fn has_term(file: &IndexFile) -> bool {
    file.terms() == 1 && file.term(0) == "a"
}

fn has_names(file: &IndexFile) -> bool {
    Names::docs(file) == 3 && Names::name(file, 2) == "d2"
}

fn check_seen(rt: &impl Abort, alloc: Global) {
    let file = accepted(rt, alloc, &FILE);
    assert!(rt; is_seen(&file));
    check_found(rt, &file, &FOUND);
    drop(file);
}

fn is_seen(file: &IndexFile) -> bool {
    file.totals() == TOTALS
        && file.codecs() == CODECS
        && weight(file) == 22
        && has_term(file)
        && has_names(file)
}

#[test]
fn a_file_is_seen(rt: HostRuntime) {
    check_seen(&rt, rt.alloc());
}

/// The segments of the term, each with its bits: the first alone is a bitmap.
const BITS: [(u32, Option<&[u8]>); 3] = [(0, Some(&[1])), (1, None), (2, None)];

/// The file, where the first segment of the term is a bitmap.
fn with_bitmap() -> [u8; 103] {
    let mut bytes = changed(73, 2);
    bytes[100] = 1;
    bytes
}

fn check_bitmap(rt: &impl Abort, alloc: Global) {
    let file = accepted(rt, alloc, &with_bitmap());
    assert!(rt; file.codecs().bitmap == 1);
    check_bits(rt, &file, &BITS);
    drop(file);
}

fn check_bits(rt: &impl Abort, file: &IndexFile, rows: &[(u32, Option<&[u8]>)]) {
    for (segment, bits) in rows {
        assert!(rt; has_bits(file, *segment, *bits));
    }
}

/// Whether a segment is handed out in these bits, or in a block where there are none.
fn has_bits(file: &IndexFile, segment: u32, bits: Option<&[u8]>) -> bool {
    gives_bits::<Brand>(file, segment, bits, Blank::new(1))
}

fn gives_bits<L: Ledger>(file: &IndexFile, segment: u32, bits: Option<&[u8]>, blank: Blank) -> bool
    requires name { blank.name ≡ L.name }
    requires parts { blank.parts ≡ L.parts }
    requires some { 0 < blank.parts }
{
    let mut steps = Steps::<L>::new(blank);
    let is = hands_out(file, segment, bits, &mut steps);
    drop(steps);
    is
}

fn hands_out<L: Ledger>(
    file: &IndexFile,
    segment: u32,
    bits: Option<&[u8]>,
    steps: &mut Steps<L>,
) -> bool {
    if file.terms() != 1 || file.segments(0) != 3 || segment >= 3 {
        return false;
    }
    let mut cursor = file.start(0, segment);
    let mut block = [0u32; 128];
    match file.hand_out(&mut cursor, &mut block, steps) {
        Piece::Bits {
            row,
            bits: given,
            count,
        } => row == 0 && count == 1 && bits == Some(given),
        Piece::Block { count } => count == 1 && bits.is_none(),
    }
}

#[test]
fn bits_are_given_of_a_bitmap_alone(rt: HostRuntime) {
    check_bitmap(&rt, rt.alloc());
}

/// A place and its new byte, and the answer for the file then.
const CHANGED: [(usize, u8, u32, u64); 5] = [
    (102, 3, 33, 102),
    (102, 0, 46, 102),
    (0, 0x4b, 40, 0),
    (7, 0x31, 39, 0),
    (102, 2, 0, 3),
];

fn check_changed(rt: &impl Abort, alloc: Global, rows: &[(usize, u8, u32, u64)]) {
    for (place, byte, number, at) in rows {
        assert!(rt; answers_changed(rt, alloc, *place, *byte, *number, *at));
    }
}

/// Whether this is the answer for the file with one byte changed.
fn answers_changed(
    rt: &impl Abort,
    alloc: Global,
    place: usize,
    byte: u8,
    number: u32,
    at: u64,
) -> bool {
    if place >= 103 {
        return false;
    }
    answer_by_name(rt, alloc, &changed(place, byte)) == (number, at)
}

#[test]
fn changed_files_are_refused(rt: HostRuntime) {
    check_changed(&rt, rt.alloc(), &CHANGED);
    check_short(&rt, rt.alloc());
}

fn check_short(rt: &impl Abort, alloc: Global) {
    assert!(rt; answer(opened(rt, alloc, &FILE[..102])) == (41, 8));
}

/// The file of one document, whose name has 1 MiB and so many bytes more, and of no term.
fn named(rt: &impl Abort, alloc: Global, more: u8) -> Row<u8> {
    let mut row = Row::new(alloc);
    row.extend(&front_of_named(1_048_576 + u32::from(more)))
        .expect(rt, "memory");
    put_mebibyte(rt, &mut row);
    row.extend(&[b'n'; 256][..more as usize])
        .expect(rt, "memory");
    row
}

fn put_mebibyte(rt: &impl Abort, row: &mut Row<u8>) {
    for _ in 0..256 {
        row.extend(&[b'n'; 4096]).expect(rt, "memory");
    }
}

/// What stands before a name of so many bytes.
fn front_of_named(size: u32) -> [u8; 44]
    requires { size < 2_000_000 }
{
    let mut front = [0u8; 44];
    front[..8].copy_from_slice(b"JASSIDX2");
    front[8..12].copy_from_slice(&(44 + size).to_le_bytes());
    front[16] = 1;
    front[40..].copy_from_slice(&size.to_le_bytes());
    front
}

/// The answer for such a file.
fn answer_named(rt: &impl Abort, alloc: Global, more: u8) -> (u32, u64) {
    answer(IndexFile::from_bytes(alloc, named(rt, alloc, more)))
}

#[test]
fn a_name_has_a_mebibyte_at_the_most(rt: HostRuntime) {
    check_named(&rt, rt.alloc(), &NAMED);
}

/// How many bytes more the name has, and the answer for its file.
const NAMED: [(u8, (u32, u64)); 2] = [(0, (0, 1)), (1, (42, 40))];

fn check_named(rt: &impl Abort, alloc: Global, rows: &[(u8, (u32, u64))]) {
    for (more, wanted) in rows {
        assert!(rt; answer_named(rt, alloc, *more) == *wanted);
    }
}

/// The answer for bytes that are kept in a cabinet.
pub(crate) fn answer_by_name(rt: &impl Abort, alloc: Global, bytes: &[u8]) -> (u32, u64) {
    let mut files = MemCabinet::new(alloc, Row::new(alloc), Row::new(alloc));
    files.store("i.jass", bytes).expect(rt, "memory");
    let answer = answer_of_both(alloc, &mut files, "i.jass");
    drop(files);
    answer
}

/// The answer for a file of a cabinet, where opening it and checking it by pieces answer the same.
fn answer_of_both(alloc: Global, files: &mut MemCabinet, name: &str) -> (u32, u64) {
    let opened = answer(open(alloc, files, name));
    let checked = answer_of_check(check_file(alloc, files, name));
    if opened == checked { opened } else { (3, 0) }
}

/// The answer of a check.
fn answer_of_check(checked: Result<Totals, OpenFault>) -> (u32, u64) {
    match checked {
        Ok(totals) => (0, u64::from(totals.docs)),
        Err(fault) => told(fault),
    }
}

/// The answer for so many bytes of the file.
fn answer_of_cut(count: usize) -> (u32, u64) {
    match count {
        0..8 => (40, 0),
        103 => (0, 3),
        _ => (41, 8),
    }
}

/// Where the file is refused that is cut to so many bytes and says that it has no more.
fn place_of_cut(count: usize) -> u64 {
    match count {
        0..40 => 8,
        40..46 => 40,
        46..52 => 46,
        52..58 => 52,
        58..67 => 58,
        67..78 => 67,
        78..89 => 78,
        89..100 => 89,
        _ => count as u64,
    }
}

fn check_cuts(rt: &impl Abort, alloc: Global) {
    for count in 0..104 {
        assert!(rt; answer_by_name(rt, alloc, &FILE[..count]) == answer_of_cut(count));
    }
}

fn check_counted_cuts(rt: &impl Abort, alloc: Global) {
    for count in 8..103 {
        let counted = changed(8, count as u8);
        assert!(rt; answer_by_name(rt, alloc, &counted[..count]) == (41, place_of_cut(count)));
    }
}

#[test]
fn cut_files_are_refused_where_a_part_does_not_fit(rt: HostRuntime) {
    check_cuts(&rt, rt.alloc());
    check_counted_cuts(&rt, rt.alloc());
}

#[test]
fn a_missing_file_is_a_read_fault(rt: HostRuntime) {
    check_missing(&rt, rt.alloc());
}

fn check_missing(rt: &impl Abort, alloc: Global) {
    let mut files = MemCabinet::new(alloc, Row::new(alloc), Row::new(alloc));
    let answer = answer_of_both(alloc, &mut files, "none");
    drop(files);
    assert!(rt; answer == (1, 0));
}
