// Index files that are written as a whole, term by term or of spelled parts, and what is left where a write fails.

ghost use Rattle.std.specs.Prelude.{◌≡◌, length, map, All, AllPairs, IfOk};
ghost use Rattle.jass_base.specs.Gaps.{AreDocs};
ghost use Rattle.jass_base.specs.declared.segment.Segment.{Segment};
ghost use Rattle.index_write.specs.Streaming.{AreEntries, AreNames, entry_data};
ghost use Rattle.jass_base.specs.Segments.{SharesNoDocument};

use crate::impacts::{indexed, one_document, segments, three};
use crate::index_spelling::{SMALL, SMALL_LISTS};
use index_write::{
    Blocks, IndexWriter, PayloadHead, SaveFault, SpelledNames, SpelledTerms, TermFault, TermHeads,
    payload_heads, write_index, write_parts,
};
use jass_base::{Cabinet, ImpactIndex, MemCabinet, Row, Segment, Text, Totals};
use segment_codecs::Codec;
use std::alloc::Global;
use std::process::Abort;
use weights::{Bits, Rule};

/// What the small file counts.
const TOTALS: Totals = Totals {
    docs: 3,
    terms: 1,
    postings: 3,
    greatest: 9,
};

/// The heads of the term `a`.
const HEADS: [PayloadHead; 3] = [
    PayloadHead {
        impact: 9,
        count: 1,
        codec: Codec::Varbyte,
        bytes: 1,
    },
    PayloadHead {
        impact: 5,
        count: 1,
        codec: Codec::Varbyte,
        bytes: 1,
    },
    PayloadHead {
        impact: 1,
        count: 1,
        codec: Codec::Varbyte,
        bytes: 1,
    },
];

/// Which writes fail, what is answered then, and how much of the small file is left; None where the
/// older file is.
type Saved<'a> = (&'a [u64], Result<(), SaveFault>, Option<usize>);

const SAVED: [Saved<'static>; 3] = [
    (&[], Ok(()), Some(103)),
    (&[0], Err(SaveFault::WriteFault), None),
    (&[1], Err(SaveFault::WriteFault), Some(0)),
];

fn check_saved(rt: &impl Abort, alloc: Global, rows: &[Saved<'_>]) {
    for (bad, answer, left) in rows {
        assert!(rt; is_saved(rt, alloc, bad, *answer, *left));
    }
}

fn is_saved(
    rt: &impl Abort,
    alloc: Global,
    bad: &[u64],
    answer: Result<(), SaveFault>,
    left: Option<usize>,
) -> bool {
    let mut files = older(rt, alloc, bad);
    let written = saved(rt, alloc, &mut files);
    let kept = is_left(&files, left);
    drop(files);
    kept && written == answer
}

/// What writing the index of the small file answers.
fn saved(rt: &impl Abort, alloc: Global, files: &mut MemCabinet) -> Result<(), SaveFault> {
    let index = indexed(rt, alloc, SMALL_LISTS, Rule::Tf, Bits::Raw);
    let written = write_index(alloc, &index, files, "i");
    drop(index);
    written
}

#[test]
fn files_are_written_or_left(rt: HostRuntime) {
    check_saved(&rt, rt.alloc(), &SAVED);
}

#[test]
fn heads_are_made(rt: HostRuntime) {
    check_heads(&rt, rt.alloc());
}

/// The heads of the segments of the term `a`.
fn check_heads(rt: &impl Abort, alloc: Global) {
    assert!(rt; are_made(rt, alloc, &HEADS));
}

/// Whether these are the heads.
fn are_made(rt: &impl Abort, alloc: Global, wanted: &[PayloadHead]) -> bool {
    let heads = heads_of_three(rt, alloc);
    let same = heads.as_slice() == wanted;
    drop(heads);
    same
}

fn heads_of_three(rt: &impl Abort, alloc: Global) -> Row<PayloadHead> {
    let segments = segments(rt, alloc, three(rt, alloc, 9));
    let made = payload_heads(alloc, segments.as_slice(), 3);
    drop(segments);
    made.expect(rt, "heads")
}

/// The same for a file that is written term by term.
type Streamed<'a> = (&'a [u64], Result<Totals, TermFault>, Option<usize>);

const STREAMED: [Streamed<'static>; 4] = [
    (&[], Ok(TOTALS), Some(103)),
    (&[0], Err(TermFault::WriteFault), None),
    (&[1], Err(TermFault::WriteFault), Some(0)),
    (&[2], Err(TermFault::WriteFault), Some(100)),
];

fn check_streamed(rt: &impl Abort, alloc: Global, rows: &[Streamed<'_>]) {
    for (bad, answer, left) in rows {
        assert!(rt; is_streamed(rt, alloc, bad, *answer, *left));
    }
}

fn is_streamed(
    rt: &impl Abort,
    alloc: Global,
    bad: &[u64],
    answer: Result<Totals, TermFault>,
    left: Option<usize>,
) -> bool {
    let mut files = older(rt, alloc, bad);
    let written = streamed_three(rt, alloc, &mut files);
    let kept = is_left(&files, left);
    drop(files);
    kept && written == answer
}

/// What writing the file with the segments of the three documents answers.
fn streamed_three(
    rt: &impl Abort,
    alloc: Global,
    files: &mut MemCabinet,
) -> Result<Totals, TermFault> {
    let segments = segments(rt, alloc, three(rt, alloc, 9));
    let written = streamed(rt, alloc, &segments, files);
    drop(segments);
    written
}

#[test]
fn files_are_written_term_by_term(rt: HostRuntime) {
    check_streamed(&rt, rt.alloc(), &STREAMED);
}

/// The same for a file of spelled parts.
type Joined<'a> = (&'a [u64], Result<Totals, SaveFault>, Option<usize>);

const JOINED: [Joined<'static>; 4] = [
    (&[], Ok(TOTALS), Some(103)),
    (&[0], Err(SaveFault::WriteFault), None),
    (&[2], Err(SaveFault::WriteFault), Some(40)),
    (&[4], Err(SaveFault::WriteFault), Some(100)),
];

fn check_joined(rt: &impl Abort, alloc: Global, rows: &[Joined<'_>]) {
    for (bad, answer, left) in rows {
        assert!(rt; is_joined(rt, alloc, bad, *answer, *left));
    }
}

fn is_joined(
    rt: &impl Abort,
    alloc: Global,
    bad: &[u64],
    answer: Result<Totals, SaveFault>,
    left: Option<usize>,
) -> bool {
    let mut files = older(rt, alloc, bad);
    let written = joined(rt, alloc, &mut files);
    let kept = is_left(&files, left);
    drop(files);
    kept && written == answer
}

#[test]
fn files_are_written_of_spelled_parts(rt: HostRuntime) {
    check_joined(&rt, rt.alloc(), &JOINED);
}

/// Which writes fail, whether that is answered, and how many bytes the file is left with: a file of
/// two names, of which one finds no room and the other is short, and of no term.
type Put<'a> = (&'a [u64], bool, usize);

const PUT: [Put<'static>; 5] = [
    (&[], false, 70_050),
    (&[0], true, 3),
    (&[1], true, 0),
    (&[2], true, 44),
    (&[3], true, 70_044),
];

fn check_put(rt: &impl Abort, alloc: Global, rows: &[Put<'_>]) {
    for (bad, failed, len) in rows {
        assert!(rt; is_put(rt, alloc, bad, *failed, *len));
    }
}

fn is_put(rt: &impl Abort, alloc: Global, bad: &[u64], failed: bool, len: usize) -> bool {
    let mut files = older(rt, alloc, bad);
    let fails = fails_to_put(rt, alloc, &mut files);
    let left = has_length(&files, len);
    drop(files);
    left && fails == failed
}

/// Whether a file of the two names can't be begun: all that stands before its payloads isn't written.
fn fails_to_put(rt: &impl Abort, alloc: Global, files: &mut MemCabinet) -> bool {
    let names = names_of(long_and_short(rt, alloc));
    IndexWriter::new(alloc, names, Row::new(alloc), files, "i").is_err()
}

#[test]
fn long_texts_go_through(rt: HostRuntime) {
    check_put(&rt, rt.alloc(), &PUT);
}

#[test]
fn other_segments_are_refused(rt: HostRuntime) {
    check_one_segment(&rt, rt.alloc());
}

/// One segment on three heads is refused, and the file left with its front.
fn check_one_segment(rt: &impl Abort, alloc: Global) {
    let mut files = MemCabinet::new(alloc, Row::new(alloc), Row::new(alloc));
    let written = streamed_one(rt, alloc, &mut files);
    let kept = is_left(&files, Some(100));
    drop(files);
    assert!(rt; kept && written == Err(TermFault::Changed { kept: 3, found: 1 }));
}

/// What writing the file with the one segment answers.
fn streamed_one(
    rt: &impl Abort,
    alloc: Global,
    files: &mut MemCabinet,
) -> Result<Totals, TermFault> {
    let segments = segments(rt, alloc, one_document(rt, alloc));
    let written = streamed(rt, alloc, &segments, files);
    drop(segments);
    written
}

/// A cabinet with an older file, where these writes fail.
fn older(rt: &impl Abort, alloc: Global, bad: &[u64]) -> MemCabinet {
    let mut bad_writes = Row::new(alloc);
    bad_writes.extend(bad).expect(rt, "memory");
    let mut files = MemCabinet::new(alloc, Row::new(alloc), bad_writes);
    files.store("i", b"old").expect(rt, "memory");
    files
}

/// Whether so much of the small file is left, or the older one.
fn is_left(files: &MemCabinet, left: Option<usize>) -> bool {
    match files.content("i") {
        Some(content) => is_content(content, left),
        None => false,
    }
}

fn is_content(content: &[u8], left: Option<usize>) -> bool {
    match left {
        Some(len) => content.len() == len && SMALL.starts_with(content),
        None => content == b"old".as_slice(),
    }
}

/// What writing the three names, the term `a` and its payloads answers.
fn joined(rt: &impl Abort, alloc: Global, files: &mut MemCabinet) -> Result<Totals, SaveFault> {
    let names = spelled_names(rt, alloc);
    let terms = spelled_terms(rt, alloc);
    let payloads = one_block(rt, alloc);
    let written = write_parts(alloc, &names, &terms, &payloads, files, "i");
    drop(payloads);
    drop(terms);
    drop(names);
    written
}

/// The term `a` with its heads.
fn spelled_terms(rt: &impl Abort, alloc: Global) -> SpelledTerms {
    let mut terms = SpelledTerms::new(alloc);
    terms.push("a", &HEADS).expect(rt, "memory");
    terms
}

/// The payloads of the term `a`.
fn one_block(rt: &impl Abort, alloc: Global) -> Blocks {
    let mut block = Row::new(alloc);
    block.extend(&SMALL[100..]).expect(rt, "memory");
    let mut payloads = Blocks::new(alloc);
    payloads.push_full(alloc, &mut block).expect(rt, "memory");
    payloads.push(block).expect(rt, "memory");
    payloads
}

/// The three names.
fn spelled_names(rt: &impl Abort, alloc: Global) -> SpelledNames {
    let mut names = SpelledNames::with_room(alloc, 18);
    names.push("d0").expect(rt, "memory");
    names.push("d1").expect(rt, "memory");
    names.push("d2").expect(rt, "memory");
    names
}

/// Writes the file of the three names and the term `a` with the heads at 9, 5 and 1.
fn streamed(
    rt: &impl Abort,
    alloc: Global,
    segments: &Row<Segment>,
    files: &mut MemCabinet,
) -> Result<Totals, TermFault>
    requires docs { All (λ (s : Segment). AreDocs 3 s.docs) segments.now }
    requires once { AllPairs SharesNoDocument segments.now }
{
    match begun(rt, alloc, files) {
        Ok(writer) => {
            let writer = writer.term(segments.as_slice(), files)?;
            Ok(writer.finish())
        }
        Err(SaveFault::WriteFault) => Err(TermFault::WriteFault),
        Err(_) => Err(TermFault::NoMemory),
    }
}

/// Writes what stands before the payloads.
fn begun(rt: &impl Abort, alloc: Global, files: &mut MemCabinet) -> Result<IndexWriter, SaveFault>
    ensures docs { IfOk result (λ writer. writer.docs ≡ 3) }
    ensures left { IfOk result (λ writer. writer.left ≡ 1) }
{
    let names = names_of(indexed(rt, alloc, SMALL_LISTS, Rule::Tf, Bits::Raw));
    assert!(rt; names.len() == 3);
    IndexWriter::new(alloc, names, kept_terms(rt, alloc), files, "i")
}

/// The names of an index's documents.
fn names_of(index: ImpactIndex) -> Row<Text>
    ensures { AreNames result }
{
    index.names
}

/// The term `a` with its heads.
fn kept_terms(rt: &impl Abort, alloc: Global) -> Row<TermHeads>
    ensures terms { AreEntries (map entry_data result) }
    ensures count { length result ≡ 1 }
{
    let term = Text::from_str(alloc, "a").expect(rt, "memory");
    let mut heads = Row::new(alloc);
    heads
        .extend(&[head(9), head(5), head(1)])
        .expect(rt, "memory");
    let mut terms = Row::new(alloc);
    terms.push(TermHeads { term, heads }).expect(rt, "memory");
    terms
}

/// The head of a segment of one document below 128.
fn head(impact: u16) -> PayloadHead
    ensures impact { result.impact ≡ impact }
    ensures count { result.count ≡ 1 }
    ensures bytes { result.bytes ≡ 1 }
{
    PayloadHead {
        impact,
        count: 1,
        codec: Codec::Varbyte,
        bytes: 1,
    }
}

/// Whether a file of so many bytes is left.
fn has_length(files: &MemCabinet, len: usize) -> bool {
    match files.content("i") {
        Some(content) => content.len() == len,
        None => false,
    }
}

/// Two documents, whose names have 70,000 bytes and two.
fn long_and_short(rt: &impl Abort, alloc: Global) -> ImpactIndex {
    let bytes = long_and_short_lists(rt, alloc);
    let index = indexed(rt, alloc, bytes.as_slice(), Rule::Tf, Bits::Raw);
    drop(bytes);
    index
}

/// The collection of these documents.
fn long_and_short_lists(rt: &impl Abort, alloc: Global) -> Row<u8> {
    let mut bytes = Row::new(alloc);
    bytes
        .extend(b"\x02\x18\x02\xf4\xa2\x04\x12\xf0\xa2\x04")
        .expect(rt, "memory");
    bytes.extend(&[b'x'; 70_000]).expect(rt, "memory");
    bytes.extend(b"\x06\x08\x01\x12\x02ab").expect(rt, "memory");
    bytes
}
