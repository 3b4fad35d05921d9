// Three documents of 9, 5 and 1 terms that share one term, from their postings to the index.

ghost use Rattle.std.specs.Prelude.{◌≡◌, ◌<◌, ◌≤◌, ◌^◌, length, All, AllPairs};
ghost use Rattle.std.specs.List.Sorted.{IsStrictlyIncreasing};
ghost use Rattle.jass_base.specs.Gaps.{AreDocs};
ghost use Rattle.jass_base.specs.Lists.{HasDocsBelow};
ghost use Rattle.jass_base.specs.Postings.{docs_of, HasTfInRange};
ghost use Rattle.jass_base.specs.Segments.{SharesNoDocument};
ghost use Rattle.jass_base.specs.declared.postings_list.PostingsList.{PostingsList};
ghost use Rattle.jass_base.specs.declared.segment.Segment.{Segment};
ghost use Rattle.weights.specs.Quantizing.{IsImpactWidth};

use ciff_read::read_collection;
use impact_segments::{
    DocImpact, ListSegments, Scratch, SegmentsFault, build, can_widen, group, length_norms,
    norm_ends, segments_into, segments_of, widen_by_norms, widen_list,
};
use jass_base::{ImpactIndex, Posting, PostingsList, Row, Segment, TermSegments, Text};
use std::alloc::Global;
use std::process::Abort;
use weights::{Bits, Range, Rule};

/// The range of the BM25 weights of the list of three documents.
const RANGE: Range = Range {
    least: 401,
    greatest: 572,
};

/// The collection of three documents named `d` of 9, 5 and 1 terms. The term `0` has no postings;
/// `a`: (0,9), (1,5), (2,1).
const THREE_LISTS: &[u8] = b"\x0c\x08\x01\x10\x02\x18\x03\x20\x02\x28\x03\x30\x0f\
    \x07\x0a\x010\x10\x03\x18\x0f\
    \x17\x0a\x01a\x10\x03\x18\x0f\x22\x02\x10\x09\x22\x04\x08\x01\x10\x05\x22\x04\x08\x01\x10\x01\
    \x05\x12\x01d\x18\x09\x07\x08\x01\x12\x01d\x18\x05\x07\x08\x02\x12\x01d\x18\x01";

#[test]
fn three_documents(rt: HostRuntime) {
    check_three(&rt, rt.alloc());
}

fn check_three(rt: &impl Abort, alloc: Global) {
    let index = indexed(rt, alloc, THREE_LISTS, Rule::Bm25, Bits::Of(8));
    let whole = is_whole(&index);
    drop(index);
    assert!(rt; whole);
}

/// The index of the collection in a file.
pub(crate) fn indexed(
    rt: &impl Abort,
    alloc: Global,
    file: &[u8],
    rule: Rule,
    bits: Bits,
) -> ImpactIndex
    requires { IsImpactWidth bits }
{
    let collection = read_collection(alloc, file).expect(rt, "a collection");
    let built = build(alloc, &collection, rule, bits);
    drop(collection);
    built.expect(rt, "memory")
}

/// Documents with their impacts, of which two are the same.
const PAIRS: [DocImpact; 3] = [
    DocImpact { doc: 3, impact: 5 },
    DocImpact { doc: 4, impact: 9 },
    DocImpact { doc: 7, impact: 5 },
];

#[test]
fn pairs_by_impact(rt: HostRuntime) {
    check_groups(&rt, rt.alloc());
    check_stripes(&rt, rt.alloc());
}

#[test]
fn a_range_grows_by_one_list(rt: HostRuntime) {
    check_ranges(&rt, rt.alloc());
}

#[test]
fn segments_by_a_scratch(rt: HostRuntime) {
    check_scratch(&rt, rt.alloc());
}

/// The segments of a list that is made twice.
fn check_scratch(rt: &impl Abort, alloc: Global) {
    let mut segments = ListSegments::new(alloc);
    make_twice(rt, alloc, &mut segments);
    let heavy = begin_with_the_heaviest(&segments);
    let impacts = has_impacts(rt, alloc, &segments);
    drop(segments);
    assert!(rt; heavy && impacts);
}

fn make_twice(rt: &impl Abort, alloc: Global, segments: &mut ListSegments) {
    let mut scratch = Scratch::new(alloc);
    make_impacts(rt, alloc, segments, &mut scratch);
    make_impacts(rt, alloc, segments, &mut scratch);
    drop(scratch);
}

#[test]
fn segments_of_one_list(rt: HostRuntime) {
    check_made(&rt, rt.alloc(), &MADE);
}

/// The least weight of a range up to 9, the frequency in the first document, and how many segments
/// the list makes in this range, or why none.
type Made = (u64, u32, Result<usize, SegmentsFault>);

const MADE: [Made; 3] = [
    (1, 9, Ok(3)),
    (1, 10, Err(SegmentsFault::Outside { kept: 9, found: 10 })),
    (2, 9, Err(SegmentsFault::Outside { kept: 2, found: 1 })),
];

fn check_made(rt: &impl Abort, alloc: Global, rows: &[Made]) {
    for (least, tf, answer) in rows {
        assert!(rt; makes(rt, alloc, *least, *tf, *answer));
    }
}

/// Whether the list makes so many segments in a range up to 9, or is refused so.
fn makes(
    rt: &impl Abort,
    alloc: Global,
    least: u64,
    tf: u32,
    answer: Result<usize, SegmentsFault>,
) -> bool {
    if tf == 0 || tf >= 100 {
        return false;
    }
    made(rt, alloc, least, tf) == answer
}

/// Three documents of 9, 5 and 1 terms. The weights of a list of all three lie between those of
/// one mention in the longest and of nine in the shortest one.
#[test]
fn a_list_that_can_widen(rt: HostRuntime) {
    assert!(&rt; widens(Range::new(), Rule::Bm25, 3, 9));
    check_widening(&rt, widened(), &WIDENING);
}

/// The range from 296 to 606.
fn widened() -> Range {
    let mut range = Range::new();
    range.widen(296);
    range.widen(606);
    range
}

/// Lists by a rule, of so many documents and with a frequency up to one, and whether they can widen
/// the range from 296 to 606.
const WIDENING: [(Rule, u32, u32, bool); 4] = [
    (Rule::Bm25, 3, 9, false),
    (Rule::Bm25, 3, 10, true),
    (Rule::Bm25, 4, 1, true),
    (Rule::Tf, 3, 9, true),
];

fn check_widening(rt: &impl Abort, range: Range, rows: &[(Rule, u32, u32, bool)]) {
    for (rule, count, most, can) in rows {
        assert!(rt; is_widened(range, *rule, *count, *most, *can));
    }
}

/// Whether such a list can widen a range, or can't.
fn is_widened(range: Range, rule: Rule, count: u32, most: u32, can: bool) -> bool {
    if count == 0 || most == 0 || most >= 100 {
        return false;
    }
    widens(range, rule, count, most) == can
}

/// Whether a list of so many of the three documents, with a frequency up to one, can widen a range.
fn widens(range: Range, rule: Rule, count: u32, most: u32) -> bool
    requires some { 1 ≤ count }
    requires tf { (1 ≤ most) × (most < 2 ^ 31) }
{
    let norms = [1_188u64, 900, 612];
    can_widen(range, rule, count, most, &norms, norm_ends(&norms))
}

/// The pairs make two segments.
fn check_groups(rt: &impl Abort, alloc: Global) {
    let segments = group(alloc, &PAIRS).expect(rt, "memory");
    let count = segments.len();
    drop(segments);
    assert!(rt; count == 2);
}

/// The index of many documents has their stripes: they are enough to go without a sort, and the
/// segments of the second term are made by places that were used before.
fn check_stripes(rt: &impl Abort, alloc: Global) {
    let bytes = striped(rt, alloc);
    let index = indexed(rt, alloc, bytes.as_slice(), Rule::Tf, Bits::Raw);
    drop(bytes);
    let striped = has_stripes(&index);
    drop(index);
    assert!(rt; striped);
}

/// A file of the documents from 0 to 63, in which two terms stand once, twice and three times in turn.
fn striped(rt: &impl Abort, alloc: Global) -> Row<u8> {
    let mut bytes = Row::new(alloc);
    bytes.extend(b"\x04\x10\x02\x18\x40").expect(rt, "memory");
    put_stripes(rt, &mut bytes, b'a');
    put_stripes(rt, &mut bytes, b'b');
    for doc in 0..64u8 {
        bytes
            .extend(&[0x05, 0x08, doc, 0x12, 0x01, b'd'])
            .expect(rt, "memory");
    }
    bytes
}

/// The list of one of these terms.
fn put_stripes(rt: &impl Abort, bytes: &mut Row<u8>, term: u8) {
    bytes
        .extend(&[0x81, 0x03, 0x0a, 0x01, term, 0x22, 0x02, 0x10, 0x01])
        .expect(rt, "memory");
    for doc in 1..64u32 {
        let tf = (doc % 3) as u8 + 1;
        bytes
            .extend(&[0x22, 0x04, 0x08, 0x01, 0x10, tf])
            .expect(rt, "memory");
    }
}

fn has_stripes(index: &ImpactIndex) -> bool {
    match index.terms.as_slice() {
        [first, second] => {
            are_stripes(first.segments.as_slice()) && are_stripes(second.segments.as_slice())
        }
        _ => false,
    }
}

fn are_stripes(segments: &[Segment]) -> bool {
    match segments {
        [third, second, first] => {
            is_stripe(third, 3, 2, 62) && is_stripe(second, 2, 1, 61) && is_stripe(first, 1, 0, 63)
        }
        _ => false,
    }
}

fn is_stripe(segment: &Segment, impact: u16, from: u32, to: u32) -> bool {
    match segment.docs.as_slice() {
        [first, .., last] => segment.impact == impact && *first == from && *last == to,
        _ => false,
    }
}

fn check_ranges(rt: &impl Abort, alloc: Global) {
    assert!(rt; is_range(range_of_three(rt, alloc)));
    assert!(rt; is_range(range_by_norms(rt, alloc)));
}

fn is_range(range: Range) -> bool {
    range == RANGE
}

/// The range of the BM25 weights of the list of three documents.
fn range_of_three(rt: &impl Abort, alloc: Global) -> Range {
    let list = three(rt, alloc, 9);
    let mut range = Range::new();
    widen_list(&mut range, Rule::Bm25, 15, &list, &[9, 5, 1]);
    drop(list);
    range
}

/// The same range, by the norms of the documents.
fn range_by_norms(rt: &impl Abort, alloc: Global) -> Range {
    let list = three(rt, alloc, 9);
    let norms = length_norms(alloc, 15, &[9, 5, 1]).expect(rt, "memory");
    let mut range = Range::new();
    widen_by_norms(
        &mut range,
        Rule::Bm25,
        15,
        &list,
        &[9, 5, 1],
        norms.as_slice(),
    );
    drop(norms);
    drop(list);
    range
}

/// Makes the segments of the list by BM25, by the norms of the documents.
fn make_impacts(
    rt: &impl Abort,
    alloc: Global,
    segments: &mut ListSegments,
    scratch: &mut Scratch,
) {
    let list = three(rt, alloc, 9);
    let norms = length_norms(alloc, 15, &[9, 5, 1]).expect(rt, "memory");
    let made = segments_into(
        segments,
        scratch,
        Rule::Bm25,
        Bits::Of(8),
        RANGE,
        15,
        &list,
        &[9, 5, 1],
        norms.as_slice(),
    );
    drop(norms);
    drop(list);
    made.expect(rt, "segments");
}

/// Whether the rows of the segments have the impacts of the list.
fn has_impacts(rt: &impl Abort, alloc: Global, segments: &ListSegments) -> bool {
    let rows = segments.to_rows(alloc).expect(rt, "memory");
    let impacts = are_impacts(rows.as_slice());
    drop(rows);
    impacts
}

/// Whether the segments begin with the heaviest.
fn begin_with_the_heaviest(segments: &ListSegments) -> bool {
    if segments.len() != 3 {
        return false;
    }
    match segments.segment(0) {
        (impact, [only]) => impact == 255 && *only == 0,
        _ => false,
    }
}

fn are_impacts(segments: &[Segment]) -> bool {
    match segments {
        [first, second, third] => {
            is_single(first, 255, 0) && is_single(second, 220, 1) && is_single(third, 1, 2)
        }
        _ => false,
    }
}

fn is_single(segment: &Segment, impact: u16, doc: u32) -> bool {
    match segment.docs.as_slice() {
        [only] => segment.impact == impact && *only == doc,
        _ => false,
    }
}

/// How many segments the list makes in a range up to 9, or why none.
fn made(rt: &impl Abort, alloc: Global, least: u64, tf: u32) -> Result<usize, SegmentsFault>
    requires { (1 ≤ tf) × (tf < 2 ^ 31) }
{
    let list = three(rt, alloc, tf);
    let range = Range { least, greatest: 9 };
    let made = segments_of(alloc, Rule::Tf, Bits::Of(8), range, 15, &list, &[9, 5, 1]);
    drop(list);
    match made {
        Ok(segments) => {
            let count = segments.len();
            drop(segments);
            Ok(count)
        }
        Err(fault) => Err(fault),
    }
}

/// The segments of a list of the three documents, by term frequency.
pub(crate) fn segments(rt: &impl Abort, alloc: Global, list: PostingsList) -> Row<Segment>
    requires some { 1 ≤ length list.postings }
    requires below { HasDocsBelow 3 list }
    ensures docs { All (λ (s : Segment). AreDocs 3 s.docs) result }
    ensures once { AllPairs SharesNoDocument result }
{
    let made = segments_of(
        alloc,
        Rule::Tf,
        Bits::Raw,
        Range::new(),
        15,
        &list,
        &[9, 5, 1],
    );
    drop(list);
    made.expect(rt, "segments")
}

/// The list of a term in three documents, with its frequency in the first.
pub(crate) fn three(rt: &impl Abort, alloc: Global, tf: u32) -> PostingsList
    requires { (1 ≤ tf) × (tf < 2 ^ 31) }
    ensures some { 1 ≤ length result.postings }
    ensures below { HasDocsBelow 3 result }
{
    let postings = [
        Posting { doc: 0, tf },
        Posting { doc: 1, tf: 5 },
        Posting { doc: 2, tf: 1 },
    ];
    list(rt, alloc, &postings)
}

/// The list of a term that stands once, in the first document.
pub(crate) fn one_document(rt: &impl Abort, alloc: Global) -> PostingsList
    ensures some { 1 ≤ length result.postings }
    ensures below { HasDocsBelow 3 result }
{
    list(rt, alloc, &[Posting { doc: 0, tf: 1 }])
}

fn is_whole(index: &ImpactIndex) -> bool {
    are_names(index.names.as_slice()) && are_terms(index.terms.as_slice()) && index.greatest == 255
}

fn are_names(names: &[Text]) -> bool {
    match names {
        [first, second, third] => is_text(first, "d")
            && is_text(second, "d")
            && is_text(third, "d"),
        _ => false,
    }
}

fn is_text(text: &Text, wanted: &str) -> bool {
    text.as_str() == wanted
}

/// Whether these are the terms of the index: the one without postings is left out.
fn are_terms(terms: &[TermSegments]) -> bool {
    match terms {
        [only] => is_text(&only.term, "a") && are_impacts(only.segments.as_slice()),
        _ => false,
    }
}

/// The list of the term `a` with these postings.
fn list(rt: &impl Abort, alloc: Global, postings: &[Posting]) -> PostingsList
    requires rising { IsStrictlyIncreasing (docs_of postings.now) }
    requires tf { All HasTfInRange postings.now }
    ensures { result.postings ≡ postings.now }
{
    let term = Text::from_str(alloc, "a").expect(rt, "memory");
    let mut row = Row::new(alloc);
    row.extend(postings).expect(rt, "memory");
    PostingsList {
        term,
        df: 3,
        cf: 15,
        postings: row,
    }
}
