// The codecs that lists take, what each codec gives back, and bytes that are no payloads.

ghost use Rattle.std.specs.Prelude.{◌≡◌, ◌≤◌, length};
ghost use Rattle.jass_base.specs.Gaps.{AreDocs};
ghost use Rattle.segment_codecs.specs.Codecs.{payload_of};

use crate::lists::{MOST_DOCS, are_docs, goes_on, is_count, part, rising, to_the_last};
use jass_base::{NoMemory, PayloadFault, Row};
use segment_codecs::{Codec, SegmentCursor, check, choose, encode, length, put_shortest};
use std::alloc::Global;
use std::process::Abort;

const CODECS: [Codec; 4] = [Codec::Varbyte, Codec::Packed, Codec::Bitmap, Codec::Simple8];

fn check_numbers(rt: &impl Abort, codecs: &[Codec]) {
    for codec in codecs {
        assert!(rt; Codec::from_number(codec.number()) == Some(*codec));
    }
}

#[test]
fn numbers_stand_for_codecs(rt: HostRuntime) {
    check_numbers(&rt, &CODECS);
    assert!(&rt; Codec::from_number(4).is_none());
}

/// Whether these are the lengths of the payloads of the documents, codec by codec.
fn has_sizes(docs: &[u32], d: u32, sizes: &[u64; 4]) -> bool
    requires { AreDocs d docs.now }
{
    length(Codec::Varbyte, docs, d) == sizes[0]
        && length(Codec::Packed, docs, d) == sizes[1]
        && length(Codec::Bitmap, docs, d) == sizes[2]
        && length(Codec::Simple8, docs, d) == sizes[3]
}

/// How many documents an index has, the sizes of a list's payloads, its codec, and the payload by that codec.
struct Choice<'a> {
    d: u32,
    sizes: [u64; 4],
    codec: Codec,
    payload: &'a [u8],
}

/// Whether these are documents, and take this codec with this payload.
fn is_chosen(alloc: Global, docs: &[u32], choice: &Choice<'_>) -> Result<bool, NoMemory> {
    let d = choice.d;
    if !are_docs(docs, d) {
        return Ok(false);
    }
    let mut row = Row::new(alloc);
    encode(choice.codec, docs, d, &mut row)?;
    Ok(
        choose(docs, d) == choice.codec
            && row.as_slice() == choice.payload
            && has_sizes(docs, d, &choice.sizes),
    )
}

fn check_choice(rt: &impl Abort, alloc: Global, docs: &[u32], choice: &Choice<'_>) {
    assert!(rt; is_chosen(alloc, docs, choice).is_ok_and(|right| right));
}

/// A block whose first gap is 0, and the 127 others 1.
const ONES: [u8; 17] = [
    0x01, 0xfe, 0xff, 0xff, 0xff, 0xff, 0xff, 0xff, 0xff, 0xff, 0xff, 0xff, 0xff, 0xff, 0xff, 0xff,
    0xff,
];

const BLOCK: Choice<'static> = Choice {
    d: 128,
    sizes: [128, 1, 16, 16],
    codec: Codec::Packed,
    payload: &[0x00],
};

const BLOCK_AND_THE_LAST: Choice<'static> = Choice {
    d: MOST_DOCS,
    sizes: [132, 5, 8_388_608, 24],
    codec: Codec::Packed,
    payload: &[0x00, 0xff, 0xfe, 0xff, 0x1f],
};

const EVEN: Choice<'static> = Choice {
    d: 255,
    sizes: [128, 17, 32, 24],
    codec: Codec::Packed,
    payload: &ONES,
};

const THREE: Choice<'static> = Choice {
    d: 9,
    sizes: [3, 3, 2, 8],
    codec: Codec::Bitmap,
    payload: &[0x12, 0x01],
};

const WORD: Choice<'static> = Choice {
    d: 1_048_576,
    sizes: [120, 120, 131_072, 8],
    codec: Codec::Simple8,
    payload: &[0x01, 0, 0, 0, 0, 0, 0, 0],
};

const ONE: Choice<'static> = Choice {
    d: 9,
    sizes: [1, 1, 2, 8],
    codec: Codec::Varbyte,
    payload: &[0x07],
};

#[test]
fn lists_take_their_codecs(rt: HostRuntime) {
    let alloc = rt.alloc();
    let far = to_the_last();
    check_choice(&rt, alloc, part(&far, 0, 128), &BLOCK);
    check_choice(&rt, alloc, part(&far, 0, 129), &BLOCK_AND_THE_LAST);
    check_choice(&rt, alloc, part(&rising(0, 2), 0, 128), &EVEN);
    check_choice(&rt, alloc, &[1, 4, 8], &THREE);
    check_choice(&rt, alloc, part(&far, 0, 120), &WORD);
    check_choice(&rt, alloc, &[7], &ONE);
}

const FEW: [u32; 3] = [300, 301, 20_000];

const FEW_PAYLOAD: [u8; 6] = [0xac, 0x02, 0x00, 0xf2, 0x99, 0x01];

/// Whether these are documents whose shortest payload is this one, as varints.
fn are_put_as_varints(
    alloc: Global,
    docs: &[u32],
    d: u32,
    payload: &[u8],
) -> Result<bool, NoMemory> {
    if !are_docs(docs, d) {
        return Ok(false);
    }
    let mut row = Row::new(alloc);
    let choice = put_shortest(docs, d, &mut row)?;
    Ok(
        choice.codec == Codec::Varbyte
            && choice.size == payload.len() as u64
            && row.as_slice() == payload,
    )
}

#[test]
fn a_few_documents_are_put_as_varints(rt: HostRuntime) {
    let put = are_put_as_varints(rt.alloc(), &FEW, 1_048_576, &FEW_PAYLOAD);
    assert!(&rt; put.is_ok_and(|right| right));
}

/// Whether a cursor gives these documents, and then no more.
fn gives(codec: Codec, docs: &[u32], d: u32, bytes: &[u8]) -> bool
    requires docs { AreDocs d docs.now }
    requires few { length docs.now ≤ d }
    requires bytes { bytes.now ≡ payload_of codec d docs.now }
{
    let mut cursor = SegmentCursor::new(codec, docs.len() as u32, d);
    let mut block = [0; 128];
    let mut at = 0;
    while at < docs.len() {
        let count = cursor.next_block(bytes, &mut block);
        if !goes_on(docs, at, &block, count) {
            return false;
        }
        at += count;
    }
    cursor.next_block(bytes, &mut block) == 0
}

/// Whether these are documents whose payload by the codec is right and gives them back.
fn gives_back(alloc: Global, codec: Codec, docs: &[u32], d: u32) -> Result<bool, NoMemory> {
    if !are_docs(docs, d) {
        return Ok(false);
    }
    let mut row = Row::new(alloc);
    encode(codec, docs, d, &mut row)?;
    Ok(
        check(codec, row.as_slice(), docs.len() as u32, d) == Ok(())
            && gives(codec, docs, d, row.as_slice()),
    )
}

fn check_codecs(rt: &impl Abort, alloc: Global, docs: &[u32], codecs: &[Codec]) {
    for codec in codecs {
        assert!(rt; gives_back(alloc, *codec, docs, 1024).is_ok_and(|same| same));
    }
}

#[test]
fn each_codec_gives_a_list_back(rt: HostRuntime) {
    let mut docs = rising(2, 5);
    docs[130] = 1023;
    check_codecs(&rt, rt.alloc(), part(&docs, 0, 131), &CODECS);
}

/// A codec, bytes, how many documents below which one they are to have, and what is wrong.
type Fault<'a> = (Codec, &'a [u8], u32, u32, PayloadFault);

const FAULTS: [Fault<'static>; 6] = [
    (Codec::Varbyte, &[], 1, 4, PayloadFault::Cut),
    (Codec::Varbyte, &[0x80, 0x00], 1, 4, PayloadFault::Shape),
    (Codec::Packed, &[0x05], 1, 4, PayloadFault::DocRange),
    (Codec::Packed, &[0x00, 0x00], 1, 4, PayloadFault::Longer),
    (Codec::Bitmap, &[0x80], 1, 4, PayloadFault::DocRange),
    (
        Codec::Simple8,
        &[0x02, 0, 0, 0, 0, 0, 0, 0],
        59,
        100,
        PayloadFault::Shape,
    ),
];

fn check_faults(rt: &impl Abort, rows: &[Fault<'_>]) {
    for (codec, bytes, count, d, fault) in rows {
        assert!(rt; is_count(*count, *d) && check(*codec, bytes, *count, *d) == Err(*fault));
    }
}

#[test]
fn each_codec_tells_its_faults(rt: HostRuntime) {
    check_faults(&rt, &FAULTS);
}
