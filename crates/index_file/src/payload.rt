ghost use Rattle.std.specs.Prelude.{ℕ, ◌≡◌, ◌≤◌, ◌<◌, ◌+◌, ◌^◌, ◌++◌, List, [], length, take, IfOk};
ghost use Rattle.index_layout.specs.Reading.{docs_in, payload_end};
ghost use Rattle.index_layout.specs.Refusals.{Answers};
ghost use Rattle.index_file.specs.Marks.{AreMarks};
ghost use Rattle.jass_base.specs.declared.limits.TheConstants.{LONGEST_FILE, MOST_DOCUMENTS};
ghost use Rattle.index_file.specs.Parts.{told, IsPayloadAt};

use crate::marks::{mark_docs, mark_payload};
use crate::segment_head::SegmentHead;
use index_layout::{OpenFault, OpenWhy, refused};
use segment_codecs::laws::{payloads_are_read, payloads_have_few_bytes};
use segment_codecs::{Codec, check, check_front_into};

/// How many documents a block has room for.
const BLOCK: u32 = 4096;

/// Checks that the payload of a segment is at a place.
pub(crate) fn check_payload(
    bytes: &[u8],
    docs: u32,
    head: SegmentHead,
    at: usize,
) -> Result<(), OpenFault>
    requires at { at ≤ length bytes.now }
    requires few { length bytes.now ≤ LONGEST_FILE }
    requires docs { docs ≤ MOST_DOCUMENTS }
    requires counted { (1 ≤ head.count) × (head.count ≤ docs) }
    ensures exact { Answers (λ _. at + head.size) result (payload_end bytes.now docs [] (told head) at) }
    ensures place { IfOk result (λ _. at < 2 ^ 32) }
    ensures payload { IfOk result (λ _. IsPayloadAt bytes.now docs (told head) at) }
{
    payloads_are_read();
    payloads_have_few_bytes();
    let size = head.size as usize;
    if bytes.len() - at < size {
        return Err(refused(at, OpenWhy::Length));
    }
    match check(head.codec, &bytes[at..at + size], head.count, docs) {
        Ok(()) => Ok(()),
        Err(fault) => Err(refused(at, OpenWhy::Payload(fault))),
    }
}

/// The same, and the documents at the front of a block, which has room for them.
#[inline(always)]
fn check_into_block(
    bytes: &[u8],
    docs: u32,
    head: SegmentHead,
    at: usize,
    block: &mut [u32; 4096],
) -> Result<(), OpenFault>
    requires at { at ≤ length bytes.now }
    requires few { length bytes.now ≤ LONGEST_FILE }
    requires docs { docs ≤ MOST_DOCUMENTS }
    requires counted { (1 ≤ head.count) × (head.count ≤ docs) }
    requires room { head.count ≤ 4096 }
    ensures exact { Answers (λ _. at + head.size) result (payload_end bytes.now docs [] (told head) at) }
    ensures place { IfOk result (λ _. at < 2 ^ 32) }
    ensures payload { IfOk result (λ _. IsPayloadAt bytes.now docs (told head) at) }
    ensures docs { IfOk result (λ _. take head.count block.new ≡ docs_in bytes.now docs (told head) at) }
{
    payloads_are_read();
    payloads_have_few_bytes();
    let size = head.size as usize;
    if bytes.len() - at < size {
        return Err(refused(at, OpenWhy::Length));
    }
    match check_front_into(head.codec, &bytes[at..], size, head.count, docs, block) {
        Ok(()) => Ok(()),
        Err(fault) => Err(refused(at, OpenWhy::Payload(fault))),
    }
}

/// The same as `check_payload` behind earlier segments of the term, whose documents are marked: it
/// may have none of these. Its own are marked too. Inlined, since most segments have one document.
#[inline(always)]
pub fn check_apart(
    bytes: &[u8],
    docs: u32,
    head: SegmentHead,
    at: usize,
    marks: &mut [u16],
    now: u16,
    block: &mut [u32; 4096],
) -> Result<(), OpenFault>
    requires at { at ≤ length bytes.now }
    requires few { length bytes.now ≤ LONGEST_FILE }
    requires docs { docs ≤ MOST_DOCUMENTS }
    requires counted { (1 ≤ head.count) × (head.count ≤ docs) }
    requires marks { docs ≤ length marks.old }
    ensures exact { (earlier : List ℕ) → AreMarks now earlier marks.old
        → Answers (λ _. at + head.size) result (payload_end bytes.now docs earlier (told head) at) }
    ensures marks { IfOk result (λ _. (earlier : List ℕ) → AreMarks now earlier marks.old
        → AreMarks now (earlier ++ docs_in bytes.now docs (told head) at) marks.new) }
    ensures count { IfOk result (λ _. length marks.new ≡ length marks.old) }
    ensures place { IfOk result (λ _. at < 2 ^ 32) }
    ensures payload { IfOk result (λ _. IsPayloadAt bytes.now docs (told head) at) }
{
    match head.codec {
        Codec::Varbyte | Codec::Simple8 if head.count <= BLOCK => {
            check_few(bytes, docs, head, at, marks, now, block)
        }
        _ => check_many(bytes, docs, head, at, marks, now),
    }
}

/// The same for documents that a block has room for, in a codec that is read once.
#[inline(always)]
fn check_few(
    bytes: &[u8],
    docs: u32,
    head: SegmentHead,
    at: usize,
    marks: &mut [u16],
    now: u16,
    block: &mut [u32; 4096],
) -> Result<(), OpenFault>
    requires at { at ≤ length bytes.now }
    requires few { length bytes.now ≤ LONGEST_FILE }
    requires docs { docs ≤ MOST_DOCUMENTS }
    requires counted { (1 ≤ head.count) × (head.count ≤ docs) }
    requires marks { docs ≤ length marks.old }
    requires room { head.count ≤ 4096 }
    ensures exact { (earlier : List ℕ) → AreMarks now earlier marks.old
        → Answers (λ _. at + head.size) result (payload_end bytes.now docs earlier (told head) at) }
    ensures marks { IfOk result (λ _. (earlier : List ℕ) → AreMarks now earlier marks.old
        → AreMarks now (earlier ++ docs_in bytes.now docs (told head) at) marks.new) }
    ensures count { IfOk result (λ _. length marks.new ≡ length marks.old) }
    ensures place { IfOk result (λ _. at < 2 ^ 32) }
    ensures payload { IfOk result (λ _. IsPayloadAt bytes.now docs (told head) at) }
{
    check_into_block(bytes, docs, head, at, block)?;
    if mark_docs(marks, now, &block[..head.count as usize]) {
        return Err(refused(at, OpenWhy::DocTwice));
    }
    Ok(())
}

/// The same for any payload, which is read once for the check and once for the marks.
fn check_many(
    bytes: &[u8],
    docs: u32,
    head: SegmentHead,
    at: usize,
    marks: &mut [u16],
    now: u16,
) -> Result<(), OpenFault>
    requires at { at ≤ length bytes.now }
    requires few { length bytes.now ≤ LONGEST_FILE }
    requires docs { docs ≤ MOST_DOCUMENTS }
    requires counted { (1 ≤ head.count) × (head.count ≤ docs) }
    requires marks { docs ≤ length marks.old }
    ensures exact { (earlier : List ℕ) → AreMarks now earlier marks.old
        → Answers (λ _. at + head.size) result (payload_end bytes.now docs earlier (told head) at) }
    ensures marks { IfOk result (λ _. (earlier : List ℕ) → AreMarks now earlier marks.old
        → AreMarks now (earlier ++ docs_in bytes.now docs (told head) at) marks.new) }
    ensures count { IfOk result (λ _. length marks.new ≡ length marks.old) }
    ensures place { IfOk result (λ _. at < 2 ^ 32) }
    ensures payload { IfOk result (λ _. IsPayloadAt bytes.now docs (told head) at) }
{
    check_payload(bytes, docs, head, at)?;
    if mark_payload(marks, now, bytes, docs, head, at) {
        return Err(refused(at, OpenWhy::DocTwice));
    }
    Ok(())
}
