ghost use Rattle.std.specs.Prelude.{◌≡◌, ◌≤◌, ◌<◌, All, false, length};
ghost use Rattle.index_layout.specs.Reading.{docs_in};
ghost use Rattle.index_file.specs.Marks.{marked, meets_marked};
ghost use Rattle.index_file.specs.Parts.{told, IsPayloadAt};

use crate::segment_head::SegmentHead;
use segment_codecs::SegmentCursor;

/// The mark of the next term, which no document has. Behind the greatest one all marks are taken off.
pub fn next_mark(marks: &mut [u16], last: u16) -> u16
    requires { All (λ mark. mark ≤ last) marks.old }
    ensures below { All (λ mark. mark < result) marks.new }
    ensures count { length marks.new ≡ length marks.old }
{
    if last < u16::MAX {
        return last + 1;
    }
    marks.fill(0);
    1
}

/// Marks the documents of a payload in turn, up to the first that has the mark already, and tells
/// whether there is one.
#[inline(never)]
pub(crate) fn mark_payload(
    marks: &mut [u16],
    now: u16,
    bytes: &[u8],
    docs: u32,
    head: SegmentHead,
    from: usize,
) -> bool
    requires payload { IsPayloadAt bytes.now docs (told head) from }
    requires marks { docs ≤ length marks.old }
    ensures met { result ≡ meets_marked now (docs_in bytes.now docs (told head) from) marks.old }
    ensures marks { result ≡ false
        → marks.new ≡ marked now (docs_in bytes.now docs (told head) from) marks.old }
{
    let payload = &bytes[from..from + head.size as usize];
    let mut cursor = SegmentCursor::new(head.codec, head.count, docs);
    let mut block = [0u32; 128];
    let mut left = head.count as usize;
    'parts: while left > 0 {
        let given = cursor.next_block(payload, &mut block);
        if mark_docs(marks, now, &block[..given]) {
            return true;
        }
        left -= given;
    }
    false
}

/// The same for documents in a row.
#[inline(always)]
pub(crate) fn mark_docs(marks: &mut [u16], now: u16, docs: &[u32]) -> bool
    requires { All (λ doc. doc < length marks.old) docs.now }
    ensures met { result ≡ meets_marked now docs.now marks.old }
    ensures marks { result ≡ false → marks.new ≡ marked now docs.now marks.old }
    ensures count { length marks.new ≡ length marks.old }
{
    'docs: for doc in docs {
        let at = *doc as usize;
        if marks[at] == now {
            return true;
        }
        marks[at] = now;
    }
    false
}
