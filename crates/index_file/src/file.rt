ghost use Rattle.std.specs.Prelude.{ℕ, ◌≡◌, ◌+◌, ◌≤◌, ◌<◌, ◌↔◌, List, [], ◌∷◌, Some, length, take, drop, slice_get, slice_range, All, IfErr, IfOk, IfSome, IsSome};
ghost use Rattle.std.specs.Str.{IsUtf8};
ghost use Rattle.std.specs.Ordering.{nat_cmp};
ghost use Rattle.std.specs.Cmp.Lexicographic.{slice_cmp};
ghost use Rattle.jass_base.specs.Gaps.{AreDocs};
ghost use Rattle.lane_kernels.specs.Bitmap.{set_bits};
ghost use Rattle.plain_codecs.specs.Bitmap.{bitmap_size};
ghost use Rattle.segment_codecs.specs.Codecs.{payload_of};
ghost use Rattle.index_model.specs.Querying.{segments_at};
ghost use Rattle.index_layout.specs.Reading.{read_index};
ghost use Rattle.index_layout.specs.Refusals.{Answers, Fails};
ghost use Rattle.index_layout.specs.Totals.{totals_of};
ghost use Rattle.index_layout.specs.View.{FileView, IsFileView, file_bytes, view_payloads};
ghost use Rattle.index_file.specs.Giving.{Gives};
ghost use Rattle.index_file.specs.Places.{codec_at, codec_use, segment_at, term_at};
ghost use Rattle.index_file.specs.Private.Outlines.{AreParts, after_outline};
ghost use Rattle.index_file.specs.Private.Payloads.{payload_place};
ghost use Rattle.index_file.specs.Private.Samples.{first_eight};

use crate::cursor::Cursor;
use crate::ends::check_ends;
use crate::figures::{CodecUse, Head};
use crate::head_table::HeadTable;
use crate::moved::moved;
use crate::number::{u32_at, u64_at};
use crate::outline::{Outline, take_apart};
use crate::payloads::read_payloads;
use crate::samples::sample_terms;
use crate::segment_head::{PlacedHead, SegmentHead};
use crate::span::{Span, part};
use crate::term_table::TermTable;
use crate::uses::codec_uses;
use index_layout::OpenFault;
use index_layout::laws::files_are_read;
use jass_base::laws::gap_varints_are_read;
use jass_base::{Names, Row, Steps, Totals, known_gap};
use segment_codecs::laws::{
    bitmaps_are_their_documents, codecs_have_their_numbers, payloads_are_read,
    payloads_have_few_bytes,
};
use segment_codecs::{Codec, SegmentCursor};
use std::alloc::Global;
use std::cmp::Ordering;
use std::marker::Model;
use std::sync::ledger::Ledger;

/// A checked index file. Contracts see it as its view. It holds the front with the names and the payloads as they
/// stand in the file, and the terms with their heads in tables.
#[derive(Drop)]
pub struct IndexFile {
    front: Row<u8>,
    places: Row<u32>,
    terms: TermTable,
    groups: Row<u32>,
    pub(crate) payloads: Row<u8>,
    samples: Row<u64>,
}

impl Model for IndexFile {
    ghost use Rattle.index_file.specs.Private.Opened.{IsOpened, view_of};
    ghost use Rattle.index_layout.specs.View.{FileView};

    ghost Value = { FileView };

    ghost view = { λ f. view_of f.front f.places f.terms f.groups f.payloads };

    ghost invariant = { λ f. IsOpened f.front f.places f.terms f.groups f.payloads f.samples
        (view_of f.front f.places f.terms f.groups f.payloads) };
}

impl IndexFile {
    /// The file of the bytes, or the first refusal.
    pub fn from_bytes(alloc: Global, bytes: Row<u8>) -> Result<IndexFile, OpenFault>
        ensures exact { Answers (λ file. file) result (read_index bytes) }
        ensures accepted { IfOk result (λ file. (bytes ≡ file_bytes file) × IsFileView file) }
    {
        files_are_read();
        let (outline, front, payloads, place) = take_apart(alloc, bytes)?;
        match IndexFile::of_parts(alloc, outline, front, payloads, place) {
            Ok(file) => Ok(file),
            Err(fault) => Err(fault),
        }
    }

    /// The file of its parts: the tables of what stands before the payloads, the front with the names, and the
    /// payloads, which begin at a place; or the first refusal of the payloads or of the totals.
    pub(crate) fn of_parts(
        alloc: Global,
        outline: Outline,
        front: Row<u8>,
        payloads: Row<u8>,
        place: usize,
    ) -> Result<IndexFile, OpenFault>
        requires parts { (bytes : List ℕ) × AreParts bytes outline front payloads place }
        ensures accepted { IfOk result (λ file. (bytes : List ℕ) → AreParts bytes outline front payloads place
            → (bytes ≡ file_bytes file) × IsFileView file) }
        ensures refused { IfErr result (λ fault. (bytes : List ℕ) → AreParts bytes outline front payloads place
            → Fails fault (after_outline bytes outline place)) }
    {
        files_are_read();
        payloads_are_read();
        codecs_have_their_numbers();
        let Outline {
            places,
            terms,
            count: _,
            sums,
        } = outline;
        let docs = places.len() as u32;
        let (groups, end) = match read_payloads(
            alloc,
            payloads.as_slice(),
            docs,
            &terms.heads,
            terms.rows.as_slice(),
        ) {
            Ok(read) => read,
            Err(fault) => return Err(moved(fault, place)),
        };
        let size = place + payloads.len();
        check_ends(front.as_slice(), size, sums, place + end)?;
        let samples = match sample_terms(alloc, terms.text.as_slice(), terms.rows.as_slice()) {
            Ok(samples) => samples,
            Err(_) => return Err(OpenFault::NoMemory),
        };
        Ok(IndexFile {
            front,
            places,
            terms,
            groups,
            payloads,
            samples,
        })
    }

    /// What was checked when the file was opened: a caller learns it by the call.
    pub fn is_checked(&self)
        ensures { IsFileView self.now }
    {
        let _ = &self.front;
    }

    /// The numbers of documents, terms and postings, and the greatest impact.
    pub fn totals(&self) -> Totals
        ensures { result ≡ totals_of self.now.index }
    {
        let front = self.front.as_slice();
        Totals {
            docs: self.docs(),
            terms: self.terms(),
            postings: u64_at(front, 24),
            greatest: u32_at(front, 32) as u16,
        }
    }

    /// How many segments are in each codec.
    pub fn codecs(&self) -> CodecUse
        ensures { result ≡ codec_use self.now.codecs }
    {
        let uses = codec_uses(&self.terms.heads);
        CodecUse {
            varbyte: uses[0],
            packed: uses[1],
            bitmap: uses[2],
            simple8: uses[3],
        }
    }

    /// The number of documents.
    pub fn docs(&self) -> u32
        ensures { result ≡ length self.now.index.names }
    {
        self.places.len() as u32
    }

    /// The number of terms.
    pub fn terms(&self) -> u32
        ensures { result ≡ length self.now.index.terms }
    {
        (self.terms.rows.len() - 1) as u32
    }

    /// The name of a document.
    pub fn name(&self, doc: u32) -> &str
        requires { doc < length self.now.index.names }
        ensures { slice_get self.now.index.names doc ≡ Some result.now }
    {
        let front = self.front.as_slice();
        let at = self.places.as_slice()[doc as usize] as usize;
        let size = u32_at(front, at) as usize;
        unsafe { std::str::from_utf8_unchecked(&front[at + 4..at + 4 + size]) }
    }

    /// A term by its number.
    pub fn term(&self, t: u32) -> &str
        requires { t < length self.now.index.terms }
        ensures { result.now ≡ term_at self.now.index.terms t }
    {
        unsafe { std::str::from_utf8_unchecked(self.term_bytes(t)) }
    }

    /// The bytes of a term.
    fn term_bytes(&self, t: u32) -> &[u8]
        requires { t < length self.now.index.terms }
        ensures term { result.now ≡ term_at self.now.index.terms t }
        ensures text { IsUtf8 result.now }
    {
        let rows = self.terms.rows.as_slice();
        let span = Span {
            from: rows[t as usize].text,
            to: rows[t as usize + 1].text,
        };
        part(self.terms.text.as_slice(), span)
    }

    /// How a term stands to a text, whose first eight bytes are given as a number.
    pub(crate) fn order(&self, t: u32, text: &[u8], first: u64) -> Ordering
        requires t { t < length self.now.index.terms }
        requires first { first ≡ first_eight text.now }
        requires bytes { All (λ byte. byte < 256) text.now }
        ensures { result ≡ slice_cmp nat_cmp (term_at self.now.index.terms t) text.now }
    {
        if t % 64 == 0 {
            let sample = self.samples.as_slice()[t as usize / 64];
            if sample < first {
                return Ordering::Less;
            }
            if sample > first {
                return Ordering::Greater;
            }
        }
        self.term_bytes(t).cmp(text)
    }

    /// How many segments a term has; 0 where there is no such term.
    pub fn segments(&self, t: u32) -> u32
        ensures { result ≡ length (segments_at self.now.index.terms t) }
    {
        if t >= self.terms() {
            return 0;
        }
        let rows = self.terms.rows.as_slice();
        rows[t as usize + 1].head - rows[t as usize].head
    }

    /// The head of a segment of a term.
    #[inline(always)]
    fn segment_head(&self, t: u32, s: u32) -> SegmentHead
        requires t { t < length self.now.index.terms }
        requires s { s < length (segments_at self.now.index.terms t) }
        ensures impact { result.impact ≡ (segment_at self.now.index.terms t s).impact }
        ensures count { result.count ≡ length (segment_at self.now.index.terms t s).docs }
        ensures codec { result.codec ≡ codec_at self.now.codecs t s }
    {
        let first = self.terms.rows.as_slice()[t as usize].head as usize;
        self.terms.heads.at(first + s as usize)
    }

    /// The head of a segment of a term, and the place of its payload.
    #[inline(always)]
    pub(crate) fn segment(&self, t: u32, s: u32) -> PlacedHead
        requires t { t < length self.now.index.terms }
        requires s { s < length (segments_at self.now.index.terms t) }
        ensures impact { result.head.impact ≡ (segment_at self.now.index.terms t s).impact }
        ensures count { result.head.count ≡ length (segment_at self.now.index.terms t s).docs }
        ensures codec { result.head.codec ≡ codec_at self.now.codecs t s }
        ensures within { result.place + result.head.size ≤ length (view_payloads self.now) }
        ensures docs { AreDocs (length self.now.index.names) (segment_at self.now.index.terms t s).docs }
        ensures payload { slice_range (view_payloads self.now) result.place (result.place + result.head.size)
            ≡ payload_of result.head.codec (length self.now.index.names) (segment_at self.now.index.terms t s).docs }
    {
        payloads_have_few_bytes();
        let heads = &self.terms.heads;
        let row = self.terms.rows.as_slice()[t as usize];
        let group_place = self.groups.as_slice()[row.group as usize + s as usize / 4];
        let at = row.head as usize + s as usize;
        let before = s as usize % 4;
        let place = place_behind(heads, at - before, group_place, before);
        PlacedHead {
            head: heads.at(at),
            place: place as u32,
        }
    }

    /// The head of a segment of a term.
    pub fn head(&self, t: u32, s: u32) -> Head
        requires t { t < length self.now.index.terms }
        requires s { s < length (segments_at self.now.index.terms t) }
        ensures impact { result.impact ≡ (segment_at self.now.index.terms t s).impact }
        ensures count { result.count ≡ length (segment_at self.now.index.terms t s).docs }
    {
        let head = self.segment_head(t, s);
        Head {
            impact: head.impact,
            count: head.count,
        }
    }

    /// A cursor at the first document of a segment.
    pub fn cursor(&self, t: u32, s: u32) -> Cursor
        requires t { t < length self.now.index.terms }
        requires s { s < length (segments_at self.now.index.terms t) }
        ensures { Gives self.now result (segment_at self.now.index.terms t s).docs }
    {
        let segment = self.segment(t, s);
        Cursor {
            segment: SegmentCursor::new(segment.head.codec, segment.head.count, self.docs()),
            from: segment.place,
            size: segment.head.size,
        }
    }

    /// Writes the next documents to the front of `out`, and returns how many: 1 to 128, or 0 at the
    /// end. What stands behind them in `out` is left open.
    pub fn next_block<L: Ledger>(
        &self,
        cursor: &mut Cursor,
        out: &mut [u32; 128],
        steps: &mut Steps<L>,
    ) -> usize
        requires stands { (docs : List ℕ) × Gives self.now cursor.old docs }
        ensures most { result ≤ 128 }
        ensures block { (docs : List ℕ) → Gives self.now cursor.old docs → take result out.new ≡ take result docs }
        ensures rest { (docs : List ℕ) → Gives self.now cursor.old docs → Gives self.now cursor.new (drop result docs) }
        ensures end { (docs : List ℕ) → Gives self.now cursor.old docs → (result ≡ 0 ↔ docs ≡ []) }
        ensures steps { steps.new ≡ steps.old + result }
    {
        let from = cursor.from as usize;
        let payload = &self.payloads.as_slice()[from..from + cursor.size as usize];
        let given = cursor.segment.next_block(payload, out);
        steps.add(given as u64);
        given
    }

    /// The document of a segment that has one.
    pub fn first_doc<L: Ledger>(&self, t: u32, s: u32, steps: &mut Steps<L>) -> u32
        requires t { t < length self.now.index.terms }
        requires s { s < length (segments_at self.now.index.terms t) }
        requires one { length (segment_at self.now.index.terms t s).docs ≡ 1 }
        ensures doc { (segment_at self.now.index.terms t s).docs ≡ result ∷ [] }
        ensures steps { steps.new ≡ steps.old + 1 }
    {
        gap_varints_are_read();
        let found = self.segment(t, s);
        match found.head.codec {
            Codec::Varbyte => {
                steps.add(1);
                known_gap(self.payloads.as_slice(), found.place as usize).0
            }
            _ => self.first_of_block(t, s, steps),
        }
    }

    /// The same in any codec.
    fn first_of_block<L: Ledger>(&self, t: u32, s: u32, steps: &mut Steps<L>) -> u32
        requires t { t < length self.now.index.terms }
        requires s { s < length (segments_at self.now.index.terms t) }
        requires one { length (segment_at self.now.index.terms t s).docs ≡ 1 }
        ensures doc { (segment_at self.now.index.terms t s).docs ≡ result ∷ [] }
        ensures steps { steps.new ≡ steps.old + 1 }
    {
        let mut cursor = self.cursor(t, s);
        let mut block = [0u32; 128];
        self.next_block(&mut cursor, &mut block, steps);
        block[0]
    }
}

/// The place behind so many payloads, the first of which begins at a place; their heads are those from a number
/// on, and there is one more behind them. All three sizes are looked at whatever the number, which no processor
/// foresees.
#[inline(always)]
fn place_behind(heads: &HeadTable, from: usize, first: u32, count: usize) -> usize
    requires few { count < 4 }
    requires there { from + count < length heads.now }
    ensures { result ≡ payload_place (drop from heads.now) first count }
{
    // Every number of a head fits, as their count does.
    let _ = heads.len();
    let mut place = first as usize;
    'heads: for i in 0..3 {
        let size = heads.at(from + count.min(i)).size as usize;
        place += if i < count { size } else { 0 };
    }
    place
}

impl Names for IndexFile {
    ghost names = { λ file. file.index.names };

    fn docs(&self) -> u32 {
        self.docs()
    }

    fn name(&self, doc: u32) -> &str {
        self.name(doc)
    }
}
