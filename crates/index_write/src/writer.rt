//! An index file that is written term by term.

ghost use Rattle.std.specs.Prelude.{◌≡◌, ◌<◌, ◌≤◌, ◌^◌, length, map, All, AllPairs, IfErr, IfOk, IsErrOf, OnErr, OnOk};
ghost use Rattle.jass_base.specs.Gaps.{AreDocs};
ghost use Rattle.jass_base.specs.Outside.{Appended, Rose, Sets};
ghost use Rattle.jass_base.specs.Segments.{SharesNoDocument};
ghost use Rattle.jass_base.specs.declared.segment.Segment.{Segment};
ghost use Rattle.index_model.specs.Views.{segment_data};
ghost use Rattle.index_layout.specs.Heads.{payloads_size};
ghost use Rattle.index_layout.specs.Layout.{file_length, front_bytes};
ghost use Rattle.index_write.specs.Chosen.{chosen_heads, chosen_payloads, head_data};
ghost use Rattle.index_write.specs.Private.Pieces.{Begins, Continues};
ghost use Rattle.index_write.specs.Saving.{LeavesPrefix, Untouched};
ghost use Rattle.index_write.specs.Streaming.{AreEntries, AreNames, Unappended, Unappending, Unbegun, behind_term, change_of, entries_totals, entry_data, heads_left, next_heads};
ghost use Rattle.jass_base.specs.declared.limits.TheConstants.{LONGEST_FILE};

use crate::bytes::first_of;
use crate::change::same_heads;
use crate::fault::{SaveFault, TermFault};
use crate::head::PayloadHead;
use crate::laws::{changes_are_found, entries_are_small};
use crate::payloads::put_payloads;
use crate::pieced_front::put_front;
use crate::sums::heads_sums;
use crate::term_heads::TermHeads;
use jass_base::{Cabinet, Row, Segment, Text, Totals};
use std::alloc::Global;
use std::marker::Model;

/// Writes an index file: what stands before the payloads first, and then the payloads, term by term.
#[derive(Drop)]
pub struct IndexWriter {
    name: Text,
    /// What the file counts, kept from the start so that the heads aren't gone over again.
    totals: Totals,
    entries: Row<TermHeads>,
    left: usize,
    /// The payloads of one term, in room that each term uses again.
    payloads: Row<u8>,
    ghost totals_are: { totals ≡ entries_totals totals.docs (map entry_data entries) },
}

impl Model for IndexWriter {
    ghost use Rattle.std.specs.Prelude.{map};
    ghost use Rattle.index_write.specs.Streaming.{WriterView, entry_data, writer_view};
    ghost use Rattle.index_write.specs.Private.Writer.{IsWriter};

    ghost Value = { WriterView };

    ghost view = { λ w. writer_view w.name w.totals.docs w.entries w.left };

    ghost invariant = { λ w. IsWriter (writer_view w.name w.totals.docs w.entries w.left) };
}

impl IndexWriter {
    /// Makes the file of a name what stands before the payloads of these names, terms and heads. The
    /// length of the whole file is judged, and then all memory taken, before the file is touched.
    /// TooLarge comes exactly where that length is above 2^32, and a WriteFault only where the files
    /// counted one.
    pub fn new<C: Cabinet>(
        alloc: Global,
        names: Row<Text>,
        terms: Row<TermHeads>,
        files: &mut C,
        name: &str,
    ) -> Result<IndexWriter, SaveFault>
        requires names { AreNames names }
        requires terms { AreEntries (map entry_data terms) }
        ensures name { IfOk result (λ writer. writer.name ≡ name.now) }
        ensures docs { IfOk result (λ writer. writer.docs ≡ length names) }
        ensures entries { IfOk result (λ writer. writer.entries ≡ map entry_data terms) }
        ensures left { IfOk result (λ writer. writer.left ≡ length terms) }
        ensures content { OnOk result (Sets (C.told files.old) (C.told files.new) name.now
            (front_bytes names (map entry_data terms))) }
        ensures fits { OnOk result (file_length names (map entry_data terms) ≤ LONGEST_FILE) }
        ensures fault { IfErr result (Unbegun (file_length names (map entry_data terms))) }
        ensures untouched { IfErr result (Untouched files.old files.new) }
        ensures front { OnErr result (LeavesPrefix (C.told files.old) (C.told files.new) name.now
            (front_bytes names (map entry_data terms))) }
        ensures cause { IsErrOf result SaveFault.WriteFault
            → Rose (C.write_faults files.old) (C.write_faults files.new) }
        ensures later { C.write_faults files.old ≤ C.write_faults files.new }
        ensures others { C.read_faults files.old ≤ C.read_faults files.new }
    {
        entries_are_small();
        let sums = heads_sums(terms.as_slice());
        let totals = Totals {
            docs: names.len() as u32,
            terms: terms.len() as u32,
            postings: sums.postings,
            greatest: sums.greatest,
        };
        let begun = begin(
            alloc,
            names.as_slice(),
            terms.as_slice(),
            &totals,
            sums.payloads,
            files,
            name,
        );
        drop(names);
        match begun {
            Ok(kept) => Ok(IndexWriter {
                name: kept,
                totals,
                left: terms.len(),
                entries: terms,
                payloads: Row::new(alloc),
            }),
            Err(fault) => {
                drop(terms);
                Err(fault)
            }
        }
    }

    /// Appends the payloads of the next term, whose segments must have the heads that `new` was
    /// given. All memory is taken, and the heads compared, before the file is touched; a WriteFault
    /// comes only where the files counted one.
    pub fn term<C: Cabinet>(
        self,
        segments: &[Segment],
        files: &mut C,
    ) -> Result<IndexWriter, TermFault>
        requires left { 1 ≤ self.left }
        requires docs { All (λ (s : Segment). AreDocs self.docs s.docs) segments.now }
        requires once { AllPairs SharesNoDocument segments.now }
        ensures writer { IfOk result (λ writer. writer ≡ behind_term self) }
        ensures heads { OnOk result (chosen_heads self.docs (map segment_data segments.now) ≡ next_heads self) }
        ensures content { Appended (C.told files.old) (C.told files.new) self.name
            (chosen_payloads self.docs (map segment_data segments.now)) result }
        ensures fault { IfErr result (Unappended (change_of (next_heads self)
            (chosen_heads self.docs (map segment_data segments.now)))) }
        ensures untouched { IfErr result (Unappending files.old files.new) }
        ensures cause { IsErrOf result TermFault.WriteFault
            → Rose (C.write_faults files.old) (C.write_faults files.new) }
        ensures later { C.write_faults files.old ≤ C.write_faults files.new }
        ensures others { C.read_faults files.old ≤ C.read_faults files.new }
    {
        let IndexWriter {
            name,
            totals,
            entries,
            left,
            mut payloads,
        } = self;
        let heads = heads_left(entries.as_slice(), left);
        let appended = append_payloads(
            heads,
            segments,
            totals.docs,
            &mut payloads,
            files,
            name.as_str(),
        );
        match appended {
            Ok(()) => Ok(IndexWriter {
                name,
                totals,
                entries,
                left: left - 1,
                payloads,
            }),
            Err(fault) => {
                drop(payloads);
                drop(entries);
                drop(name);
                Err(fault)
            }
        }
    }

    /// The totals of the file, all of whose terms were written.
    pub fn finish(self) -> Totals
        requires { self.left ≡ 0 }
        ensures { result ≡ entries_totals self.docs self.entries }
    {
        self.totals
    }
}

/// Makes a file what stands before the payloads of names, terms and heads that have these totals and
/// so many bytes of payloads, and gives the file's name to keep.
fn begin<C: Cabinet>(
    alloc: Global,
    names: &[Text],
    entries: &[TermHeads],
    totals: &Totals,
    payloads: u64,
    files: &mut C,
    name: &str,
) -> Result<Text, SaveFault>
    requires names { AreNames names.now }
    requires entries { AreEntries (map entry_data entries.now) }
    requires totals { totals.now ≡ entries_totals (length names.now) (map entry_data entries.now) }
    requires payloads { payloads ≡ payloads_size (map entry_data entries.now) }
    requires few { payloads < 2 ^ 62 }
    ensures name { IfOk result (λ kept. kept ≡ name.now) }
    ensures begun { Begins C.Cabinet files.old files.new name.now (front_bytes names.now (map entry_data entries.now))
        (file_length names.now (map entry_data entries.now)) result }
{
    entries_are_small();
    let first = match first_of(alloc, names, entries, totals, payloads) {
        Ok(first) => first,
        Err(fault) => return Err(fault),
    };
    let kept = match Text::from_str(alloc, name) {
        Ok(kept) => kept,
        Err(_) => {
            drop(first);
            return Err(SaveFault::NoMemory);
        }
    };
    let put = put_front(first.as_slice(), names, entries, files, name);
    drop(first);
    match put {
        Ok(()) => Ok(kept),
        Err(_) => {
            drop(kept);
            Err(SaveFault::WriteFault)
        }
    }
}

/// The heads of the first of so many terms at the end.
fn heads_left(entries: &[TermHeads], left: usize) -> &[PayloadHead]
    requires some { 1 ≤ left }
    requires within { left ≤ length entries.now }
    ensures { map head_data result.now ≡ heads_left (map entry_data entries.now) left }
{
    let entry = &entries[entries.len() - left];
    entry.heads.as_slice()
}

/// Appends the payloads of segments that have these heads to a file, in one piece.
fn append_payloads<C: Cabinet>(
    heads: &[PayloadHead],
    segments: &[Segment],
    d: u32,
    payloads: &mut Row<u8>,
    files: &mut C,
    name: &str,
) -> Result<(), TermFault>
    requires { All (λ (s : Segment). AreDocs d s.docs) segments.now }
    ensures { Continues C.Cabinet files.old files.new name.now (map head_data heads.now)
        (chosen_heads d (map segment_data segments.now)) (chosen_payloads d (map segment_data segments.now)) result }
{
    changes_are_found();
    match same_heads(heads, segments, d) {
        Ok(()) => {}
        Err(change) => {
            return Err(TermFault::Changed {
                kept: change.kept,
                found: change.found,
            });
        }
    }
    payloads.truncate(0);
    match put_payloads(segments, heads, d, payloads) {
        Ok(()) => {}
        Err(_) => return Err(TermFault::NoMemory),
    }
    match files.append(name, payloads.as_slice()) {
        Ok(()) => Ok(()),
        Err(_) => Err(TermFault::WriteFault),
    }
}
