ghost use Rattle.std.specs.Prelude.{◌≡◌, ◌≤◌, [], ◌∷◌, ◌++◌, length, map, All, AllPairs, IfErr, IfOk, IsErrOf, OnOk};
ghost use Rattle.std.specs.List.{sum_by};
ghost use Rattle.jass_base.specs.Gaps.{AreDocs};
ghost use Rattle.jass_base.specs.Outside.{Rose, ForContent};
ghost use Rattle.jass_base.specs.Terms.{BytesRise};
ghost use Rattle.weights.specs.Quantizing.{IsImpactWidth};
ghost use Rattle.ciff_read.specs.Walk.{HasKept, LeavesWalk};
ghost use Rattle.impact_segments.specs.OneList.{EndsLow};
ghost use Rattle.index_model.specs.Index.{SegmentData};
ghost use Rattle.index_write.specs.Chosen.{chosen_heads, head_data};
ghost use Rattle.index_write.specs.Streaming.{AreEntries, entry_data};
ghost use Rattle.index_write.specs.declared.term_heads.TermHeads.{TermHeads};
ghost use Rattle.index_import.specs.Private.Faults.{ChangesAt, ChangesGiven};
ghost use Rattle.index_import.specs.Private.Heading.{AreHeads, FailsAllInside, HasOneMore, places_of};
ghost use Rattle.index_import.specs.Private.Outlining.{list_there};
ghost use Rattle.index_import.specs.Private.Ranging.{HasOrder};
ghost use Rattle.index_import.specs.Private.Rereading.{FailsOf};
ghost use Rattle.index_import.specs.Private.Surveying.{AreGiven, HoldsMost, IsReady, KeepsAll};
ghost use Rattle.index_import.specs.declared.list_entry.ListEntry.{ListEntry};
ghost use Rattle.jass_base.specs.declared.limits.TheConstants.{MOST_POSTINGS, MOST_TERMS};

use crate::list_entry::{ListEntry, Place};
use crate::reading::entry_segments;
use crate::weighing::Weighing;
use ciff_read::{CiffFault, CiffWalk};
use impact_segments::{ListSegments, Scratch};
use index_write::laws::made_heads_are_entries;
use index_write::{PayloadHead, TermHeads};
use jass_base::{Cabinet, NoMemory, Row};
use std::alloc::Global;
use weights::{Bits, Range};

/// The terms of lists with the heads of their segments, and the places of the lists.
#[derive(Drop)]
pub(crate) struct Heads {
    pub terms: Row<TermHeads>,
    pub places: Vec<Place>,
}

/// Makes the heads of the segments of lists, which rise by their terms. Those whose postings weren't
/// kept are read again.
pub(crate) fn read_heads<C: Cabinet>(
    alloc: Global,
    walk: &mut CiffWalk,
    files: &mut C,
    weighing: Weighing<'_>,
    bits: Bits,
    range: Range,
    lists: Vec<ListEntry>,
) -> Result<Heads, CiffFault>
    requires ready { IsReady (C.told files.old) walk.old.name walk.old }
    requires given { AreGiven walk.old.kept lists.items }
    requires keep_all { All (KeepsAll walk.old.docs) lists.items }
    requires told { ForContent (C.told files.old) walk.old.name (λ content.
        All (HoldsMost content walk.old.docs) lists.items) }
    requires rising { AllPairs (λ (a b : ListEntry). BytesRise a.term b.term) lists.items }
    requires few { length lists.items ≤ MOST_TERMS }
    requires postings { sum_by (λ (e : ListEntry). e.place.count) lists.items ≤ MOST_POSTINGS }
    requires docs { length weighing.lengths.now ≡ walk.old.docs }
    requires width { IsImpactWidth bits }
    requires low { EndsLow bits range }
    requires order { HasOrder range }
    ensures ready { OnOk result (IsReady (C.told files.old) walk.old.name walk.new) }
    ensures leaves { LeavesWalk walk.old walk.new }
    ensures heads { IfOk result (λ heads. AreHeads (C.told files.old) walk.old.name walk.old.docs
        weighing.entry bits range lists.items heads.terms) }
    ensures as_many { IfOk result (λ heads. length heads.terms ≡ length lists.items) }
    ensures entries { IfOk result (λ heads. AreEntries (map entry_data heads.terms)) }
    ensures places { IfOk result (λ heads. heads.places.items ≡ places_of lists.items) }
    ensures changed { IfErr result (ChangesGiven walk.old.kept) }
    ensures told { ForContent (C.told files.old) walk.old.name (λ content.
        IfErr result (FailsAllInside content walk.old.docs weighing.entry bits range lists.items)) }
    ensures fault { IsErrOf result CiffFault.ReadFault → Rose (C.read_faults files.old) (C.read_faults files.new) }
    ensures stays { C.told files.new ≡ C.told files.old }
    ensures later { C.read_faults files.old ≤ C.read_faults files.new }
    ensures others { C.write_faults files.old ≤ C.write_faults files.new }
{
    made_heads_are_entries();
    let mut reader = match HeadsReader::with_room(alloc, lists.len()) {
        Ok(reader) => reader,
        Err(_) => return Err(CiffFault::NoMemory),
    };
    'lists: for entry in lists {
        match reader.read(walk, files, weighing, bits, range, entry) {
            Ok(()) => {}
            Err(fault) => {
                drop(reader);
                return Err(fault);
            }
        }
    }
    Ok(reader.into_heads())
}

/// The heads that were made so far, and memory that is used again from list to list.
#[derive(Drop)]
struct HeadsReader {
    alloc: Global,
    heads: Heads,
    segments: ListSegments,
    scratch: Scratch,
}

impl HeadsReader {
    /// No heads yet, with room for those of so many lists.
    fn with_room(alloc: Global, lists: usize) -> Result<HeadsReader, NoMemory>
        ensures terms { IfOk result (λ reader. reader.heads.terms ≡ []) }
        ensures places { IfOk result (λ reader. reader.heads.places.items ≡ []) }
    {
        let terms = Row::with_room(alloc, lists)?;
        let places = Vec::with_capacity(alloc, lists)?;
        Ok(HeadsReader {
            alloc,
            heads: Heads { terms, places },
            segments: ListSegments::new(alloc),
            scratch: Scratch::new(alloc),
        })
    }

    /// Makes the heads of a list behind the others.
    #[inline(always)]
    fn read<C: Cabinet>(
        &mut self,
        walk: &mut CiffWalk,
        files: &mut C,
        weighing: Weighing<'_>,
        bits: Bits,
        range: Range,
        entry: ListEntry,
    ) -> Result<(), CiffFault>
        requires ready { IsReady (C.told files.old) walk.old.name walk.old }
        requires given { HasKept walk.old.kept entry.place.at entry.place.count }
        requires keeps { KeepsAll walk.old.docs entry }
        requires told { ForContent (C.told files.old) walk.old.name (λ content.
            HoldsMost content walk.old.docs entry) }
        requires docs { length weighing.lengths.now ≡ walk.old.docs }
        requires width { IsImpactWidth bits }
        requires low { EndsLow bits range }
        requires order { HasOrder range }
        ensures ready { OnOk result (IsReady (C.told files.old) walk.old.name walk.new) }
        ensures leaves { LeavesWalk walk.old walk.new }
        ensures heads { OnOk result (HasOneMore (C.told files.old) walk.old.name walk.old.docs
            weighing.entry bits range entry self.old.heads.terms self.new.heads.terms) }
        ensures changed { IfErr result (ChangesAt entry.place.at) }
        ensures places { OnOk result
            (self.new.heads.places.items ≡ self.old.heads.places.items ++ entry.place ∷ []) }
        ensures told { ForContent (C.told files.old) walk.old.name (λ content. IfErr result
            (FailsOf weighing.entry bits range (list_there content walk.old.docs entry.place.at).postings)) }
        ensures fault { IsErrOf result CiffFault.ReadFault
            → Rose (C.read_faults files.old) (C.read_faults files.new) }
        ensures stays { C.told files.new ≡ C.told files.old }
        ensures later { C.read_faults files.old ≤ C.read_faults files.new }
        ensures others { C.write_faults files.old ≤ C.write_faults files.new }
    {
        match entry_segments(
            &mut self.segments,
            &mut self.scratch,
            walk,
            files,
            weighing,
            bits,
            range,
            &entry,
        ) {
            Ok(()) => {}
            Err(fault) => return Err(fault),
        }
        match self.push(entry, weighing.lengths.len() as u32) {
            Ok(()) => Ok(()),
            Err(_) => Err(CiffFault::NoMemory),
        }
    }

    /// Puts the term and the place of a list behind the others, with the heads of the segments that
    /// were made of it, in an index of so many documents.
    #[inline(always)]
    fn push(&mut self, entry: ListEntry, docs: u32) -> Result<(), NoMemory>
        requires { All (λ (s : SegmentData). AreDocs docs s.docs) self.old.segments }
        ensures positive { OnOk result (All (λ (s : SegmentData). 1 ≤ s.impact) self.old.segments) }
        ensures terms { OnOk result ((own : TermHeads) × (own.term ≡ entry.term)
            × (map head_data own.heads ≡ chosen_heads docs self.old.segments)
            × (self.new.heads.terms ≡ self.old.heads.terms ++ own ∷ [])) }
        ensures places { OnOk result
            (self.new.heads.places.items ≡ self.old.heads.places.items ++ entry.place ∷ []) }
    {
        let (term, place) = entry.into_parts();
        let term = term.into_text(self.alloc)?;
        let heads = list_heads(self.alloc, &self.segments, docs)?;
        match self.heads.terms.push(TermHeads { term, heads }) {
            Ok(()) => {}
            Err(_) => return Err(NoMemory),
        }
        self.heads.places.push(place)?;
        Ok(())
    }

    /// All that were made.
    fn into_heads(self) -> Heads
        ensures { result ≡ self.heads }
    {
        let HeadsReader { heads, .. } = self;
        heads
    }
}

/// The heads of segments, each in its shortest codec, in an index of so many documents.
fn list_heads(
    alloc: Global,
    segments: &ListSegments,
    docs: u32,
) -> Result<Row<PayloadHead>, NoMemory>
    requires { All (λ (s : SegmentData). AreDocs docs s.docs) segments.now }
    ensures positive { OnOk result (All (λ (s : SegmentData). 1 ≤ s.impact) segments.now) }
    ensures heads { IfOk result (λ heads. map head_data heads ≡ chosen_heads docs segments.now) }
{
    let mut heads = Row::with_room(alloc, segments.len())?;
    for index in 0..segments.len() {
        let (impact, here) = segments.segment(index);
        heads.push(PayloadHead::of(impact, here, docs))?;
    }
    Ok(heads)
}
