//! The terms and the payloads of lists, spelled as an index file has them.

ghost use Rattle.std.specs.Prelude.{ℕ, ◌≡◌, ◌≤◌, [], ◌++◌, List, length, map, All, AllPairs, IfErr, IfOk, IsErrOf, OnOk};
ghost use Rattle.std.specs.List.{sum_by};
ghost use Rattle.jass_base.specs.Gaps.{AreDocs};
ghost use Rattle.jass_base.specs.Outside.{Rose, ForContent};
ghost use Rattle.jass_base.specs.Terms.{BytesRise};
ghost use Rattle.weights.specs.Quantizing.{IsImpactWidth};
ghost use Rattle.ciff_read.specs.Walk.{HasKept, LeavesWalk};
ghost use Rattle.impact_segments.specs.OneList.{EndsLow};
ghost use Rattle.index_model.specs.Index.{SegmentData, TermData};
ghost use Rattle.index_write.specs.Chosen.{chosen_heads, chosen_payloads, head_data};
ghost use Rattle.index_write.specs.Spelled.{AreSpelled};
ghost use Rattle.index_write.specs.Streaming.{AreNames};
ghost use Rattle.index_import.specs.Importing.{ImportChanges};
ghost use Rattle.index_import.specs.Private.Faults.{ChangesAt, ChangesGiven};
ghost use Rattle.index_import.specs.Private.Heading.{FailsAllInside};
ghost use Rattle.index_import.specs.Private.KeptDocs.{names_in};
ghost use Rattle.index_import.specs.Private.Outlining.{list_there};
ghost use Rattle.index_import.specs.Private.Ranging.{HasOrder};
ghost use Rattle.index_import.specs.Private.Rereading.{FailsOf};
ghost use Rattle.index_import.specs.Private.Spelling.{AreOf, IsSpelling, PutsTerm, SpellsOne};
ghost use Rattle.index_import.specs.Private.Surveying.{AreGiven, HoldsMost, IsReady, KeepsAll};
ghost use Rattle.index_import.specs.Private.Writing.{Writes};
ghost use Rattle.index_import.specs.declared.list_entry.ListEntry.{ListEntry};
ghost use Rattle.jass_base.specs.declared.limits.TheConstants.{LONGEST_TERM, MOST_POSTINGS, MOST_TERMS};

use crate::fault::ImportFault;
use crate::kept_docs::KeptDocs;
use crate::list_entry::ListEntry;
use crate::reading::entry_segments;
use crate::weighing::Weighing;
use crate::writing::not_begun;
use ciff_read::{CiffFault, CiffWalk};
use impact_segments::{ListSegments, Scratch};
use index_write::laws::{appended_payloads_make_the_text, made_heads_are_entries};
use index_write::{Blocks, PayloadHead, SpelledTerms, write_parts};
use jass_base::{Cabinet, NoMemory, Row, Totals};
use std::alloc::Global;
use weights::{Bits, Range};

/// The terms of lists with their heads, and the payloads of all segments.
#[derive(Drop)]
pub(crate) struct Spelling {
    pub terms: SpelledTerms,
    pub payloads: Blocks,
}

/// Spells the terms and the payloads of lists, which rise by their terms. Those whose postings weren't
/// kept are read again. What was kept of a list is let go behind it, so that the bytes get its memory.
pub(crate) fn spell_lists<C: Cabinet>(
    alloc: Global,
    walk: &mut CiffWalk,
    files: &mut C,
    weighing: Weighing<'_>,
    bits: Bits,
    range: Range,
    lists: Vec<ListEntry>,
) -> Result<Spelling, CiffFault>
    requires ready { IsReady (C.told files.old) walk.old.name walk.old }
    requires given { AreGiven walk.old.kept lists.items }
    requires keep_all { All (KeepsAll walk.old.docs) lists.items }
    requires told { ForContent (C.told files.old) walk.old.name (λ content.
        All (HoldsMost content walk.old.docs) lists.items) }
    requires rising { AllPairs (λ (a b : ListEntry). BytesRise a.term b.term) lists.items }
    requires few { length lists.items ≤ MOST_TERMS }
    requires postings { sum_by (λ (e : ListEntry). e.place.count) lists.items ≤ MOST_POSTINGS }
    requires docs { length weighing.lengths.now ≡ walk.old.docs }
    requires width { IsImpactWidth bits }
    requires low { EndsLow bits range }
    requires order { HasOrder range }
    ensures spelled { IfOk result (λ s. IsSpelling (C.told files.old) walk.old.name walk.old.docs
        weighing.entry bits range lists.items s.terms s.payloads) }
    ensures changed { IfErr result (ChangesGiven walk.old.kept) }
    ensures told { ForContent (C.told files.old) walk.old.name (λ content.
        IfErr result (FailsAllInside content walk.old.docs weighing.entry bits range lists.items)) }
    ensures fault { IsErrOf result CiffFault.ReadFault → Rose (C.read_faults files.old) (C.read_faults files.new) }
    ensures stays { C.told files.new ≡ C.told files.old }
    ensures later { C.read_faults files.old ≤ C.read_faults files.new }
    ensures others { C.write_faults files.old ≤ C.write_faults files.new }
{
    made_heads_are_entries();
    appended_payloads_make_the_text();
    let mut speller = Speller::new(alloc);
    'lists: for entry in lists {
        match speller.spell(walk, files, weighing, bits, range, &entry) {
            Ok(()) => {}
            Err(fault) => {
                drop(speller);
                return Err(fault);
            }
        }
        drop(entry);
    }
    match speller.finish() {
        Ok(spelling) => Ok(spelling),
        Err(_) => Err(CiffFault::NoMemory),
    }
}

/// What is spelled of lists so far, and memory that is used again from list to list.
#[derive(Drop)]
struct Speller {
    alloc: Global,
    terms: SpelledTerms,
    /// The payloads that stand in full blocks, and those behind them.
    payloads: Blocks,
    block: Row<u8>,
    segments: ListSegments,
    scratch: Scratch,
    heads: Row<PayloadHead>,
}

impl Speller {
    /// Nothing is spelled yet, and no memory is taken.
    fn new(alloc: Global) -> Speller
        ensures terms { AreSpelled result.terms [] }
        ensures payloads { result.payloads ++ result.block ≡ [] }
    {
        Speller {
            alloc,
            terms: SpelledTerms::new(alloc),
            payloads: Blocks::new(alloc),
            block: Row::new(alloc),
            segments: ListSegments::new(alloc),
            scratch: Scratch::new(alloc),
            heads: Row::new(alloc),
        }
    }

    /// Spells a list behind the others.
    #[inline(always)]
    fn spell<C: Cabinet>(
        &mut self,
        walk: &mut CiffWalk,
        files: &mut C,
        weighing: Weighing<'_>,
        bits: Bits,
        range: Range,
        entry: &ListEntry,
    ) -> Result<(), CiffFault>
        requires ready { IsReady (C.told files.old) walk.old.name walk.old }
        requires given { HasKept walk.old.kept entry.now.place.at entry.now.place.count }
        requires keeps { KeepsAll walk.old.docs entry.now }
        requires told { ForContent (C.told files.old) walk.old.name (λ content.
            HoldsMost content walk.old.docs entry.now) }
        requires postings { entry.now.place.count ≤ MOST_POSTINGS }
        requires docs { length weighing.lengths.now ≡ walk.old.docs }
        requires width { IsImpactWidth bits }
        requires low { EndsLow bits range }
        requires order { HasOrder range }
        ensures ready { OnOk result (IsReady (C.told files.old) walk.old.name walk.new) }
        ensures leaves { LeavesWalk walk.old walk.new }
        ensures spelled { OnOk result (SpellsOne (C.told files.old) walk.old.name walk.old.docs
            weighing.entry bits range entry.now self.old.terms self.new.terms
            (self.old.payloads ++ self.old.block) (self.new.payloads ++ self.new.block)) }
        ensures changed { IfErr result (ChangesAt entry.now.place.at) }
        ensures told { ForContent (C.told files.old) walk.old.name (λ content. IfErr result
            (FailsOf weighing.entry bits range (list_there content walk.old.docs entry.now.place.at).postings)) }
        ensures fault { IsErrOf result CiffFault.ReadFault
            → Rose (C.read_faults files.old) (C.read_faults files.new) }
        ensures stays { C.told files.new ≡ C.told files.old }
        ensures later { C.read_faults files.old ≤ C.read_faults files.new }
        ensures others { C.write_faults files.old ≤ C.write_faults files.new }
    {
        match entry_segments(
            &mut self.segments,
            &mut self.scratch,
            walk,
            files,
            weighing,
            bits,
            range,
            entry,
        ) {
            Ok(()) => {}
            Err(fault) => return Err(fault),
        }
        match self.put(entry.term.as_str(), weighing.lengths.len() as u32) {
            Ok(()) => Ok(()),
            Err(_) => Err(CiffFault::NoMemory),
        }
    }

    /// Puts a term behind the others, with the heads of the segments that were made of its list, and
    /// their payloads behind the other ones.
    #[inline(always)]
    fn put(&mut self, term: &str, docs: u32) -> Result<(), NoMemory>
        requires docs { All (λ (s : SegmentData). AreDocs docs s.docs) self.old.segments }
        requires few { length self.old.segments ≤ MOST_POSTINGS }
        requires term { length term.now ≤ LONGEST_TERM }
        ensures positive { OnOk result (All (λ (s : SegmentData). 1 ≤ s.impact) self.old.segments) }
        ensures terms { OnOk result (PutsTerm self.old.terms self.new.terms
            (record { term = term.now; heads = chosen_heads docs self.old.segments })) }
        ensures payloads { OnOk result (self.new.payloads ++ self.new.block
            ≡ (self.old.payloads ++ self.old.block) ++ chosen_payloads docs self.old.segments) }
    {
        spell_segments(&self.segments, docs, &mut self.heads, &mut self.block)?;
        self.payloads.push_full(self.alloc, &mut self.block)?;
        self.terms.push(term, self.heads.as_slice())?;
        Ok(())
    }

    /// All that was spelled.
    fn finish(self) -> Result<Spelling, NoMemory>
        ensures terms { IfOk result (λ s. s.terms ≡ self.terms) }
        ensures payloads { IfOk result (λ s. s.payloads ≡ self.payloads ++ self.block) }
    {
        let Speller {
            terms,
            payloads,
            block,
            ..
        } = self;
        Spelling::of(terms, payloads, block)
    }
}

impl Spelling {
    /// Puts the payloads of a last block behind the others.
    fn of(terms: SpelledTerms, payloads: Blocks, block: Row<u8>) -> Result<Spelling, NoMemory>
        ensures terms { IfOk result (λ s. s.terms ≡ terms) }
        ensures payloads { IfOk result (λ s. s.payloads ≡ payloads ++ block) }
    {
        let mut payloads = payloads;
        match payloads.push(block) {
            Ok(()) => Ok(Spelling { terms, payloads }),
            Err(_) => {
                drop(terms);
                drop(payloads);
                Err(NoMemory)
            }
        }
    }
}

/// Makes the heads of segments in a row that is used again, and appends their payloads, each in its
/// shortest codec.
fn spell_segments(
    segments: &ListSegments,
    docs: u32,
    heads: &mut Row<PayloadHead>,
    payloads: &mut Row<u8>,
) -> Result<(), NoMemory>
    requires { All (λ (s : SegmentData). AreDocs docs s.docs) segments.now }
    ensures positive { OnOk result (All (λ (s : SegmentData). 1 ≤ s.impact) segments.now) }
    ensures heads { OnOk result (map head_data heads.new ≡ chosen_heads docs segments.now) }
    ensures payloads { OnOk result (payloads.new ≡ payloads.old ++ chosen_payloads docs segments.now) }
{
    heads.truncate(0);
    for index in 0..segments.len() {
        let (impact, here) = segments.segment(index);
        let head = PayloadHead::put(impact, here, docs, payloads)?;
        heads.push(head)?;
    }
    Ok(())
}

/// Writes the index of these documents, and of lists that were spelled.
pub(crate) fn write_spelled<C: Cabinet>(
    alloc: Global,
    files: &mut C,
    docs: &KeptDocs,
    spelling: &Spelling,
    index: &str,
) -> Result<Totals, ImportFault>
    requires { AreNames (names_in docs.now) }
    ensures written { (name : List ℕ) (made : List TermData)
        → AreOf (length (names_in docs.now)) spelling.now.terms spelling.now.payloads made
        → Writes (C.told files.old) (C.told files.new) name index.now
        (record { names = names_in docs.now; terms = made }) result }
    ensures changed { IfErr result (ImportChanges (λ at kept. ⊥)) }
    ensures read_fault { IsErrOf result ImportFault.ReadFault
        → Rose (C.read_faults files.old) (C.read_faults files.new) }
    ensures write_fault { IsErrOf result ImportFault.WriteFault
        → Rose (C.write_faults files.old) (C.write_faults files.new) }
    ensures later { C.read_faults files.old ≤ C.read_faults files.new }
    ensures others { C.write_faults files.old ≤ C.write_faults files.new }
{
    appended_payloads_make_the_text();
    let names = match docs.spelled_names(alloc) {
        Ok(names) => names,
        Err(_) => return Err(ImportFault::NoMemory),
    };
    let written = write_parts(
        alloc,
        &names,
        &spelling.terms,
        &spelling.payloads,
        files,
        index,
    );
    drop(names);
    match written {
        Ok(totals) => Ok(totals),
        Err(fault) => Err(not_begun(fault)),
    }
}
