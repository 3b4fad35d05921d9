ghost use Rattle.std.specs.Prelude.{◌≡◌, ◌≢◌, ◌≤◌, List, length, map, All, AllPairs, IfErr, IfOk, IsErrOf};
ghost use Rattle.jass_base.specs.Gaps.{AreDocs};
ghost use Rattle.jass_base.specs.Outside.{Appended, Rose};
ghost use Rattle.weights.specs.Quantizing.{IsImpactWidth};
ghost use Rattle.ciff_read.specs.Walk.{HasKept, IsGiven};
ghost use Rattle.impact_segments.specs.OneList.{EndsLow};
ghost use Rattle.index_model.specs.Index.{SegmentData, SharesNoDocument, TermData};
ghost use Rattle.index_write.specs.Chosen.{chosen_heads, chosen_payloads};
ghost use Rattle.index_write.specs.Streaming.{AreEntries, AreNames, Unappended, Unappending, behind_term, change_of, entry_data, next_heads};
ghost use Rattle.index_import.specs.Importing.{ImportChanges};
ghost use Rattle.index_import.specs.Private.Faults.{unappended, unbegun};
ghost use Rattle.index_import.specs.Private.Ranging.{HasOrder};
ghost use Rattle.index_import.specs.Private.Writing.{HasTerms, Writes};
ghost use Rattle.index_import.specs.Private.Surveying.{IsReady};
ghost use Rattle.index_import.specs.declared.list_entry.Place.{Place};

use crate::fault::ImportFault;
use crate::heads::Heads;
use crate::reading::read_segments;
use crate::weighing::Weighing;
use ciff_read::{CiffRefusal, CiffWalk, CiffWhy};
use impact_segments::{ListSegments, Scratch};
use index_write::laws::{appended_payloads_make_the_text, changes_are_found};
use index_write::{IndexWriter, SaveFault, TermFault};
use jass_base::{Cabinet, Row, Text, Totals};
use std::alloc::Global;
use weights::{Bits, Range};

/// Writes the index of the documents of these names, and of the lists that have these heads. Each of
/// them is read once more.
pub(crate) fn write_index<C: Cabinet>(
    alloc: Global,
    walk: &mut CiffWalk,
    files: &mut C,
    weighing: Weighing<'_>,
    bits: Bits,
    range: Range,
    names: Row<Text>,
    heads: Heads,
    index: &str,
) -> Result<Totals, ImportFault>
    requires ready { IsReady (C.told files.old) walk.old.name walk.old }
    requires given { All (λ (p : Place). HasKept walk.old.kept p.at p.count) heads.places.items }
    requires docs { length weighing.lengths.now ≡ walk.old.docs }
    requires width { IsImpactWidth bits }
    requires low { EndsLow bits range }
    requires order { HasOrder range }
    requires names { AreNames names }
    requires as_many { length names ≡ walk.old.docs }
    requires entries { AreEntries (map entry_data heads.terms) }
    requires places { length heads.places.items ≡ length heads.terms }
    requires apart { walk.old.name ≢ index.now }
    ensures written { (made : List TermData)
        → HasTerms (C.told files.old) walk.old.name walk.old.docs weighing.entry bits range
        heads.places.items heads.terms made
        → Writes (C.told files.old) (C.told files.new) walk.old.name index.now
        (record { names = names; terms = made }) result }
    ensures changed { IfErr result (ImportChanges (λ at kept. IsGiven walk.old.kept at)) }
    ensures read_fault { IsErrOf result ImportFault.ReadFault
        → Rose (C.read_faults files.old) (C.read_faults files.new) }
    ensures write_fault { IsErrOf result ImportFault.WriteFault
        → Rose (C.write_faults files.old) (C.write_faults files.new) }
    ensures later { C.read_faults files.old ≤ C.read_faults files.new }
    ensures others { C.write_faults files.old ≤ C.write_faults files.new }
{
    appended_payloads_make_the_text();
    changes_are_found();
    let Heads { terms, places } = heads;
    let mut writer = match IndexWriter::new(alloc, names, terms, files, index) {
        Ok(writer) => writer,
        Err(fault) => return Err(not_begun(fault)),
    };
    let mut segments = ListSegments::new(alloc);
    let mut scratch = Scratch::new(alloc);
    'places: for place in places {
        match read_segments(
            &mut segments,
            &mut scratch,
            walk,
            files,
            weighing,
            bits,
            range,
            place,
        ) {
            Ok(()) => {}
            Err(fault) => {
                drop(scratch);
                drop(segments);
                drop(writer);
                return Err(ImportFault::from_ciff(fault));
            }
        }
        writer = match append_segments(alloc, writer, &segments, files) {
            Ok(writer) => writer,
            Err(fault) => {
                drop(scratch);
                drop(segments);
                return Err(not_appended(fault, place.at));
            }
        };
    }
    drop(scratch);
    drop(segments);
    Ok(writer.finish())
}

/// Appends the payloads of the next term, which has these segments.
#[inline(always)]
fn append_segments<C: Cabinet>(
    alloc: Global,
    writer: IndexWriter,
    segments: &ListSegments,
    files: &mut C,
) -> Result<IndexWriter, TermFault>
    requires left { 1 ≤ writer.left }
    requires docs { All (λ (s : SegmentData). AreDocs writer.docs s.docs) segments.now }
    requires once { AllPairs SharesNoDocument segments.now }
    ensures writer { IfOk result (λ after. after ≡ behind_term writer) }
    ensures content { Appended (C.told files.old) (C.told files.new) writer.name
        (chosen_payloads writer.docs segments.now) result }
    ensures fault { IfErr result (Unappended (change_of (next_heads writer)
        (chosen_heads writer.docs segments.now))) }
    ensures untouched { IfErr result (Unappending files.old files.new) }
    ensures cause { IsErrOf result TermFault.WriteFault
        → Rose (C.write_faults files.old) (C.write_faults files.new) }
    ensures later { C.write_faults files.old ≤ C.write_faults files.new }
    ensures others { C.read_faults files.old ≤ C.read_faults files.new }
{
    let rows = match segments.to_rows(alloc) {
        Ok(rows) => rows,
        Err(_) => return Err(TermFault::NoMemory),
    };
    match writer.term(rows.as_slice(), files) {
        Ok(writer) => Ok(writer),
        Err(fault) => Err(fault),
    }
}

/// Why the index was not begun.
pub(crate) fn not_begun(fault: SaveFault) -> ImportFault
    ensures { result ≡ unbegun fault }
{
    match fault {
        SaveFault::TooLarge { length } => ImportFault::TooLarge { length },
        SaveFault::WriteFault => ImportFault::WriteFault,
        SaveFault::NoMemory => ImportFault::NoMemory,
    }
}

/// Why the payloads of the list at a place were not appended.
fn not_appended(fault: TermFault, at: u64) -> ImportFault
    ensures { result ≡ unappended at fault }
{
    match fault {
        TermFault::Changed { kept, found } => ImportFault::Refused(CiffRefusal {
            at,
            why: CiffWhy::Changed { kept, found },
        }),
        TermFault::WriteFault => ImportFault::WriteFault,
        TermFault::NoMemory => ImportFault::NoMemory,
    }
}
