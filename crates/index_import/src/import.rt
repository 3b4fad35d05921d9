ghost use Rattle.std.specs.Prelude.{ℕ, ◌≡◌, ◌≢◌, ◌≤◌, ◌⊎◌, List, Err, IfErr, IfOk, IsErrOf};
ghost use Rattle.jass_base.specs.Outside.{ForContent, IsMissing, Rose};
ghost use Rattle.weights.specs.Quantizing.{IsImpactWidth};
ghost use Rattle.weights.specs.declared.quantizing.Bits.{Bits};
ghost use Rattle.weights.specs.declared.weighting.Rule.{Rule};
ghost use Rattle.impact_segments.specs.OneList.{EndsLow};
ghost use Rattle.ciff_read.specs.Walk.{IsGiven};
ghost use Rattle.index_import.specs.Importing.{ImportChanges, Imports, SaysChanged};
ghost use Rattle.index_import.specs.Private.KeptDocs.{names_in};
ghost use Rattle.index_import.specs.Private.Outlining.{IsOutline, IsOutlined};
ghost use Rattle.index_import.specs.Private.Ranging.{HasOrder, range_there};
ghost use Rattle.index_import.specs.Private.Surveying.{IsReady};

use crate::fault::ImportFault;
use crate::heads::read_heads;
use crate::kept_docs::KeptDocs;
use crate::list_entry::ListEntry;
use crate::outline::Outline;
use crate::ranging::read_range;
use crate::spelling::{spell_lists, write_spelled};
use crate::survey::survey_file;
use crate::weighing::Weighing;
use crate::writing::write_index;
use ciff_read::CiffWalk;
use impact_segments::laws::{lists_by_term_make_the_index, widened_lists_have_the_range};
use impact_segments::length_norms;
use jass_base::{Cabinet, Totals};
use std::alloc::Global;
use weights::{Bits, Range, Rule};

/// With more postings the payloads of all lists aren't held in memory, and lists are read once more to
/// write them. So many postings have at most 128 MiB of payloads.
const MOST_HELD_POSTINGS: u64 = 33_554_432;

/// Makes an index file of a CIFF file, and gives the totals of the index. The CIFF file is read to
/// its end before the index is touched. Refused comes with the first refusal of the file, and
/// TooLarge where the index would have more than 2^32 bytes; both leave the index as it is, but for
/// a file that changes while it is read: Changed comes only for that, with the place of a list and
/// two numbers that should agree and don't. After another fault the index is as it was, or begins as
/// it should.
pub fn import_file<C: Cabinet>(
    alloc: Global,
    files: &mut C,
    ciff: &str,
    index: &str,
    rule: Rule,
    bits: Bits,
) -> Result<Totals, ImportFault>
    requires width { IsImpactWidth bits }
    requires apart { ciff.now ≢ index.now }
    ensures imported { Imports (C.told files.old) (C.told files.new) ciff.now index.now rule bits result }
    ensures changed { IfErr result (SaysChanged ciff.now) }
    ensures read_fault { IsErrOf result ImportFault.ReadFault
        → Rose (C.read_faults files.old) (C.read_faults files.new) ⊎ IsMissing (C.told files.old) ciff.now }
    ensures write_fault { IsErrOf result ImportFault.WriteFault
        → Rose (C.write_faults files.old) (C.write_faults files.new) }
    ensures later { C.read_faults files.old ≤ C.read_faults files.new }
    ensures others { C.write_faults files.old ≤ C.write_faults files.new }
{
    let outline = match read_outline(alloc, files, ciff) {
        Ok(outline) => outline,
        Err(fault) => return Err(fault),
    };
    import_outline(alloc, files, outline, rule, bits, index)
}

/// Reads a file to its end, judges it, and puts in order what it has.
fn read_outline<C: Cabinet>(
    alloc: Global,
    files: &mut C,
    ciff: &str,
) -> Result<Outline, ImportFault>
    ensures ready { IfOk result (λ o. IsReady (C.told files.old) ciff.now o.walk) }
    ensures outlined { IfOk result (λ o. IsOutlined o.walk (names_in o.docs) o.lengths.items o.total o.lists.items) }
    ensures told { IfOk result (λ o. ForContent (C.told files.old) ciff.now (λ content.
        IsOutline content o.walk.docs (names_in o.docs) o.lengths.items o.lists.items)) }
    ensures failed { IfErr result (λ fault. (index : List ℕ) (rule : Rule) (bits : Bits)
        → Imports (C.told files.old) (C.told files.new) ciff.now index rule bits (Err fault)) }
    ensures changed { IfErr result (ImportChanges (λ at kept. ⊥)) }
    ensures read_fault { IsErrOf result ImportFault.ReadFault
        → Rose (C.read_faults files.old) (C.read_faults files.new) ⊎ IsMissing (C.told files.old) ciff.now }
    ensures write_fault { IfErr result (λ fault. fault ≢ ImportFault.WriteFault) }
    ensures stays { C.told files.new ≡ C.told files.old }
    ensures later { C.read_faults files.old ≤ C.read_faults files.new }
    ensures others { C.write_faults files.old ≤ C.write_faults files.new }
{
    let survey = match survey_file(alloc, files, ciff) {
        Ok(survey) => survey,
        Err(fault) => return Err(ImportFault::from_ciff(fault)),
    };
    match Outline::new(alloc, survey) {
        Ok(outline) => Ok(outline),
        Err(_) => Err(ImportFault::NoMemory),
    }
}

/// Makes an index file of what a file has that was judged.
fn import_outline<C: Cabinet>(
    alloc: Global,
    files: &mut C,
    outline: Outline,
    rule: Rule,
    bits: Bits,
    index: &str,
) -> Result<Totals, ImportFault>
    requires ready { IsReady (C.told files.old) outline.walk.name outline.walk }
    requires outlined { IsOutlined outline.walk (names_in outline.docs) outline.lengths.items outline.total
        outline.lists.items }
    requires told { ForContent (C.told files.old) outline.walk.name (λ content.
        IsOutline content outline.walk.docs (names_in outline.docs) outline.lengths.items outline.lists.items) }
    requires width { IsImpactWidth bits }
    requires apart { outline.walk.name ≢ index.now }
    ensures imported { Imports (C.told files.old) (C.told files.new) outline.walk.name index.now rule bits result }
    ensures changed { IfErr result (ImportChanges (λ at kept. IsGiven outline.walk.kept at)) }
    ensures read_fault { IsErrOf result ImportFault.ReadFault
        → Rose (C.read_faults files.old) (C.read_faults files.new) }
    ensures write_fault { IsErrOf result ImportFault.WriteFault
        → Rose (C.write_faults files.old) (C.write_faults files.new) }
    ensures later { C.read_faults files.old ≤ C.read_faults files.new }
    ensures others { C.write_faults files.old ≤ C.write_faults files.new }
{
    let norms = match length_norms(alloc, outline.total, &outline.lengths) {
        Ok(norms) => norms,
        Err(_) => {
            drop(outline);
            return Err(ImportFault::NoMemory);
        }
    };
    let Outline {
        mut walk,
        docs,
        lengths,
        total,
        lists,
    } = outline;
    let weighing = Weighing {
        rule,
        total,
        lengths: &lengths,
        norms: &norms,
    };
    let totals = import_lists(alloc, &mut walk, files, weighing, bits, &docs, lists, index);
    drop(norms);
    drop(lengths);
    drop(docs);
    drop(walk);
    totals
}

/// Makes an index file of a file that was judged. Its lists go by rising terms; those whose postings
/// weren't kept are read again.
fn import_lists<C: Cabinet>(
    alloc: Global,
    walk: &mut CiffWalk,
    files: &mut C,
    weighing: Weighing<'_>,
    bits: Bits,
    docs: &KeptDocs,
    lists: Vec<ListEntry>,
    index: &str,
) -> Result<Totals, ImportFault>
    requires ready { IsReady (C.told files.old) walk.old.name walk.old }
    requires outlined { IsOutlined walk.old (names_in docs.now) weighing.lengths.now weighing.total lists.items }
    requires told { ForContent (C.told files.old) walk.old.name (λ content.
        IsOutline content walk.old.docs (names_in docs.now) weighing.lengths.now lists.items) }
    requires width { IsImpactWidth bits }
    requires apart { walk.old.name ≢ index.now }
    ensures imported { Imports (C.told files.old) (C.told files.new) walk.old.name index.now
        weighing.entry.rule bits result }
    ensures changed { IfErr result (ImportChanges (λ at kept. IsGiven walk.old.kept at)) }
    ensures read_fault { IsErrOf result ImportFault.ReadFault
        → Rose (C.read_faults files.old) (C.read_faults files.new) }
    ensures write_fault { IsErrOf result ImportFault.WriteFault
        → Rose (C.write_faults files.old) (C.write_faults files.new) }
    ensures later { C.read_faults files.old ≤ C.read_faults files.new }
    ensures others { C.write_faults files.old ≤ C.write_faults files.new }
{
    let range = match read_range(walk, files, weighing, bits, &lists) {
        Ok(range) => range,
        Err(fault) => {
            drop(lists);
            return Err(ImportFault::from_ciff(fault));
        }
    };
    if are_few(&lists) {
        import_held(
            alloc, walk, files, weighing, bits, range, docs, lists, index,
        )
    } else {
        import_reread(
            alloc, walk, files, weighing, bits, range, docs, lists, index,
        )
    }
}

/// Makes an index file of lists whose payloads are held in memory.
fn import_held<C: Cabinet>(
    alloc: Global,
    walk: &mut CiffWalk,
    files: &mut C,
    weighing: Weighing<'_>,
    bits: Bits,
    range: Range,
    docs: &KeptDocs,
    lists: Vec<ListEntry>,
    index: &str,
) -> Result<Totals, ImportFault>
    requires ready { IsReady (C.told files.old) walk.old.name walk.old }
    requires outlined { IsOutlined walk.old (names_in docs.now) weighing.lengths.now weighing.total lists.items }
    requires told { ForContent (C.told files.old) walk.old.name (λ content.
        IsOutline content walk.old.docs (names_in docs.now) weighing.lengths.now lists.items) }
    requires ranged { ForContent (C.told files.old) walk.old.name (λ content.
        range ≡ range_there content walk.old.docs weighing bits lists.items) }
    requires low { EndsLow bits range }
    requires order { HasOrder range }
    requires width { IsImpactWidth bits }
    requires apart { walk.old.name ≢ index.now }
    ensures imported { Imports (C.told files.old) (C.told files.new) walk.old.name index.now
        weighing.entry.rule bits result }
    ensures changed { IfErr result (ImportChanges (λ at kept. IsGiven walk.old.kept at)) }
    ensures read_fault { IsErrOf result ImportFault.ReadFault
        → Rose (C.read_faults files.old) (C.read_faults files.new) }
    ensures write_fault { IsErrOf result ImportFault.WriteFault
        → Rose (C.write_faults files.old) (C.write_faults files.new) }
    ensures later { C.read_faults files.old ≤ C.read_faults files.new }
    ensures others { C.write_faults files.old ≤ C.write_faults files.new }
{
    lists_by_term_make_the_index();
    widened_lists_have_the_range();
    let spelling = match spell_lists(alloc, walk, files, weighing, bits, range, lists) {
        Ok(spelling) => spelling,
        Err(fault) => return Err(ImportFault::from_ciff(fault)),
    };
    let totals = write_spelled(alloc, files, docs, &spelling, index);
    drop(spelling);
    totals
}

/// Makes an index file of lists that are read once more to write their payloads.
fn import_reread<C: Cabinet>(
    alloc: Global,
    walk: &mut CiffWalk,
    files: &mut C,
    weighing: Weighing<'_>,
    bits: Bits,
    range: Range,
    docs: &KeptDocs,
    lists: Vec<ListEntry>,
    index: &str,
) -> Result<Totals, ImportFault>
    requires ready { IsReady (C.told files.old) walk.old.name walk.old }
    requires outlined { IsOutlined walk.old (names_in docs.now) weighing.lengths.now weighing.total lists.items }
    requires told { ForContent (C.told files.old) walk.old.name (λ content.
        IsOutline content walk.old.docs (names_in docs.now) weighing.lengths.now lists.items) }
    requires ranged { ForContent (C.told files.old) walk.old.name (λ content.
        range ≡ range_there content walk.old.docs weighing bits lists.items) }
    requires low { EndsLow bits range }
    requires order { HasOrder range }
    requires width { IsImpactWidth bits }
    requires apart { walk.old.name ≢ index.now }
    ensures imported { Imports (C.told files.old) (C.told files.new) walk.old.name index.now
        weighing.entry.rule bits result }
    ensures changed { IfErr result (ImportChanges (λ at kept. IsGiven walk.old.kept at)) }
    ensures read_fault { IsErrOf result ImportFault.ReadFault
        → Rose (C.read_faults files.old) (C.read_faults files.new) }
    ensures write_fault { IsErrOf result ImportFault.WriteFault
        → Rose (C.write_faults files.old) (C.write_faults files.new) }
    ensures later { C.read_faults files.old ≤ C.read_faults files.new }
    ensures others { C.write_faults files.old ≤ C.write_faults files.new }
{
    lists_by_term_make_the_index();
    widened_lists_have_the_range();
    let heads = match read_heads(alloc, walk, files, weighing, bits, range, lists) {
        Ok(heads) => heads,
        Err(fault) => return Err(ImportFault::from_ciff(fault)),
    };
    let names = match docs.names(alloc) {
        Ok(names) => names,
        Err(_) => {
            drop(heads);
            return Err(ImportFault::NoMemory);
        }
    };
    write_index(
        alloc, walk, files, weighing, bits, range, names, heads, index,
    )
}

/// Whether lists have so few postings in all that their payloads are held in memory. Nothing rests on
/// the answer but memory and time.
fn are_few(lists: &[ListEntry]) -> bool {
    let mut postings: u64 = 0;
    for entry in lists {
        postings = postings.saturating_add(u64::from(entry.place.count));
    }
    postings <= MOST_HELD_POSTINGS
}
