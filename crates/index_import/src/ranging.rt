ghost use Rattle.std.specs.Prelude.{◌≡◌, ◌<◌, ◌≤◌, ◌^◌, length, MatchResult, All, IfErr, IfOk, IsErrOf, OnOk};
ghost use Rattle.jass_base.specs.Outside.{Rose, ForContent};
ghost use Rattle.ciff_read.specs.Walk.{HasKept, IsOutside, LeavesWalk};
ghost use Rattle.impact_segments.specs.OneList.{EndsLow};
ghost use Rattle.index_import.specs.Private.Faults.{ChangesAs};
ghost use Rattle.index_import.specs.Private.Ranging.{HasOrder, IsWidenedBy, range_there, widened_there};
ghost use Rattle.index_import.specs.Private.Surveying.{AreGiven, HoldsMost, IsReady, KeepsAll};

use crate::list_entry::{ListEntry, Place};
use crate::passed_sizes::{ListSize, PassedSizes};
use crate::reading::read_again;
use crate::weighing::Weighing;
use ciff_read::{CiffFault, CiffWalk};
use impact_segments::laws::{lists_inside_leave_the_range, widened_lists_have_the_range};
use impact_segments::{can_widen, norm_ends, widen_by_norms};
use jass_base::Cabinet;
use weights::{Bits, Range};

/// The range of the weights of lists, where impacts are places in it. They are looked at as far as
/// they can widen it.
pub(crate) fn read_range<C: Cabinet>(
    walk: &mut CiffWalk,
    files: &mut C,
    weighing: Weighing<'_>,
    bits: Bits,
    lists: &[ListEntry],
) -> Result<Range, CiffFault>
    requires ready { IsReady (C.told files.old) walk.old.name walk.old }
    requires given { AreGiven walk.old.kept lists.now }
    requires docs { length weighing.lengths.now ≡ walk.old.docs }
    requires keep_all { All (KeepsAll walk.old.docs) lists.now }
    requires told { ForContent (C.told files.old) walk.old.name (λ content.
        All (HoldsMost content walk.old.docs) lists.now) }
    ensures ready { OnOk result (IsReady (C.told files.old) walk.old.name walk.new) }
    ensures leaves { LeavesWalk walk.old walk.new }
    ensures low { IfOk result (EndsLow bits) }
    ensures order { IfOk result HasOrder }
    ensures changed { IfErr result (ChangesAs (HasKept walk.old.kept)) }
    ensures told { ForContent (C.told files.old) walk.old.name (λ content.
        MatchResult result
        (λ range. range ≡ range_there content walk.old.docs weighing.entry bits lists.now) IsOutside) }
    ensures fault { IsErrOf result CiffFault.ReadFault → Rose (C.read_faults files.old) (C.read_faults files.new) }
    ensures stays { C.told files.new ≡ C.told files.old }
    ensures later { C.read_faults files.old ≤ C.read_faults files.new }
    ensures others { C.write_faults files.old ≤ C.write_faults files.new }
{
    match bits {
        Bits::Raw => Ok(Range::new()),
        Bits::Of(_) => widen_lists(walk, files, weighing, lists),
    }
}

/// The range of the weights of lists. Those that can't widen it, as the number of their postings and
/// their greatest tf show, are passed over, and so is whatever list has the same numbers later, since
/// the range only grows.
fn widen_lists<C: Cabinet>(
    walk: &mut CiffWalk,
    files: &mut C,
    weighing: Weighing<'_>,
    lists: &[ListEntry],
) -> Result<Range, CiffFault>
    requires ready { IsReady (C.told files.old) walk.old.name walk.old }
    requires given { AreGiven walk.old.kept lists.now }
    requires docs { length weighing.lengths.now ≡ walk.old.docs }
    requires keep_all { All (KeepsAll walk.old.docs) lists.now }
    requires told { ForContent (C.told files.old) walk.old.name (λ content.
        All (HoldsMost content walk.old.docs) lists.now) }
    ensures ready { OnOk result (IsReady (C.told files.old) walk.old.name walk.new) }
    ensures leaves { LeavesWalk walk.old walk.new }
    ensures low { IfOk result (λ range. range.greatest ≤ 2 ^ 40) }
    ensures order { IfOk result HasOrder }
    ensures changed { IfErr result (ChangesAs (HasKept walk.old.kept)) }
    ensures told { ForContent (C.told files.old) walk.old.name (λ content.
        MatchResult result (λ range. range ≡ widened_there content walk.old.docs weighing.entry lists.now) IsOutside) }
    ensures fault { IsErrOf result CiffFault.ReadFault → Rose (C.read_faults files.old) (C.read_faults files.new) }
    ensures stays { C.told files.new ≡ C.told files.old }
    ensures later { C.read_faults files.old ≤ C.read_faults files.new }
    ensures others { C.write_faults files.old ≤ C.write_faults files.new }
{
    widened_lists_have_the_range();
    lists_inside_leave_the_range();
    let Weighing { rule, norms, .. } = weighing;
    let ends = norm_ends(norms);
    let mut range = Range::new();
    let mut passed = PassedSizes::new();
    for entry in lists {
        let Place { count, most, .. } = entry.place;
        let size = ListSize { count, most };
        if passed.has(size) {
            continue;
        }
        if !can_widen(range, rule, count, most, norms, ends) {
            passed.keep(size);
            continue;
        }
        match widen_by_entry(&mut range, walk, files, weighing, entry) {
            Ok(()) => {}
            Err(fault) => return Err(fault),
        }
    }
    Ok(range)
}

/// Makes a range hold the weights of a list, too: of the postings that were kept of it, or else of
/// the list as it is read again.
fn widen_by_entry<C: Cabinet>(
    range: &mut Range,
    walk: &mut CiffWalk,
    files: &mut C,
    weighing: Weighing<'_>,
    entry: &ListEntry,
) -> Result<(), CiffFault>
    requires ready { IsReady (C.told files.old) walk.old.name walk.old }
    requires given { HasKept walk.old.kept entry.now.place.at entry.now.place.count }
    requires docs { length weighing.lengths.now ≡ walk.old.docs }
    requires keeps { KeepsAll walk.old.docs entry.now }
    requires told { ForContent (C.told files.old) walk.old.name (λ content.
        HoldsMost content walk.old.docs entry.now) }
    ensures ready { OnOk result (IsReady (C.told files.old) walk.old.name walk.new) }
    ensures leaves { LeavesWalk walk.old walk.new }
    ensures widened { OnOk result (IsWidenedBy (C.told files.old) walk.old.name walk.old.docs weighing.entry
        entry.now.place.at range.old range.new) }
    ensures changed { IfErr result (ChangesAs (HasKept walk.old.kept)) }
    ensures told { ForContent (C.told files.old) walk.old.name (λ content. IfErr result IsOutside) }
    ensures fault { IsErrOf result CiffFault.ReadFault → Rose (C.read_faults files.old) (C.read_faults files.new) }
    ensures stays { C.told files.new ≡ C.told files.old }
    ensures later { C.read_faults files.old ≤ C.read_faults files.new }
    ensures others { C.write_faults files.old ≤ C.write_faults files.new }
{
    let Weighing {
        rule,
        total,
        lengths,
        norms,
    } = weighing;
    if !entry.kept.is_empty() {
        widen_by_norms(range, rule, total, &entry.kept.by_place(), lengths, norms);
        return Ok(());
    }
    let list = match read_again(walk, files, entry.place) {
        Ok(list) => list,
        Err(fault) => return Err(fault),
    };
    widen_by_norms(range, rule, total, &list, lengths, norms);
    walk.take_back(list.postings);
    Ok(())
}
