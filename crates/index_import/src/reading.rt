ghost use Rattle.std.specs.Prelude.{◌≡◌, ◌≢◌, ◌≤◌, length, MatchResult, IfErr, IfOk, IsErrOf, OnOk};
ghost use Rattle.jass_base.specs.CiffViews.{list_data};
ghost use Rattle.jass_base.specs.Lists.{HasDocsBelow};
ghost use Rattle.jass_base.specs.Outside.{Rose, ForContent};
ghost use Rattle.weights.specs.Quantizing.{IsImpactWidth};
ghost use Rattle.ciff_read.specs.Walk.{HasKept, IsOutside, LeavesWalk};
ghost use Rattle.impact_segments.specs.OneList.{ArePostingsOf, EndsLow};
ghost use Rattle.index_import.specs.Private.Faults.{ChangesAt, ChangesKept};
ghost use Rattle.index_import.specs.Private.Outlining.{list_there};
ghost use Rattle.index_import.specs.Private.Ranging.{HasOrder};
ghost use Rattle.index_import.specs.Private.Rereading.{AreSegments, MakesOf, MakesSegments};
ghost use Rattle.index_import.specs.Private.Surveying.{HoldsMost, IsReady, KeepsAll};

use crate::list_entry::{ListEntry, Place};
use crate::weighing::Weighing;
use ciff_read::{CiffFault, CiffRefusal, CiffWalk, CiffWhy};
use impact_segments::{ListSegments, PostingsByPlace, Scratch, SegmentsFault, segments_into};
use jass_base::{Cabinet, PostingsList};
use weights::{Bits, Range};

/// Reads a list again.
pub(crate) fn read_again<C: Cabinet>(
    walk: &mut CiffWalk,
    files: &mut C,
    place: Place,
) -> Result<PostingsList, CiffFault>
    requires ready { IsReady (C.told files.old) walk.old.name walk.old }
    requires given { HasKept walk.old.kept place.at place.count }
    ensures ready { OnOk result (IsReady (C.told files.old) walk.old.name walk.new) }
    ensures leaves { LeavesWalk walk.old walk.new }
    ensures below { IfOk result (HasDocsBelow walk.old.docs) }
    ensures count { IfOk result (λ list. length list.postings ≡ place.count) }
    ensures changed { IfErr result (ChangesKept walk.old.kept place.at) }
    ensures told { ForContent (C.told files.old) walk.old.name (λ content.
        MatchResult result (λ list. list_data list ≡ list_there content walk.old.docs place.at) IsOutside) }
    ensures fault { IsErrOf result CiffFault.ReadFault → Rose (C.read_faults files.old) (C.read_faults files.new) }
    ensures stays { C.told files.new ≡ C.told files.old }
    ensures later { C.read_faults files.old ≤ C.read_faults files.new }
    ensures others { C.write_faults files.old ≤ C.write_faults files.new }
{
    match walk.list_again(files, place.at) {
        Ok(list) => Ok(list),
        Err(fault) => Err(fault),
    }
}

/// Makes the segments of a list: of the postings that were kept of it, or else of the list as it is
/// read again.
pub(crate) fn entry_segments<C: Cabinet>(
    segments: &mut ListSegments,
    scratch: &mut Scratch,
    walk: &mut CiffWalk,
    files: &mut C,
    weighing: Weighing<'_>,
    bits: Bits,
    range: Range,
    entry: &ListEntry,
) -> Result<(), CiffFault>
    requires ready { IsReady (C.told files.old) walk.old.name walk.old }
    requires given { HasKept walk.old.kept entry.now.place.at entry.now.place.count }
    requires keeps { KeepsAll walk.old.docs entry.now }
    requires told { ForContent (C.told files.old) walk.old.name (λ content.
        HoldsMost content walk.old.docs entry.now) }
    requires docs { length weighing.lengths.now ≡ walk.old.docs }
    requires width { IsImpactWidth bits }
    requires low { EndsLow bits range }
    requires order { HasOrder range }
    ensures ready { OnOk result (IsReady (C.told files.old) walk.old.name walk.new) }
    ensures leaves { LeavesWalk walk.old walk.new }
    ensures segments { OnOk result (AreSegments walk.old.docs entry.now.place.count segments.new) }
    ensures changed { IfErr result (ChangesAt entry.now.place.at) }
    ensures told { ForContent (C.told files.old) walk.old.name (λ content.
        MakesSegments content walk.old.docs weighing.entry bits range entry.now.place.at segments.new result) }
    ensures fault { IsErrOf result CiffFault.ReadFault → Rose (C.read_faults files.old) (C.read_faults files.new) }
    ensures stays { C.told files.new ≡ C.told files.old }
    ensures later { C.read_faults files.old ≤ C.read_faults files.new }
    ensures others { C.write_faults files.old ≤ C.write_faults files.new }
{
    if entry.kept.is_empty() {
        return match read_segments(
            segments,
            scratch,
            walk,
            files,
            weighing,
            bits,
            range,
            entry.place,
        ) {
            Ok(()) => Ok(()),
            Err(fault) => Err(fault),
        };
    }
    match make_segments(
        segments,
        scratch,
        weighing,
        bits,
        range,
        &entry.kept.by_place(),
        entry.place.at,
    ) {
        Ok(()) => Ok(()),
        Err(fault) => Err(fault),
    }
}

/// Reads a list again, and makes its segments.
pub(crate) fn read_segments<C: Cabinet>(
    segments: &mut ListSegments,
    scratch: &mut Scratch,
    walk: &mut CiffWalk,
    files: &mut C,
    weighing: Weighing<'_>,
    bits: Bits,
    range: Range,
    place: Place,
) -> Result<(), CiffFault>
    requires ready { IsReady (C.told files.old) walk.old.name walk.old }
    requires given { HasKept walk.old.kept place.at place.count }
    requires docs { length weighing.lengths.now ≡ walk.old.docs }
    requires width { IsImpactWidth bits }
    requires low { EndsLow bits range }
    requires order { HasOrder range }
    ensures ready { OnOk result (IsReady (C.told files.old) walk.old.name walk.new) }
    ensures leaves { LeavesWalk walk.old walk.new }
    ensures segments { OnOk result (AreSegments walk.old.docs place.count segments.new) }
    ensures changed { IfErr result (ChangesAt place.at) }
    ensures told { ForContent (C.told files.old) walk.old.name (λ content.
        MakesSegments content walk.old.docs weighing.entry bits range place.at segments.new result) }
    ensures fault { IsErrOf result CiffFault.ReadFault → Rose (C.read_faults files.old) (C.read_faults files.new) }
    ensures stays { C.told files.new ≡ C.told files.old }
    ensures later { C.read_faults files.old ≤ C.read_faults files.new }
    ensures others { C.write_faults files.old ≤ C.write_faults files.new }
{
    let list = read_again(walk, files, place)?;
    let made = make_segments(segments, scratch, weighing, bits, range, &list, place.at);
    walk.take_back(list.postings);
    match made {
        Ok(()) => Ok(()),
        Err(fault) => Err(fault),
    }
}

/// Makes the segments of a list that stands at a place. A weight outside the range is refused as a
/// change of the file.
fn make_segments<P: PostingsByPlace>(
    segments: &mut ListSegments,
    scratch: &mut Scratch,
    weighing: Weighing<'_>,
    bits: Bits,
    range: Range,
    list: &P,
    at: u64,
) -> Result<(), CiffFault>
    requires list { ArePostingsOf weighing.lengths.now weighing.total (P.postings list.now) }
    requires width { IsImpactWidth bits }
    requires low { EndsLow bits range }
    requires order { HasOrder range }
    ensures segments { OnOk result
        (AreSegments (length weighing.entry.lengths.now) (length (P.postings list.now)) segments.new) }
    ensures made { MakesOf weighing.entry bits range (P.postings list.now) segments.new result }
    ensures changed { IfErr result (ChangesAt at) }
    ensures fault { IfErr result (λ fault. fault ≢ CiffFault.ReadFault) }
{
    let Weighing {
        rule,
        total,
        lengths,
        norms,
    } = weighing;
    match segments_into(
        segments, scratch, rule, bits, range, total, list, lengths, norms,
    ) {
        Ok(()) => Ok(()),
        Err(SegmentsFault::Outside { kept, found }) => Err(CiffFault::Refused(CiffRefusal {
            at,
            why: CiffWhy::Changed { kept, found },
        })),
        Err(SegmentsFault::NoMemory) => Err(CiffFault::NoMemory),
    }
}
