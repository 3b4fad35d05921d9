//! The segments of one list at a time, for a collection that isn't held in memory.

ghost use Rattle.std.specs.Prelude.{◌≡◌, None, ◌≤◌, length, map, sum_by, All, AllPairs, IfErr, IfOk, OnOk};
ghost use Rattle.std.specs.Option.{ForSome};
ghost use Rattle.jass_base.specs.Gaps.{AreDocs};
ghost use Rattle.jass_base.specs.Segments as rows;
ghost use Rattle.jass_base.specs.declared.segment.Segment.{Segment};
ghost use Rattle.weights.specs.Quantizing.{IsImpactWidth};
ghost use Rattle.index_model.specs.Index.{FallsTo, SegmentData, SharesNoDocument};
ghost use Rattle.index_model.specs.Views.{segment_data};
ghost use Rattle.impact_segments.specs.Collections.{weights_in};
ghost use Rattle.impact_segments.specs.ListTerms.{list_segments};
ghost use Rattle.impact_segments.specs.OneList.{ArePostingsOf, EndsLow, IsListOf, Unmade, norms_in, outside};

use crate::doc_impact::DocImpact;
use crate::grouping::group_into;
use crate::list_segments::ListSegments;
use crate::one_list::{SegmentsFault, impacts_of};
use crate::postings_by_place::PostingsByPlace;
use crate::scratch::Scratch;
use jass_base::{NoMemory, PostingsList, Row, Segment};
use std::alloc::Global;
use weights::{Bits, Range, Rule};

/// The segments of a list whose weights lie in the range of all weights, by falling impact. Outside
/// comes exactly where impacts are places in the range and a weight lies outside it, unless memory
/// is refused first.
pub fn segments_of(
    alloc: Global,
    rule: Rule,
    bits: Bits,
    range: Range,
    total: u64,
    list: &PostingsList,
    lengths: &[u32],
) -> Result<Row<Segment>, SegmentsFault>
    requires list { IsListOf lengths.now total list.now }
    requires width { IsImpactWidth bits }
    requires low { EndsLow bits range }
    ensures exact { IfOk result (λ segments. map segment_data segments
        ≡ list_segments rule lengths.now total bits range list.now.postings) }
    ensures postings { IfOk result (λ segments. sum_by (λ (s : Segment). length s.docs) segments
        ≡ length list.now.postings) }
    ensures some { IfOk result (λ segments. 1 ≤ length segments) }
    ensures falling { IfOk result (λ segments. AllPairs rows.FallsTo segments) }
    ensures once { IfOk result (λ segments. AllPairs rows.SharesNoDocument segments) }
    ensures docs { IfOk result (All (λ (s : Segment). AreDocs (length lengths.now) s.docs)) }
    ensures inside { OnOk result (outside bits range (weights_in rule lengths.now total list.now.postings) ≡ None) }
    ensures fault { IfErr result (Unmade (outside bits range (weights_in rule lengths.now total list.now.postings))) }
{
    let mut segments = ListSegments::new(alloc);
    let mut scratch = Scratch::new(alloc);
    make_segments(
        &mut segments,
        &mut scratch,
        rule,
        bits,
        range,
        total,
        list,
        lengths,
        None,
    )?;
    match segments.to_rows(alloc) {
        Ok(rows) => Ok(rows),
        Err(_) => Err(SegmentsFault::NoMemory),
    }
}

/// Makes the segments that `segments_of` makes, of postings however they are kept, by the documents'
/// norms, with what a scratch keeps from list to list, in memory that is used again. After a fault
/// some segments or none are left.
pub fn segments_into<P: PostingsByPlace>(
    segments: &mut ListSegments,
    scratch: &mut Scratch,
    rule: Rule,
    bits: Bits,
    range: Range,
    total: u64,
    list: &P,
    lengths: &[u32],
    norms: &[u64],
) -> Result<(), SegmentsFault>
    requires list { ArePostingsOf lengths.now total (P.postings list.now) }
    requires width { IsImpactWidth bits }
    requires low { EndsLow bits range }
    requires norms { norms.now ≡ norms_in lengths.now total }
    ensures exact { OnOk result (segments.new
        ≡ list_segments rule lengths.now total bits range (P.postings list.now)) }
    ensures postings { OnOk result (sum_by (λ (s : SegmentData). length s.docs) segments.new
        ≡ length (P.postings list.now)) }
    ensures some { OnOk result (1 ≤ length segments.new) }
    ensures falling { OnOk result (AllPairs FallsTo segments.new) }
    ensures once { OnOk result (AllPairs SharesNoDocument segments.new) }
    ensures docs { OnOk result (All (λ (s : SegmentData). AreDocs (length lengths.now) s.docs) segments.new) }
    ensures inside { OnOk result
        (outside bits range (weights_in rule lengths.now total (P.postings list.now)) ≡ None) }
    ensures fault { IfErr result
        (Unmade (outside bits range (weights_in rule lengths.now total (P.postings list.now)))) }
{
    scratch.make_table(bits, range);
    make_segments(
        segments,
        scratch,
        rule,
        bits,
        range,
        total,
        list,
        lengths,
        Some(norms),
    )
}

/// The same, with norms where the caller has them.
fn make_segments<P: PostingsByPlace>(
    segments: &mut ListSegments,
    scratch: &mut Scratch,
    rule: Rule,
    bits: Bits,
    range: Range,
    total: u64,
    list: &P,
    lengths: &[u32],
    norms: Option<&[u64]>,
) -> Result<(), SegmentsFault>
    requires list { ArePostingsOf lengths.now total (P.postings list.now) }
    requires width { IsImpactWidth bits }
    requires low { EndsLow bits range }
    requires norms { ForSome norms (λ n. n.now ≡ norms_in lengths.now total) }
    ensures exact { OnOk result (segments.new
        ≡ list_segments rule lengths.now total bits range (P.postings list.now)) }
    ensures postings { OnOk result (sum_by (λ (s : SegmentData). length s.docs) segments.new
        ≡ length (P.postings list.now)) }
    ensures some { OnOk result (1 ≤ length segments.new) }
    ensures falling { OnOk result (AllPairs FallsTo segments.new) }
    ensures once { OnOk result (AllPairs SharesNoDocument segments.new) }
    ensures docs { OnOk result (All (λ (s : SegmentData). AreDocs (length lengths.now) s.docs) segments.new) }
    ensures inside { OnOk result
        (outside bits range (weights_in rule lengths.now total (P.postings list.now)) ≡ None) }
    ensures fault { IfErr result
        (Unmade (outside bits range (weights_in rule lengths.now total (P.postings list.now)))) }
{
    let count = list.count();
    match lengthen(&mut scratch.pairs, count) {
        Ok(()) => {}
        Err(_) => return Err(SegmentsFault::NoMemory),
    }
    let table = scratch.table.impacts(bits, range);
    let pairs = &mut scratch.pairs.as_mut_slice()[..count];
    let greatest = impacts_of(pairs, table, rule, bits, range, total, list, lengths, norms)?;
    match group_into(segments, &mut scratch.places, pairs, greatest) {
        Ok(()) => Ok(()),
        Err(_) => Err(SegmentsFault::NoMemory),
    }
}

/// Makes a row at least so many pairs long. What stands in it is left as it is, since each pair that counts
/// is written over.
fn lengthen(pairs: &mut Vec<DocImpact>, count: usize) -> Result<(), NoMemory>
    ensures { OnOk result (count ≤ length pairs.new.items) }
{
    if count > pairs.len() {
        pairs.resize(count, DocImpact { doc: 0, impact: 0 })?;
    }
    Ok(())
}
