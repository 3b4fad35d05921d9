ghost use Rattle.std.specs.Prelude.{◌≡◌, ◌^◌, ◌<◌, ◌≤◌, All, AllPairs, IfOk, OnOk};
ghost use Rattle.std.specs.List.Sorted.{IsStrictlyIncreasing};
ghost use Rattle.ranking_model.specs.Order.{sorted};
ghost use Rattle.jass_base.specs.Segments.{FallsTo, SharesNoDocument};
ghost use Rattle.impact_segments.specs.ListTerms.{segments_in};
ghost use Rattle.impact_segments.specs.Pairs.{pair_cmp, pairs_of, pair_docs};
ghost use Rattle.impact_segments.specs.Private.Pairs.{pair_key};
ghost use Rattle.impact_segments.specs.declared.doc_impact.DocImpact.{DocImpact};

use crate::doc_impact::DocImpact;
use crate::list_segments::ListSegments;
use crate::places::{ImpactPlaces, greatest_of, impact_count};
use jass_base::limits::GREATEST_IMPACT;
use jass_base::{NoMemory, Row, Segment};
use std::alloc::Global;
use std::cmp::Ordering;

/// The segments of one term from its documents with their impacts, each at least 1: a segment
/// for each impact, by falling impact, with the documents that have it, in rising order (Lin
/// and Trotman, 2015). Nothing but memory is refused.
pub fn group(alloc: Global, postings: &[DocImpact]) -> Result<Row<Segment>, NoMemory>
    requires rising { IsStrictlyIncreasing (pair_docs postings.now) }
    requires positive { All (λ (p : DocImpact). 1 ≤ p.impact) postings.now }
    ensures pairs { IfOk result (λ segments. pairs_of segments ≡ sorted pair_cmp postings.now) }
    ensures falling { IfOk result (λ segments. AllPairs FallsTo segments) }
    ensures once { IfOk result (λ segments. AllPairs SharesNoDocument segments) }
{
    let mut segments = ListSegments::new(alloc);
    let mut places = ImpactPlaces::new(alloc);
    match Vec::from_slice(alloc, postings) {
        Ok(mut pairs) => group_by(&mut segments, &mut places, alloc, &mut pairs),
        Err(_) => Err(NoMemory),
    }
}

/// The segments of a term whose pairs may be put in order, by memory that is used again.
pub(crate) fn group_by(
    segments: &mut ListSegments,
    places: &mut ImpactPlaces,
    alloc: Global,
    pairs: &mut Vec<DocImpact>,
) -> Result<Row<Segment>, NoMemory>
    requires rising { IsStrictlyIncreasing (pair_docs pairs.old.items) }
    requires positive { All (λ (p : DocImpact). 1 ≤ p.impact) pairs.old.items }
    ensures pairs { IfOk result (λ segments. pairs_of segments ≡ sorted pair_cmp pairs.old.items) }
    ensures falling { IfOk result (λ segments. AllPairs FallsTo segments) }
    ensures once { IfOk result (λ segments. AllPairs SharesNoDocument segments) }
{
    let greatest = greatest_of(pairs.as_slice());
    group_into(segments, places, pairs.as_mut_slice(), greatest)?;
    segments.to_rows(alloc)
}

/// Leaves the segments of a term whose pairs may be put in order. None has an impact above the greatest.
pub(crate) fn group_into(
    segments: &mut ListSegments,
    places: &mut ImpactPlaces,
    pairs: &mut [DocImpact],
    greatest: u16,
) -> Result<(), NoMemory>
    requires rising { IsStrictlyIncreasing (pair_docs pairs.old) }
    requires positive { All (λ (p : DocImpact). 1 ≤ p.impact) pairs.old }
    requires greatest { All (λ (p : DocImpact). p.impact ≤ greatest) pairs.old }
    ensures { OnOk result (segments.new ≡ segments_in (sorted pair_cmp pairs.old)) }
{
    match impact_count(pairs.len(), greatest) {
        Some(count) => places.group(segments, pairs, count),
        None => {
            arrange(pairs);
            segments.cut(pairs)
        }
    }
}

/// By falling impact, then rising document.
fn arrange(pairs: &mut [DocImpact])
    ensures { pairs.new ≡ sorted pair_cmp pairs.old }
{
    // Most lists have one posting.
    if pairs.len() > 1 {
        pairs.sort_unstable_by(|a, b| compare(*a, *b));
    }
}

/// How two pairs stand. Each is made one number, so that nothing branches.
#[inline(always)]
fn compare(a: DocImpact, b: DocImpact) -> Ordering
    ensures { result ≡ pair_cmp a b }
{
    key(a).cmp(&key(b))
}

/// A number for each pair, which rises as the impact falls, and then as the document rises.
#[inline(always)]
fn key(pair: DocImpact) -> u64
    ensures key { result ≡ pair_key pair }
    ensures doc { pair.doc < 2 ^ 32 }
    ensures impact { pair.impact < 2 ^ 16 }
{
    u64::from(GREATEST_IMPACT - u32::from(pair.impact)) * 4_294_967_296 + u64::from(pair.doc)
}
