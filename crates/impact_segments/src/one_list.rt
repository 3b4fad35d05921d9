//! The weights and impacts of one list at a time, for a collection that isn't held in memory.

ghost use Rattle.std.specs.Prelude.{◌≡◌, ℕ, None, ◌<◌, ◌≤◌, ◌*◌, ◌^◌, [], ◌∷◌, length, fold, All, IfErr, IfOk, OnOk, min, slice_index};
ghost use Rattle.std.specs.Option.{ForSome};
ghost use Rattle.jass_base.specs.Postings.{HasTfInRange};
ghost use Rattle.weights.specs.Quantizing.{IsImpactWidth, IsInRange, impact_of, widened};
ghost use Rattle.weights.specs.Weighting.{idf, length_norm};
ghost use Rattle.impact_segments.specs.Collections.{weight_in, weights_in};
ghost use Rattle.impact_segments.specs.Private.ImpactTable.{AreImpacts};
ghost use Rattle.impact_segments.specs.OneList.{ArePostingsOf, EndsLow, IsListOf, Unmade, nearer_end, norms_in, outside, pairs_in};
ghost use Rattle.impact_segments.specs.declared.doc_impact.DocImpact.{DocImpact};
ghost use Rattle.jass_base.specs.declared.limits.TheConstants.{MOST_DOCUMENTS};

use crate::doc_impact::DocImpact;
use crate::postings_by_place::PostingsByPlace;
use jass_base::{NoMemory, Posting, PostingsList};
use std::alloc::Global;
use weights::{Bits, Range, Rule, idf, impact_of, length_norm, saturated};

/// Why no segments were made of a list.
#[derive(Clone, Copy, Debug, PartialEq, Eq)]
pub enum SegmentsFault {
    /// The first weight outside the range, and the end of the range that is nearer to it.
    Outside { kept: u64, found: u64 },
    NoMemory,
}

/// What the weights of a list's postings depend on.
#[derive(Clone, Copy)]
struct ListRule<'a> {
    rule: Rule,
    /// How many terms all documents have together.
    total: u64,
    /// How rare the term of the list is.
    rare: u32,
    /// How many terms each document has.
    lengths: &'a [u32],
    /// How far each document's length slows the growth of a weight, where the caller has it.
    norms: Option<&'a [u64]>,
    ghost norms_are: { ForSome norms (λ n. n.now ≡ norms_in lengths.now total) },
}

impl<'a> ListRule<'a> {
    /// What the weights of a list with so many postings depend on.
    fn new(
        rule: Rule,
        total: u64,
        count: usize,
        lengths: &'a [u32],
        norms: Option<&'a [u64]>,
    ) -> ListRule<'a>
        requires some { 1 ≤ count }
        requires within_docs { count ≤ length lengths.now }
        requires few { length lengths.now ≤ MOST_DOCUMENTS }
        requires norms { ForSome norms (λ n. n.now ≡ norms_in lengths.now total) }
        ensures rule { result.rule ≡ rule }
        ensures total { result.total ≡ total }
        ensures rare { result.rare ≡ idf (length lengths.now) count }
        ensures limit { result.rare < 27 * 1024 }
        ensures lengths { result.lengths.now ≡ lengths.now }
    {
        let rare = idf(lengths.len() as u32, count as u32);
        ListRule {
            rule,
            total,
            rare,
            lengths,
            norms,
        }
    }

    /// The weight of a posting of the list, at least 1.
    fn weigh(&self, posting: Posting) -> u64
        requires few { length self.now.lengths.now ≤ MOST_DOCUMENTS }
        requires total { 1 ≤ self.now.total }
        requires limit { self.now.rare < 27 * 1024 }
        requires below { posting.doc < length self.now.lengths.now }
        requires tf { HasTfInRange posting }
        ensures value { (count : ℕ) → self.now.rare ≡ idf (length self.now.lengths.now) count
            → result ≡ weight_in self.now.rule self.now.lengths.now self.now.total count posting }
        ensures positive { 1 ≤ result }
        ensures limit { result < 2 ^ 31 }
    {
        match self.rule {
            Rule::Tf => u64::from(posting.tf),
            Rule::Bm25 => {
                let norm = self.norm(posting.doc);
                saturated(self.rare, posting.tf, norm)
            }
        }
    }

    /// How far the length of a document slows the growth of a weight.
    fn norm(&self, doc: u32) -> u64
        requires few { length self.now.lengths.now ≤ MOST_DOCUMENTS }
        requires total { 1 ≤ self.now.total }
        requires below { doc < length self.now.lengths.now }
        ensures { result ≡ min (length_norm (length self.now.lengths.now) self.now.total
            (slice_index self.now.lengths.now doc)) (2 ^ 63) }
    {
        match self.norms {
            Some(norms) => norms[doc as usize],
            None => {
                let length = self.lengths[doc as usize];
                length_norm(self.lengths.len() as u32, self.total, length)
            }
        }
    }
}

/// How far each length slows the growth of a weight, where the documents have these lengths and so
/// many terms in all. A caller that reads lists more than once makes the norms once, so that they are
/// not taken for each posting.
pub fn length_norms(alloc: Global, total: u64, lengths: &[u32]) -> Result<Vec<u64>, NoMemory>
    requires few { length lengths.now ≤ MOST_DOCUMENTS }
    requires total { 1 ≤ total }
    ensures { IfOk result (λ norms. norms.items ≡ norms_in lengths.now total) }
{
    let count = lengths.len() as u32;
    let mut norms = Vec::with_capacity(alloc, lengths.len())?;
    for length in lengths {
        norms.push(length_norm(count, total, *length))?;
    }
    Ok(norms)
}

/// Makes a range hold the weight of each posting of a list, too, where the documents have these
/// lengths and so many terms in all. It takes no memory.
pub fn widen_list(range: &mut Range, rule: Rule, total: u64, list: &PostingsList, lengths: &[u32])
    requires { IsListOf lengths.now total list.now }
    ensures { range.new ≡ fold widened range.old (weights_in rule lengths.now total list.now.postings) }
{
    widen(range, rule, total, list, lengths, None);
}

/// What `widen_list` does, by the documents' norms, and for postings however they are kept.
pub fn widen_by_norms<P: PostingsByPlace>(
    range: &mut Range,
    rule: Rule,
    total: u64,
    list: &P,
    lengths: &[u32],
    norms: &[u64],
)
    requires list { ArePostingsOf lengths.now total (P.postings list.now) }
    requires norms { norms.now ≡ norms_in lengths.now total }
    ensures { range.new ≡ fold widened range.old (weights_in rule lengths.now total (P.postings list.now)) }
{
    widen(range, rule, total, list, lengths, Some(norms));
}

/// The same, with norms where the caller has them.
fn widen<P: PostingsByPlace>(
    range: &mut Range,
    rule: Rule,
    total: u64,
    list: &P,
    lengths: &[u32],
    norms: Option<&[u64]>,
)
    requires list { ArePostingsOf lengths.now total (P.postings list.now) }
    requires norms { ForSome norms (λ n. n.now ≡ norms_in lengths.now total) }
    ensures { range.new ≡ fold widened range.old (weights_in rule lengths.now total (P.postings list.now)) }
{
    let count = list.count();
    let weigher = ListRule::new(rule, total, count, lengths, norms);
    for place in 0..count {
        range.widen(weigher.weigh(list.posting(place)));
    }
}

/// Puts the documents of a list with their impacts into a row of as many. No impact is above the one
/// that is returned.
pub(crate) fn impacts_of<P: PostingsByPlace>(
    pairs: &mut [DocImpact],
    table: &[u16],
    rule: Rule,
    bits: Bits,
    range: Range,
    total: u64,
    list: &P,
    lengths: &[u32],
    norms: Option<&[u64]>,
) -> Result<u16, SegmentsFault>
    requires list { ArePostingsOf lengths.now total (P.postings list.now) }
    requires width { IsImpactWidth bits }
    requires low { EndsLow bits range }
    requires norms { ForSome norms (λ n. n.now ≡ norms_in lengths.now total) }
    requires table { AreImpacts bits range table.now }
    requires room { length pairs.old ≡ length (P.postings list.now) }
    ensures pairs { OnOk result (pairs.new ≡ pairs_in rule lengths.now total bits range (P.postings list.now)) }
    ensures positive { OnOk result (All (λ (p : DocImpact). 1 ≤ p.impact) pairs.new) }
    ensures greatest { IfOk result (λ greatest. All (λ (p : DocImpact). p.impact ≤ greatest) pairs.new) }
    ensures inside { OnOk result
        (outside bits range (weights_in rule lengths.now total (P.postings list.now)) ≡ None) }
    ensures fault { IfErr result
        (Unmade (outside bits range (weights_in rule lengths.now total (P.postings list.now)))) }
{
    let count = list.count();
    let weigher = ListRule::new(rule, total, count, lengths, norms);
    let mut greatest = 0;
    for place in 0..count {
        let posting = list.posting(place);
        let weight = weigher.weigh(posting);
        let impact = impact_in(table, bits, range, weight)?;
        pairs[place] = DocImpact {
            doc: posting.doc,
            impact,
        };
        greatest = impact.max(greatest);
    }
    Ok(greatest)
}

/// The impact of a weight, by the table where it holds it. A weight outside the range is refused.
#[inline(always)]
fn impact_in(table: &[u16], bits: Bits, range: Range, weight: u64) -> Result<u16, SegmentsFault>
    requires width { IsImpactWidth bits }
    requires low { EndsLow bits range }
    requires table { AreImpacts bits range table.now }
    requires some { 1 ≤ weight }
    ensures value { IfOk result (λ impact. impact ≡ impact_of bits range weight) }
    ensures positive { IfOk result (λ impact. 1 ≤ impact) }
    ensures ok { OnOk result (outside bits range (weight ∷ []) ≡ None) }
    ensures err { IfErr result (Unmade (outside bits range (weight ∷ []))) }
{
    if weight >= range.least && weight - range.least < table.len() as u64 {
        return Ok(table[(weight - range.least) as usize]);
    }
    judge(bits, range, weight)?;
    Ok(impact_of(bits, range, weight))
}

/// Refuses a weight outside the range that impacts of these bits are places in.
fn judge(bits: Bits, range: Range, weight: u64) -> Result<(), SegmentsFault>
    requires { EndsLow bits range }
    ensures inside { OnOk result (IsInRange bits range weight) }
    ensures ok { OnOk result (outside bits range (weight ∷ []) ≡ None) }
    ensures err { IfErr result (Unmade (outside bits range (weight ∷ []))) }
{
    match bits {
        Bits::Raw => Ok(()),
        Bits::Of(_) if range.least <= weight && weight <= range.greatest => Ok(()),
        Bits::Of(_) => Err(SegmentsFault::Outside {
            kept: nearer_end(range, weight),
            found: weight,
        }),
    }
}

/// The end of a range that is nearer to a weight.
fn nearer_end(range: Range, weight: u64) -> u64
    ensures { result ≡ nearer_end range weight }
{
    if weight.abs_diff(range.least) <= weight.abs_diff(range.greatest) {
        range.least
    } else {
        range.greatest
    }
}
