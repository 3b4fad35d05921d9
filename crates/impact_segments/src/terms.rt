ghost use Rattle.std.specs.Prelude.{◌≡◌, ◌≤◌, map, length, All, IfOk, OnOk};
ghost use Rattle.std.specs.Ordering.{nat_cmp};
ghost use Rattle.std.specs.Cmp.Lexicographic.{slice_cmp};
ghost use Rattle.std.specs.List.{flat_map};
ghost use Rattle.weights.specs.Quantizing.{IsImpactWidth, IsInRange};
ghost use Rattle.jass_base.specs.declared.postings_list.PostingsList.{PostingsList};
ghost use Rattle.jass_base.specs.declared.term_segments.TermSegments.{TermSegments};
ghost use Rattle.jass_base.specs.Lists.{HasDocsBelow};
ghost use Rattle.jass_base.specs.Terms.{HasTermBelow, greatest_impact};
ghost use Rattle.ranking_model.specs.Order.{sorted};
ghost use Rattle.ranking_model.specs.Flat.{entry_cmp};
ghost use Rattle.impact_segments.specs.Private.Weighed.{list_weights, list_entries};
ghost use Rattle.impact_segments.specs.Private.Held.{term_entries, flat_of_terms};
ghost use Rattle.impact_segments.specs.Private.Listed.{lists_behind};
ghost use Rattle.impact_segments.specs.Private.Pairs.{list_pairs};
ghost use Rattle.impact_segments.specs.declared.doc_impact.DocImpact.{DocImpact};

use crate::doc_impact::DocImpact;
use crate::grouping::group_by;
use crate::list_segments::ListSegments;
use crate::scratch::Scratch;
use crate::weighing::Weigher;
use jass_base::{NoMemory, PostingsList, Row, TermSegments, Text};
use std::alloc::Global;
use weights::{Bits, Range, impact_of};

/// The terms of lists that have postings, with their segments.
pub(crate) fn terms_of(
    alloc: Global,
    weigher: &Weigher,
    bits: Bits,
    range: Range,
    lists: &[&PostingsList],
) -> Result<Row<TermSegments>, NoMemory>
    requires width { IsImpactWidth bits }
    requires some { All (λ (l : PostingsList). 1 ≤ length l.postings) (lists_behind lists.now) }
    requires below { All (HasDocsBelow (length weigher.now.docs.now)) (lists_behind lists.now) }
    requires in_range { All (λ (l : PostingsList). All (IsInRange bits range)
        (list_weights weigher.now.rule weigher.now.docs.now l)) (lists_behind lists.now) }
    ensures terms { IfOk result (λ terms. map (λ (t : TermSegments). t.term) terms
        ≡ map (λ (l : PostingsList). l.term) (lists_behind lists.now)) }
    ensures entries { IfOk result (λ terms. flat_of_terms terms
        ≡ flat_map (λ (l : PostingsList). sorted (entry_cmp (slice_cmp nat_cmp))
        (list_entries weigher.now.rule weigher.now.docs.now bits range l)) (lists_behind lists.now)) }
    ensures docs { IfOk result (λ terms. All (HasTermBelow (length weigher.now.docs.now)) terms) }
{
    let mut terms = Row::new(alloc);
    let mut scratch = Scratch::new(alloc);
    let mut segments = ListSegments::new(alloc);
    for list in lists {
        let term = term_of(
            alloc,
            weigher,
            bits,
            range,
            list,
            &mut scratch,
            &mut segments,
        )?;
        terms.push(term)?;
    }
    Ok(terms)
}

/// The term of a list that has postings, made in memory that is used again.
fn term_of(
    alloc: Global,
    weigher: &Weigher,
    bits: Bits,
    range: Range,
    list: &PostingsList,
    scratch: &mut Scratch,
    segments: &mut ListSegments,
) -> Result<TermSegments, NoMemory>
    requires width { IsImpactWidth bits }
    requires some { 1 ≤ length list.now.postings }
    requires below { HasDocsBelow (length weigher.now.docs.now) list.now }
    requires in_range { All (IsInRange bits range) (list_weights weigher.now.rule weigher.now.docs.now list.now) }
    ensures term { IfOk result (λ t. t.term ≡ list.now.term) }
    ensures entries { IfOk result (λ t. term_entries t.term t.segments
        ≡ sorted (entry_cmp (slice_cmp nat_cmp))
        (list_entries weigher.now.rule weigher.now.docs.now bits range list.now)) }
    ensures docs { IfOk result (λ t. HasTermBelow (length weigher.now.docs.now) t) }
{
    let pairs = &mut scratch.pairs;
    impacts_of(weigher, bits, range, list, pairs)?;
    let term = Text::from_str(alloc, list.term.as_str())?;
    let segments = group_by(segments, &mut scratch.places, alloc, pairs)?;
    Ok(TermSegments { term, segments })
}

/// Leaves the documents of a list that has postings, with their impacts.
fn impacts_of(
    weigher: &Weigher,
    bits: Bits,
    range: Range,
    list: &PostingsList,
    pairs: &mut Vec<DocImpact>,
) -> Result<(), NoMemory>
    requires width { IsImpactWidth bits }
    requires some { 1 ≤ length list.now.postings }
    requires below { HasDocsBelow (length weigher.now.docs.now) list.now }
    requires in_range { All (IsInRange bits range) (list_weights weigher.now.rule weigher.now.docs.now list.now) }
    ensures pairs { OnOk result (pairs.new.items
        ≡ list_pairs weigher.now.rule weigher.now.docs.now bits range list.now) }
    ensures positive { OnOk result (All (λ (p : DocImpact). 1 ≤ p.impact) pairs.new.items) }
{
    pairs.clear();
    let rare = weigher.rarity(list);
    for posting in list.postings.as_slice() {
        let impact = impact_of(bits, range, weigher.weigh(rare, *posting));
        let pair = DocImpact {
            doc: posting.doc,
            impact,
        };
        pairs.push(pair)?;
    }
    Ok(())
}

/// The greatest impact of the terms: that of a first segment.
pub(crate) fn greatest_impact(terms: &[TermSegments]) -> u16
    ensures { result ≡ greatest_impact terms.now }
{
    let mut greatest = 0;
    for term in terms {
        greatest = term.segments.as_slice()[0].impact.max(greatest);
    }
    greatest
}
