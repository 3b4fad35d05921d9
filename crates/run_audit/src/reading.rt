//! The plan of a query, read from an index file.

ghost use Rattle.std.specs.Prelude.{◌≡◌, ◌+◌, ◌*◌, ◌<◌, ◌≤◌, ◌++◌, length, map, All, IfOk, OnOk};
ghost use Rattle.jass_base.specs.declared.limits.TheConstants.{MOST_QUERY_TERMS, MOST_TIMES};
ghost use Rattle.jass_base.specs.declared.query_term.QueryTerm.{QueryTerm};
ghost use Rattle.ranking_model.specs.Limits.{IsSmall};
ghost use Rattle.ranking_model.specs.Order.{sorted};
ghost use Rattle.ranking_model.specs.Plan.{plan_cmp, plan_of};
ghost use Rattle.ranking_model.specs.Postings.{AreTerms, weighted_postings};
ghost use Rattle.index_model.specs.Flat.{numbered_flat};
ghost use Rattle.index_model.specs.Querying.{query_segments, query_segments_at, segments_at};
ghost use Rattle.index_file.specs.Places.{segment_at};
ghost use Rattle.run_audit.specs.Audits.{Counts};
ghost use Rattle.run_audit.specs.Private.Reading.{AreKnown, segments_postings, plan_postings};

use index_file::IndexFile;
use index_model::laws::{
    a_query_weighs_its_segments, the_flat_list_is_flat, the_plan_has_the_named_segments,
};
use jass_base::{NoMemory, QueryTerm, Row, Steps};
use ranking_model::laws::plans_are_small;
use ranking_model::{PlanSegment, QueryPlan};
use std::alloc::Global;
use std::cmp::Reverse;
use std::sync::ledger::Ledger;

/// The plan of a query, with all postings of its terms.
#[tactic(auto, unfolding(ranking_model::specs::Plan::plan_of))]
pub fn read_plan<L: Ledger>(
    alloc: Global,
    index: &IndexFile,
    terms: &[QueryTerm],
    steps: &mut Steps<L>,
) -> Result<QueryPlan, NoMemory>
    requires terms { AreTerms terms.now }
    requires known { AreKnown index.now terms.now }
    ensures plan { IfOk result (λ plan. plan
        ≡ plan_of (length index.now.index.names) (numbered_flat index.now.index) terms.now) }
    ensures small { IfOk result (λ plan. IsSmall plan) }
    ensures steps { Counts steps.old steps.new
        (length (weighted_postings (numbered_flat index.now.index) terms.now)) result }
{
    index.is_checked();
    a_query_weighs_its_segments();
    the_flat_list_is_flat();
    the_plan_has_the_named_segments();
    plans_are_small();
    let mut segments = read_segments(alloc, index, terms, steps)?;
    arrange(&mut segments)?;
    Ok(QueryPlan {
        docs: index.docs(),
        terms: terms.len() as u32,
        segments: Row::from_vec(segments),
    })
}

/// Puts segments in the plan's order.
fn arrange(segments: &mut Vec<PlanSegment>) -> Result<(), NoMemory>
    ensures { OnOk result (segments.new.items ≡ sorted plan_cmp segments.old.items) }
{
    match segments.sort_by_key(|segment| (
        Reverse(segment.weight),
        segment.docs.len(),
        segment.term_place,
    )) {
        Ok(()) => Ok(()),
        Err(_) => Err(NoMemory),
    }
}

/// The segments that a query names, term by term.
fn read_segments<L: Ledger>(
    alloc: Global,
    index: &IndexFile,
    terms: &[QueryTerm],
    steps: &mut Steps<L>,
) -> Result<Vec<PlanSegment>, NoMemory>
    requires few { length terms.now ≤ MOST_QUERY_TERMS }
    requires known { AreKnown index.now terms.now }
    ensures segments { IfOk result (λ segments. segments.items ≡ query_segments index.now.index terms.now) }
    ensures times { IfOk result (λ _. All (λ (n : QueryTerm). n.times ≤ MOST_TIMES) terms.now) }
    ensures steps { Counts steps.old steps.new (plan_postings (query_segments index.now.index terms.now)) result }
{
    let mut block = [0u32; 128];
    let mut segments = Vec::new(alloc);
    let mut term_place = 0;
    for named in terms {
        read_term(
            alloc,
            index,
            *named,
            term_place,
            &mut segments,
            &mut block,
            steps,
        )?;
        term_place += 1;
    }
    Ok(segments)
}

/// Puts the segments of a term behind the others. The term has this place in the query; the block is scratch space.
fn read_term<L: Ledger>(
    alloc: Global,
    index: &IndexFile,
    named: QueryTerm,
    term_place: u32,
    segments: &mut Vec<PlanSegment>,
    block: &mut [u32; 128],
    steps: &mut Steps<L>,
) -> Result<(), NoMemory>
    requires { named.term < length index.now.index.terms }
    ensures segments { OnOk result (segments.new.items ≡ segments.old.items
        ++ query_segments_at term_place named (segments_at index.now.index.terms named.term)) }
    ensures times { named.times ≤ MOST_TIMES }
    ensures steps { Counts steps.old steps.new (segments_postings (segments_at index.now.index.terms named.term)) result }
{
    for s in 0..index.segments(named.term) {
        let head = index.head(named.term, s);
        let docs = read_docs(alloc, index, named.term, s, block, steps)?;
        let segment = PlanSegment {
            term_place,
            weight: u32::from(head.impact) * u32::from(named.times),
            docs,
        };
        segments.push(segment)?;
    }
    Ok(())
}

/// The documents of a segment.
fn read_docs<L: Ledger>(
    alloc: Global,
    index: &IndexFile,
    t: u32,
    s: u32,
    block: &mut [u32; 128],
    steps: &mut Steps<L>,
) -> Result<Row<u32>, NoMemory>
    requires t { t < length index.now.index.terms }
    requires s { s < length (segments_at index.now.index.terms t) }
    ensures docs { IfOk result (λ docs. docs ≡ (segment_at index.now.index.terms t s).docs) }
    ensures steps { Counts steps.old steps.new (length (segment_at index.now.index.terms t s).docs) result }
{
    let mut docs = Row::with_room(alloc, index.head(t, s).count as usize)?;
    let mut cursor = index.cursor(t, s);
    'blocks: loop {
        let given = index.next_block(&mut cursor, block, steps);
        if given == 0 {
            return Ok(docs);
        }
        docs.extend(&block[..given])?;
    }
}
