ghost use Rattle.std.specs.Prelude.{◌≡◌, ◌<◌, [], ◌∷◌, ◌++◌, IfOk, OnOk, fold, IsSorted, vec_len};
ghost use Rattle.ranking_model.specs.Order.{sorted};
ghost use Rattle.ranking_model.specs.Programs.{place_cmp};
ghost use Rattle.ranking_model.specs.Private.Programs.{ends_in, last_with};
ghost use Rattle.ranking_model.specs.Plan.{begun, joined, plan_cmp, plan_segments};

use crate::posting::WeightedPosting;
use jass_base::{NoMemory, Row};
use std::alloc::Global;
use std::cmp::Reverse;

/// The postings of a query that are of one of its terms and have one weight.
#[derive(Debug, Drop)]
pub struct PlanSegment {
    pub term_place: u32,
    pub weight: u32,
    pub docs: Row<u32>,
}

/// The segments of a query's postings in the order in which they are scored: by falling weight,
/// then rising number of postings, then the term's rising place in the query.
pub fn plan_segments(
    alloc: Global,
    postings: &[WeightedPosting],
) -> Result<Row<PlanSegment>, NoMemory>
    requires { IsSorted place_cmp postings.now }
    ensures { IfOk result (λ segments. segments ≡ plan_segments postings.now) }
{
    let mut segments = group(alloc, postings)?;
    arrange(&mut segments)?;
    Ok(Row::from_vec(segments))
}

/// The segments in the order in which they begin.
fn group(alloc: Global, postings: &[WeightedPosting]) -> Result<Vec<PlanSegment>, NoMemory>
    requires { IsSorted place_cmp postings.now }
    ensures { IfOk result (λ segments. segments.items ≡ fold joined [] postings.now) }
{
    let mut segments = Vec::new(alloc);
    for posting in postings {
        if continues(&segments, posting) {
            add_to_last(&mut segments, posting.doc)?;
        } else {
            begin(alloc, &mut segments, posting)?;
        }
    }
    Ok(segments)
}

fn add_to_last(segments: &mut Vec<PlanSegment>, doc: u32) -> Result<(), NoMemory>
    requires { 0 < vec_len segments.old }
    ensures { OnOk result (segments.new.items ≡ last_with segments.old.items doc) }
{
    let last = segments.len() - 1;
    match segments[last].docs.push(doc) {
        Ok(()) => Ok(()),
        Err(_) => Err(NoMemory),
    }
}

fn begin(
    alloc: Global,
    segments: &mut Vec<PlanSegment>,
    posting: &WeightedPosting,
) -> Result<(), NoMemory>
    ensures { OnOk result (segments.new.items ≡ segments.old.items ++ begun posting.now ∷ []) }
{
    let mut docs = Row::new(alloc);
    docs.push(posting.doc).map_err(|refused| refused.1)?;
    let segment = PlanSegment {
        term_place: posting.term_place,
        weight: posting.weight,
        docs,
    };
    match segments.push(segment) {
        Ok(()) => Ok(()),
        Err(_) => Err(NoMemory),
    }
}

fn continues(segments: &[PlanSegment], posting: &WeightedPosting) -> bool
    ensures { result ≡ ends_in segments.now posting.now }
{
    match segments.last() {
        Some(segment) => segment.term_place == posting.term_place
            && segment.weight == posting.weight,
        None => false,
    }
}

fn arrange(segments: &mut Vec<PlanSegment>) -> Result<(), NoMemory>
    ensures { OnOk result (segments.new.items ≡ sorted plan_cmp segments.old.items) }
{
    match segments.sort_by_key(|segment| (
        Reverse(segment.weight),
        segment.docs.len(),
        segment.term_place,
    )) {
        Ok(()) => Ok(()),
        Err(_) => Err(NoMemory),
    }
}
