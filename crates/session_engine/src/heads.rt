ghost use Rattle.std.specs.Prelude.{◌≡◌, ◌<◌, ◌≤◌, ◌++◌, All, length, IfOk, OnOk};
ghost use Rattle.jass_base.specs.declared.query_term.QueryTerm.{QueryTerm};
ghost use Rattle.index_model.specs.Querying.{segments_at};
ghost use Rattle.session_engine.specs.Plans.{AreKnown, heads_at, query_heads};
ghost use Rattle.jass_base.specs.declared.limits.TheConstants.{MOST_QUERY_TERMS, MOST_TIMES};

use index_file::Source;
use jass_base::{NoMemory, QueryTerm};
use segment_plan::PlanHead;
use std::alloc::Global;

/// The heads of the segments of some terms, term by term.
pub fn query_heads<S: Source>(
    alloc: Global,
    source: &S,
    terms: &[QueryTerm],
) -> Result<Vec<PlanHead>, NoMemory>
    requires few { length terms.now ≤ MOST_QUERY_TERMS }
    requires known { AreKnown (S.index source.now) terms.now }
    ensures heads { IfOk result (λ heads. heads.items ≡ query_heads (S.index source.now) terms.now) }
    ensures times { IfOk result (λ _. All (λ (n : QueryTerm). n.times ≤ MOST_TIMES) terms.now) }
{
    let mut heads = Vec::with_capacity(alloc, segment_count(source, terms))?;
    let mut term_place = 0;
    for named in terms {
        gather_heads(source, *named, term_place, &mut heads)?;
        term_place += 1;
    }
    Ok(heads)
}

/// How many segments some terms have together.
fn segment_count<S: Source>(source: &S, terms: &[QueryTerm]) -> usize {
    let mut count: usize = 0;
    for named in terms {
        count = count.saturating_add(source.segments(named.term) as usize);
    }
    count
}

/// Puts the heads of a term's segments behind the others. The term has this place in the query.
fn gather_heads<S: Source>(
    source: &S,
    named: QueryTerm,
    term_place: u32,
    heads: &mut Vec<PlanHead>,
) -> Result<(), NoMemory>
    requires { named.term < length (S.index source.now).terms }
    ensures heads { OnOk result
        (heads.new.items ≡ heads.old.items
        ++ heads_at term_place 0 (segments_at (S.index source.now).terms named.term)) }
    ensures times { named.times ≤ MOST_TIMES }
{
    for segment in 0..source.segments(named.term) {
        let head = source.head(named.term, segment);
        let head = PlanHead {
            term_place,
            segment,
            impact: head.impact,
            count: head.count,
        };
        heads.push(head)?;
    }
    Ok(())
}
