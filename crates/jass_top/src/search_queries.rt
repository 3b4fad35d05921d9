ghost use Rattle.std.specs.Prelude.{◌≤◌, length};
ghost use Rattle.std.specs.List.{AllByRecursion};
ghost use Rattle.jass_base.specs.declared.query.Query.{Query};
ghost use Rattle.ranking_model.specs.Search.{query_data};
ghost use Rattle.session_engine.specs.Plans.{AreKnown};
ghost use Rattle.jass_top.specs.declared.search_stop.SearchOutput.{SearchOutput};
ghost use Rattle.jass_top.specs.declared.search_stop.SearchStop.{SearchStop};
ghost use Rattle.jass_top.specs.SearchMeaning.{search_until};
ghost use Rattle.jass_top.specs.SearchTexts.{search_output, stops_reports, stops_run, stops_steps};
ghost use Rattle.jass_top.specs.Private.SearchRuns.{IsReady, MayStop, Stepped, asked_of};
ghost use Rattle.jass_top.specs.Private.Sides.{Side, WroteSide};
ghost use Rattle.jass_base.specs.declared.limits.TheConstants.{MOST_HITS};
ghost use Rattle.jass_words.specs.declared.word_limits.TheConstants.{MOST_BUDGETS};

use crate::engine::Engine;
use crate::search_budgets::gather_budgets;
use crate::search_stop::{SearchOutput, SearchStop};
use frame_pool::FramePool;
use gathered_text::{Buffer, flush};
use index_file::NamedSource;
use jass_base::{Budget, Query, Row, Sink, Steps};
use jass_words::Until;
use session_engine::OpenStop;
use session_engine::laws::a_standing_session_has_its_chain;
use sharp_search::laws::a_standing_search_has_its_chain;
use std::alloc::Global;
use std::sync::ledger::Ledger;

/// Answers queries one after another, each budget by budget: run lines on one output, report lines on the other.
pub fn search_all<S: NamedSource, R: Sink, O: Sink, L: Ledger>(
    alloc: Global,
    queries: Row<Query>,
    k: u32,
    budgets: &[Budget],
    tag: &str,
    until: Until,
    source: &S,
    pool: &mut FramePool,
    steps: &mut Steps<L>,
    run: &mut R,
    out: &mut O,
) -> Result<(), SearchStop>
    requires some { 1 ≤ k }
    requires few_hits { k ≤ MOST_HITS }
    requires few_budgets { length budgets.now ≤ MOST_BUDGETS }
    requires known { AllByRecursion (λ (query : Query). AreKnown (S.index source.now) query.terms) queries }
    requires few_terms { AllByRecursion (MayStop until) queries }
    requires ready { IsReady (S.index source.now) pool.old }
    ensures steps { Stepped steps.old steps.new
        (search_output (S.index source.now)
        (search_until until k budgets.now tag.now) (asked_of queries)).steps result }
    ensures run { WroteSide R.written R.faults R.rest (SearchStop.Unwritten SearchOutput.Run) run.old run.new
        (search_output (S.index source.now) (search_until until k budgets.now tag.now) (asked_of queries)).content
        result }
    ensures out { WroteSide O.written O.faults O.rest (SearchStop.Unwritten SearchOutput.Reports) out.old out.new
        (search_output (S.index source.now) (search_until until k budgets.now tag.now) (asked_of queries)).text
        result }
{
    let mut run_buffer = Buffer::new();
    let mut out_buffer = Buffer::new();
    gather_queries(
        alloc,
        queries,
        k,
        budgets,
        tag,
        until,
        source,
        pool,
        steps,
        run,
        &mut run_buffer,
        out,
        &mut out_buffer,
    )?;
    match flush(run, &mut run_buffer) {
        Ok(()) => {}
        Err(_) => return Err(SearchStop::Unwritten(SearchOutput::Run)),
    }
    match flush(out, &mut out_buffer) {
        Ok(()) => Ok(()),
        Err(_) => Err(SearchStop::Unwritten(SearchOutput::Reports)),
    }
}

/// Gathers the lines of all queries.
fn gather_queries<S: NamedSource, R: Sink, O: Sink, L: Ledger>(
    alloc: Global,
    queries: Row<Query>,
    k: u32,
    budgets: &[Budget],
    tag: &str,
    until: Until,
    source: &S,
    pool: &mut FramePool,
    steps: &mut Steps<L>,
    run: &mut R,
    run_buffer: &mut Buffer,
    out: &mut O,
    out_buffer: &mut Buffer,
) -> Result<(), SearchStop>
    requires some { 1 ≤ k }
    requires few_hits { k ≤ MOST_HITS }
    requires few_budgets { length budgets.now ≤ MOST_BUDGETS }
    requires known { AllByRecursion (λ (query : Query). AreKnown (S.index source.now) query.terms) queries }
    requires few_terms { AllByRecursion (MayStop until) queries }
    requires ready { IsReady (S.index source.now) pool.old }
    ensures steps { Stepped steps.old steps.new
        (search_output (S.index source.now)
        (search_until until k budgets.now tag.now) (asked_of queries)).steps result }
    ensures run { Side R.written R.faults R.rest (SearchStop.Unwritten SearchOutput.Run)
        run.old run.new run_buffer.old run_buffer.new
        (search_output (S.index source.now) (search_until until k budgets.now tag.now) (asked_of queries)).content
        result }
    ensures out { Side O.written O.faults O.rest (SearchStop.Unwritten SearchOutput.Reports)
        out.old out.new out_buffer.old out_buffer.new
        (search_output (S.index source.now) (search_until until k budgets.now tag.now) (asked_of queries)).text
        result }
{
    for query in queries.into_vec() {
        gather_query(
            alloc, query, k, budgets, tag, until, source, pool, steps, run, run_buffer, out,
            out_buffer,
        )?;
    }
    Ok(())
}

/// Gathers the lines of a query, whose engine is closed on each exit.
fn gather_query<S: NamedSource, R: Sink, O: Sink, L: Ledger>(
    alloc: Global,
    query: Query,
    k: u32,
    budgets: &[Budget],
    tag: &str,
    until: Until,
    source: &S,
    pool: &mut FramePool,
    steps: &mut Steps<L>,
    run: &mut R,
    run_buffer: &mut Buffer,
    out: &mut O,
    out_buffer: &mut Buffer,
) -> Result<(), SearchStop>
    requires some { 1 ≤ k }
    requires few_hits { k ≤ MOST_HITS }
    requires few_budgets { length budgets.now ≤ MOST_BUDGETS }
    requires known { AreKnown (S.index source.now) query.terms }
    requires few_terms { MayStop until query }
    requires ready { IsReady (S.index source.now) pool.old }
    ensures ready { IsReady (S.index source.now) pool.new }
    ensures steps { Stepped steps.old steps.new
        (stops_steps (S.index source.now) (search_until until k budgets.now tag.now) (query_data query)) result }
    ensures run { Side R.written R.faults R.rest (SearchStop.Unwritten SearchOutput.Run)
        run.old run.new run_buffer.old run_buffer.new
        (stops_run (S.index source.now) (search_until until k budgets.now tag.now) (query_data query)) result }
    ensures out { Side O.written O.faults O.rest (SearchStop.Unwritten SearchOutput.Reports)
        out.old out.new out_buffer.old out_buffer.new
        (stops_reports (S.index source.now) (search_until until k budgets.now tag.now) (query_data query)) result }
{
    a_standing_session_has_its_chain();
    a_standing_search_has_its_chain();
    let mut engine = match Engine::open(alloc, source, pool, query, k, until) {
        Ok(engine) => engine,
        Err(OpenStop::NoMemory) => return Err(SearchStop::NoMemory),
        Err(OpenStop::PoolFull { .. }) => unreachable!("the pool has a frame for each page"),
    };
    let gathered = gather_budgets(
        &mut engine,
        budgets,
        tag,
        source,
        pool,
        steps,
        run,
        run_buffer,
        out,
        out_buffer,
    );
    engine.close(pool);
    match gathered {
        Ok(()) => Ok(()),
        Err(which) => Err(SearchStop::Unwritten(which)),
    }
}
