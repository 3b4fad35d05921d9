ghost use Rattle.std.specs.Prelude.{◌<◌, ◌≤◌, ◌++◌, length, All, codes};
ghost use Rattle.std.specs.List.{AllByRecursion};
ghost use Rattle.jass_base.specs.declared.answer.Hit.{Hit};
ghost use Rattle.jass_base.specs.declared.limits.TheConstants.{MOST_HITS};
ghost use Rattle.jass_base.specs.declared.query.Query.{Query};
ghost use Rattle.gathered_text.specs.Gathering.{Gathers};
ghost use Rattle.ranking_model.specs.Report.{run_lines};
ghost use Rattle.ranking_model.specs.Search.{query_data};
ghost use Rattle.session_engine.specs.Plans.{AreKnown};
ghost use Rattle.jass_top.specs.declared.search_stop.SearchOutput.{SearchOutput};
ghost use Rattle.jass_top.specs.declared.search_stop.SearchStop.{SearchStop};
ghost use Rattle.jass_top.specs.ExhaustMeaning.{exhaustive_line, exhaustive_lines, exhaustive_run, exhaustive_runs};
ghost use Rattle.jass_top.specs.ExhaustMeaning.{hits_line, postings_of_queries, postings_of_query};
ghost use Rattle.jass_top.specs.Private.SearchRuns.{Stepped, asked_of};
ghost use Rattle.jass_top.specs.Private.Sides.{Side, WroteSide};

use crate::search_budgets::gather_hits;
use crate::search_stop::{SearchOutput, SearchStop};
use gathered_text::{Buffer, flush, gather_all};
use index_file::NamedSource;
use index_model::laws::a_query_weighs_its_segments;
use itoa::Buffer as Digits;
use jass_base::{Hit, NoMemory, Query, Row, Sink, Steps, WriteFault};
use max_score::MaxScore;
use ranking_model::laws::{
    a_plan_has_the_segments_of_its_postings, the_ranking_has_documents_of_the_scores,
};
use std::alloc::Global;
use std::sync::ledger::Ledger;

/// Answers queries one after another by all their postings: run lines on one output, a line for each query on the other.
pub fn exhaust_all<S: NamedSource, R: Sink, O: Sink, L: Ledger>(
    alloc: Global,
    queries: Row<Query>,
    k: u32,
    tag: &str,
    source: &S,
    steps: &mut Steps<L>,
    run: &mut R,
    out: &mut O,
) -> Result<(), SearchStop>
    requires some { 1 ≤ k }
    requires few_hits { k ≤ MOST_HITS }
    requires known { AllByRecursion (λ (query : Query). AreKnown (S.index source.now) query.terms) queries }
    ensures steps { Stepped steps.old steps.new (postings_of_queries (S.index source.now) (asked_of queries)) result }
    ensures run { WroteSide R.written R.faults R.rest (SearchStop.Unwritten SearchOutput.Run) run.old run.new
        (exhaustive_runs (S.index source.now) k tag.now (asked_of queries)) result }
    ensures out { WroteSide O.written O.faults O.rest (SearchStop.Unwritten SearchOutput.Reports) out.old out.new
        (exhaustive_lines (S.index source.now) k (asked_of queries)) result }
{
    let mut run_buffer = Buffer::new();
    let mut out_buffer = Buffer::new();
    gather_queries(
        alloc,
        queries,
        k,
        tag,
        source,
        steps,
        run,
        &mut run_buffer,
        out,
        &mut out_buffer,
    )?;
    match flush(run, &mut run_buffer) {
        Ok(()) => {}
        Err(_) => return Err(SearchStop::Unwritten(SearchOutput::Run)),
    }
    match flush(out, &mut out_buffer) {
        Ok(()) => Ok(()),
        Err(_) => Err(SearchStop::Unwritten(SearchOutput::Reports)),
    }
}

/// Gathers the lines of all queries.
fn gather_queries<S: NamedSource, R: Sink, O: Sink, L: Ledger>(
    alloc: Global,
    queries: Row<Query>,
    k: u32,
    tag: &str,
    source: &S,
    steps: &mut Steps<L>,
    run: &mut R,
    run_buffer: &mut Buffer,
    out: &mut O,
    out_buffer: &mut Buffer,
) -> Result<(), SearchStop>
    requires some { 1 ≤ k }
    requires few_hits { k ≤ MOST_HITS }
    requires known { AllByRecursion (λ (query : Query). AreKnown (S.index source.now) query.terms) queries }
    ensures steps { Stepped steps.old steps.new (postings_of_queries (S.index source.now) (asked_of queries)) result }
    ensures run { Side R.written R.faults R.rest (SearchStop.Unwritten SearchOutput.Run)
        run.old run.new run_buffer.old run_buffer.new
        (exhaustive_runs (S.index source.now) k tag.now (asked_of queries)) result }
    ensures out { Side O.written O.faults O.rest (SearchStop.Unwritten SearchOutput.Reports)
        out.old out.new out_buffer.old out_buffer.new
        (exhaustive_lines (S.index source.now) k (asked_of queries)) result }
{
    for query in queries.into_vec() {
        gather_query(
            alloc, query, k, tag, source, steps, run, run_buffer, out, out_buffer,
        )?;
    }
    Ok(())
}

/// Gathers the lines of a query.
fn gather_query<S: NamedSource, R: Sink, O: Sink, L: Ledger>(
    alloc: Global,
    query: Query,
    k: u32,
    tag: &str,
    source: &S,
    steps: &mut Steps<L>,
    run: &mut R,
    run_buffer: &mut Buffer,
    out: &mut O,
    out_buffer: &mut Buffer,
) -> Result<(), SearchStop>
    requires some { 1 ≤ k }
    requires few_hits { k ≤ MOST_HITS }
    requires known { AreKnown (S.index source.now) query.terms }
    ensures steps { Stepped steps.old steps.new (postings_of_query (S.index source.now) (query_data query)) result }
    ensures run { Side R.written R.faults R.rest (SearchStop.Unwritten SearchOutput.Run)
        run.old run.new run_buffer.old run_buffer.new
        (exhaustive_run (S.index source.now) k tag.now (query_data query)) result }
    ensures out { Side O.written O.faults O.rest (SearchStop.Unwritten SearchOutput.Reports)
        out.old out.new out_buffer.old out_buffer.new
        (exhaustive_line (S.index source.now) k (query_data query)) result }
{
    the_ranking_has_documents_of_the_scores();
    a_plan_has_the_segments_of_its_postings();
    a_query_weighs_its_segments();
    let mut search = match MaxScore::new(alloc, source, &query, k) {
        Ok(search) => search,
        Err(NoMemory) => return Err(SearchStop::NoMemory),
    };
    search.answer(source, steps);
    let gathered = gather_exhausted(
        query.id.as_str(),
        query.unknown,
        search.hits(),
        tag,
        source,
        run,
        run_buffer,
        out,
        out_buffer,
    );
    match gathered {
        Ok(()) => Ok(()),
        Err(which) => Err(SearchStop::Unwritten(which)),
    }
}

/// Gathers the run lines of an answer, and then its line.
fn gather_exhausted<S: NamedSource, R: Sink, O: Sink>(
    id: &str,
    unknown: u32,
    hits: &[Hit],
    tag: &str,
    source: &S,
    run: &mut R,
    run_buffer: &mut Buffer,
    out: &mut O,
    out_buffer: &mut Buffer,
) -> Result<(), SearchOutput>
    requires { All (λ (hit : Hit). hit.doc < length (S.index source.now).names) hits.now }
    ensures run { Side R.written R.faults R.rest SearchOutput.Run run.old run.new run_buffer.old run_buffer.new
        (run_lines (S.index source.now).names id.now tag.now 1 hits.now) result }
    ensures out { Side O.written O.faults O.rest SearchOutput.Reports out.old out.new out_buffer.old out_buffer.new
        (hits_line id.now (length hits.now) unknown) result }
{
    let room = out_buffer.room();
    match gather_hits(id, hits, 0, tag, source, run, run_buffer, room) {
        Ok(()) => {}
        Err(_) => return Err(SearchOutput::Run),
    }
    match gather_line(out, out_buffer, id, hits.len() as u64, unknown) {
        Ok(()) => Ok(()),
        Err(_) => Err(SearchOutput::Reports),
    }
}

/// Gathers the line of a query with so many hits.
fn gather_line<O: Sink>(
    out: &mut O,
    buffer: &mut Buffer,
    id: &str,
    hits: u64,
    unknown: u32,
) -> Result<(), WriteFault>
    ensures { Gathers O.written O.faults O.rest out.old out.new buffer.old buffer.new
        (hits_line id.now hits unknown) result }
{
    let mut found = Digits::new();
    let mut mentions = Digits::new();
    gather_columns(
        out,
        buffer,
        id.as_bytes(),
        found.format(hits).as_bytes(),
        mentions.format(unknown).as_bytes(),
    )
}

/// Gathers the columns of a line, which have one lifetime so that they lie in one array.
fn gather_columns<'x, O: Sink>(
    out: &mut O,
    buffer: &mut Buffer,
    id: &'x [u8],
    hits: &'x [u8],
    unknown: &'x [u8],
) -> Result<(), WriteFault>
    ensures { Gathers O.written O.faults O.rest out.old out.new buffer.old buffer.new
        (id.now ++ (codes " hits " ++ (hits.now ++ (codes " unknown " ++ (unknown.now ++ codes "\n"))))) result }
{
    gather_all(
        out,
        buffer,
        &[id, b" hits ", hits, b" unknown ", unknown, b"\n"],
    )
}
