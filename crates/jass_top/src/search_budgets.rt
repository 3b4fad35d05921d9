ghost use Rattle.std.specs.Prelude.{◌≡◌, ◌+◌, ◌≤◌, ◌<◌, length, All};
ghost use Rattle.jass_base.specs.declared.answer.Hit.{Hit};
ghost use Rattle.ranking_model.specs.Plan.{granted_with};
ghost use Rattle.ranking_model.specs.Report.{report_line, run_lines, tag_of};
ghost use Rattle.ranking_model.specs.Search.{query_data};
ghost use Rattle.frame_pool.specs.ChainView.{LeavesPool};
ghost use Rattle.gathered_text.specs.Gathering.{Gathers};
ghost use Rattle.jass_top.specs.declared.search_stop.SearchOutput.{SearchOutput};
ghost use Rattle.jass_top.specs.SearchMeaning.{search_until};
ghost use Rattle.jass_top.specs.SearchTexts.{first_part_of, stops_reports, stops_run, stops_steps};
ghost use Rattle.jass_top.specs.Private.Engines.{EngineStands, IsEngineOf, chain_of, granted_of, k_of, query_of};
ghost use Rattle.jass_top.specs.Private.Engines.{report_of, until_of};
ghost use Rattle.jass_top.specs.Private.SearchRuns.{Stepped, answer_text, report_text};
ghost use Rattle.jass_top.specs.Private.Sides.{Side};
ghost use Rattle.jass_words.specs.declared.word_limits.TheConstants.{MOST_BUDGETS};

use crate::engine::Engine;
use crate::search_stop::SearchOutput;
use frame_pool::FramePool;
use frame_pool::laws::calls_on_one_chain;
use gathered_text::{Buffer, flush};
use index_file::NamedSource;
use jass_base::{Budget, Hit, Report, Sink, Steps, WriteFault};
use ranking_model::laws::{the_prefix_is_the_longest, the_ranking_has_documents_of_the_scores};
use ranking_model::prefix_laws::{a_prefix_is_resumed, one_budget_more_is_granted};
use session_engine::laws::a_session_plan_names_its_segments;
use sharp_search::laws::a_search_stops_as_soon_as_it_may;
use std::sync::ledger::Ledger;
use trec_run::{gather_answer, gather_report};

/// The most bytes of a report line without its id.
const REPORT_BYTES: usize = 160;

/// Gathers the run lines and the report lines of one query, budget by budget.
pub fn gather_budgets<S: NamedSource, R: Sink, O: Sink, L: Ledger>(
    engine: &mut Engine,
    budgets: &[Budget],
    tag: &str,
    source: &S,
    pool: &mut FramePool,
    steps: &mut Steps<L>,
    run: &mut R,
    run_buffer: &mut Buffer,
    out: &mut O,
    out_buffer: &mut Buffer,
) -> Result<(), SearchOutput>
    requires few { length budgets.now ≤ MOST_BUDGETS }
    requires stands { EngineStands engine.old (S.index source.now) pool.old }
    requires none { granted_of engine.old ≡ 0 }
    ensures stands { EngineStands engine.new (S.index source.now) pool.new }
    ensures same { IsEngineOf engine.old engine.new }
    ensures leaves { LeavesPool pool.old pool.new (chain_of engine.old) }
    ensures steps { Stepped steps.old steps.new (stops_steps (S.index source.now)
        (search_until (until_of engine.old) (k_of engine.old) budgets.now tag.now) (query_data (query_of engine.old)))
        result }
    ensures run { Side R.written R.faults R.rest SearchOutput.Run run.old run.new run_buffer.old run_buffer.new
        (stops_run (S.index source.now) (search_until (until_of engine.old) (k_of engine.old) budgets.now tag.now)
        (query_data (query_of engine.old))) result }
    ensures out { Side O.written O.faults O.rest SearchOutput.Reports out.old out.new out_buffer.old out_buffer.new
        (stops_reports (S.index source.now) (search_until (until_of engine.old) (k_of engine.old) budgets.now tag.now)
        (query_data (query_of engine.old))) result }
{
    source.is_searchable();
    the_prefix_is_the_longest();
    a_prefix_is_resumed();
    one_budget_more_is_granted();
    a_search_stops_as_soon_as_it_may();
    calls_on_one_chain();
    let mut part = first_part(budgets);
    for budget in budgets {
        gather_budget(
            engine, *budget, part, tag, source, pool, steps, run, run_buffer, out, out_buffer,
        )?;
        part += 1;
    }
    Ok(())
}

/// The part of the run at the first budget.
fn first_part(budgets: &[Budget]) -> u32
    ensures { result ≡ first_part_of budgets.now }
{
    if budgets.len() == 1 { 0 } else { 1 }
}

/// Gathers the run lines and the report line of one grant.
fn gather_budget<S: NamedSource, R: Sink, O: Sink, L: Ledger>(
    engine: &mut Engine,
    budget: Budget,
    part: u32,
    tag: &str,
    source: &S,
    pool: &mut FramePool,
    steps: &mut Steps<L>,
    run: &mut R,
    run_buffer: &mut Buffer,
    out: &mut O,
    out_buffer: &mut Buffer,
) -> Result<(), SearchOutput>
    requires stands { EngineStands engine.old (S.index source.now) pool.old }
    ensures stands { EngineStands engine.new (S.index source.now) pool.new }
    ensures granted { granted_of engine.new ≡ granted_with (granted_of engine.old) budget }
    ensures same { IsEngineOf engine.old engine.new }
    ensures leaves { LeavesPool pool.old pool.new (chain_of engine.old) }
    ensures steps { steps.new + (report_of engine.old).postings ≡ steps.old + (report_of engine.new).postings }
    ensures run { Side R.written R.faults R.rest SearchOutput.Run run.old run.new run_buffer.old run_buffer.new
        (answer_text (S.index source.now) engine.new tag.now part) result }
    ensures out { Side O.written O.faults O.rest SearchOutput.Reports out.old out.new out_buffer.old out_buffer.new
        (report_text engine.new) result }
{
    a_session_plan_names_its_segments();
    the_ranking_has_documents_of_the_scores();
    let report = engine.grant(source, pool, budget, steps);
    let query = engine.query();
    gather_turn(
        query.id.as_str(),
        query.unknown,
        report,
        engine.answer(),
        part,
        tag,
        source,
        run,
        run_buffer,
        out,
        out_buffer,
    )
}

/// Gathers an answer, and then its report.
fn gather_turn<S: NamedSource, R: Sink, O: Sink>(
    id: &str,
    unknown: u32,
    report: Report,
    hits: &[Hit],
    part: u32,
    tag: &str,
    source: &S,
    run: &mut R,
    run_buffer: &mut Buffer,
    out: &mut O,
    out_buffer: &mut Buffer,
) -> Result<(), SearchOutput>
    requires { All (λ (hit : Hit). hit.doc < length (S.index source.now).names) hits.now }
    ensures run { Side R.written R.faults R.rest SearchOutput.Run run.old run.new run_buffer.old run_buffer.new
        (run_lines (S.index source.now).names id.now (tag_of tag.now part) 1 hits.now) result }
    ensures out { Side O.written O.faults O.rest SearchOutput.Reports out.old out.new out_buffer.old out_buffer.new
        (report_line id.now report unknown) result }
{
    let room = out_buffer.room();
    match gather_hits(id, hits, part, tag, source, run, run_buffer, room) {
        Ok(()) => {}
        Err(_) => return Err(SearchOutput::Run),
    }
    match gather_report(out, out_buffer, id, unknown, report) {
        Ok(()) => Ok(()),
        Err(_) => Err(SearchOutput::Reports),
    }
}

/// Gathers an answer. Where a report may find too little room and so send those before it, the run
/// goes first, so that no report is out before the run lines of its query.
pub fn gather_hits<S: NamedSource, R: Sink>(
    id: &str,
    hits: &[Hit],
    part: u32,
    tag: &str,
    source: &S,
    run: &mut R,
    run_buffer: &mut Buffer,
    room: usize,
) -> Result<(), WriteFault>
    requires { All (λ (hit : Hit). hit.doc < length (S.index source.now).names) hits.now }
    ensures { Gathers R.written R.faults R.rest run.old run.new run_buffer.old run_buffer.new
        (run_lines (S.index source.now).names id.now (tag_of tag.now part) 1 hits.now) result }
{
    gather_named(run, run_buffer, id, source, hits, tag, part)?;
    if room >= id.len() + REPORT_BYTES {
        return Ok(());
    }
    match flush(run, run_buffer) {
        Ok(()) => Ok(()),
        Err(fault) => Err(fault),
    }
}

/// Gathers the run lines of an answer, by the names of the index.
fn gather_named<S: NamedSource, R: Sink>(
    run: &mut R,
    run_buffer: &mut Buffer,
    id: &str,
    source: &S,
    hits: &[Hit],
    tag: &str,
    part: u32,
) -> Result<(), WriteFault>
    requires { All (λ (hit : Hit). hit.doc < length (S.index source.now).names) hits.now }
    ensures { Gathers R.written R.faults R.rest run.old run.new run_buffer.old run_buffer.new
        (run_lines (S.index source.now).names id.now (tag_of tag.now part) 1 hits.now) result }
{
    source.tells_its_index();
    gather_answer(run, run_buffer, id, source, hits, tag, part)
}
