ghost use Rattle.std.specs.Prelude.{ℕ, ◌≡◌, ◌<◌, ◌≤◌, List, length, All, IfOk, OnOk};
ghost use Rattle.std.specs.List.{AllByRecursion};
ghost use Rattle.jass_base.specs.declared.query.Query.{Query};
ghost use Rattle.ranking_model.specs.Postings.{weighted_postings};
ghost use Rattle.ranking_model.specs.Search.{query_data};
ghost use Rattle.index_model.specs.Flat.{numbered_flat};
ghost use Rattle.trec_run.specs.declared.run_line.RunLine.{RunLine};
ghost use Rattle.run_audit.specs.Audits.{Counts, IsAudit, queries_data, queries_postings, search_data};
ghost use Rattle.run_audit.specs.Verdicts.{IsVerdict, line_feeds};
ghost use Rattle.run_audit.specs.Private.Places.{Advances, Agrees, AreWithin};
ghost use Rattle.run_audit.specs.Private.Reading.{AreKnown};
ghost use Rattle.run_audit.specs.Private.Texts.{queries_reports, queries_rows, query_reports, query_rows_for};
ghost use Rattle.run_audit.specs.Private.Working.{IsRoomFor};

use crate::budgets::check_budgets;
use crate::given::{Given, Places};
use crate::place::Place;
use crate::reading::read_plan;
use crate::search::Search;
use crate::verdict::Verdict;
use crate::workspace::Workspace;
use index_file::IndexFile;
use jass_base::{NoMemory, Query, Steps};
use ranking_model::laws::a_plan_has_the_segments_of_its_postings;
use ranking_model::prefix_laws::each_budget_has_its_prefix;
use std::alloc::Global;
use std::sync::ledger::Ledger;
use trec_run::RunLine;

/// Whether a run, by its lines that have bytes, and the reports beside it are what a search of these queries over the
/// index leaves. All postings of the queries are read, whatever the verdict.
pub fn check_answers<L: Ledger>(
    alloc: Global,
    index: &IndexFile,
    queries: &[Query],
    search: &Search<'_>,
    run: &[RunLine],
    reports: &[u8],
    steps: &mut Steps<L>,
) -> Result<Verdict, NoMemory>
    requires known { AllByRecursion (λ (query : Query). AreKnown index.now query.terms) queries.now }
    ensures verdict { IfOk result (IsAudit index.now.index.names (numbered_flat index.now.index)
        (queries_data queries.now) (search_data search.now) run.now reports.now) }
    ensures steps { Counts steps.old steps.new
        (queries_postings (numbered_flat index.now.index) (queries_data queries.now)) result }
{
    each_budget_has_its_prefix();
    let given = Given { run, reports };
    let mut places = Places {
        run: Place::start(),
        reports: Place::start(),
    };
    let mut work = Workspace::new(alloc, index.docs())?;
    check_queries(
        alloc,
        index,
        &given,
        queries,
        search,
        &mut places,
        &mut work,
        steps,
    )?;
    Ok(verdict_of(&given, places))
}

/// Compares what a search leaves with what is given, query by query.
fn check_queries<L: Ledger>(
    alloc: Global,
    index: &IndexFile,
    given: &Given<'_>,
    queries: &[Query],
    search: &Search<'_>,
    places: &mut Places,
    work: &mut Workspace,
    steps: &mut Steps<L>,
) -> Result<(), NoMemory>
    requires known { AllByRecursion (λ (query : Query). AreKnown index.now query.terms) queries.now }
    requires within { AreWithin given.now places.old }
    requires room { IsRoomFor (length index.now.index.names) work.old }
    ensures within { AreWithin given.now places.new }
    ensures room { IsRoomFor (length index.now.index.names) work.new }
    ensures run { OnOk result (Advances given.now.run.now places.old.run places.new.run
        (queries_rows index.now.index.names (numbered_flat index.now.index) search.now.k search.now.budgets.now
        search.now.tag.now (queries_data queries.now))) }
    ensures reports { OnOk result (Advances given.now.reports.now places.old.reports places.new.reports
        (queries_reports index.now.index.names (numbered_flat index.now.index) search.now.k search.now.budgets.now
        (queries_data queries.now))) }
    ensures steps { Counts steps.old steps.new
        (queries_postings (numbered_flat index.now.index) (queries_data queries.now)) result }
{
    for query in queries {
        check_query(alloc, index, given, query, search, places, work, steps)?;
    }
    Ok(())
}

/// Compares what a search leaves of one query with what comes next.
fn check_query<L: Ledger>(
    alloc: Global,
    index: &IndexFile,
    given: &Given<'_>,
    query: &Query,
    search: &Search<'_>,
    places: &mut Places,
    work: &mut Workspace,
    steps: &mut Steps<L>,
) -> Result<(), NoMemory>
    requires known { AreKnown index.now query.now.terms }
    requires within { AreWithin given.now places.old }
    requires room { IsRoomFor (length index.now.index.names) work.old }
    ensures within { AreWithin given.now places.new }
    ensures room { IsRoomFor (length index.now.index.names) work.new }
    ensures run { OnOk result (Advances given.now.run.now places.old.run places.new.run
        (query_rows_for index.now.index.names (numbered_flat index.now.index) search.now.k search.now.budgets.now
        search.now.tag.now (query_data query.now))) }
    ensures reports { OnOk result (Advances given.now.reports.now places.old.reports places.new.reports
        (query_reports index.now.index.names (numbered_flat index.now.index) search.now.k search.now.budgets.now
        (query_data query.now))) }
    ensures steps { Counts steps.old steps.new
        (length (weighted_postings (numbered_flat index.now.index) query.now.terms)) result }
{
    a_plan_has_the_segments_of_its_postings();
    let plan = read_plan(alloc, index, query.terms.as_slice(), steps)?;
    check_budgets(alloc, index, given, query, &plan, search, places, work)
}

/// The verdict on what is given, where all that a search leaves was compared.
fn verdict_of(given: &Given<'_>, places: Places) -> Verdict
    requires within { AreWithin given.now places }
    ensures { (rows : List RunLine) (text : List ℕ) → Agrees rows given.now.run.now places.run →
        Agrees text given.now.reports.now places.reports →
        IsVerdict rows text given.now.run.now given.now.reports.now result }
{
    if !places.reports.same || places.reports.at < given.reports.len() {
        return Verdict::Report {
            line: line_feeds(&given.reports[..places.reports.at]) + 1,
        };
    }
    if !places.run.same || places.run.at < given.run.len() {
        return Verdict::Run {
            line: places.run.at as u64 + 1,
        };
    }
    Verdict::Yes
}

/// How many line feeds a text has.
fn line_feeds(text: &[u8]) -> u64
    ensures count { result ≡ line_feeds text.now }
    ensures few { result ≤ length text.now }
{
    let mut count = 0;
    for byte in text {
        if *byte == b'\n' {
            count += 1;
        }
    }
    count
}
