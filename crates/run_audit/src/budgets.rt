ghost use Rattle.std.specs.Prelude.{◌≡◌, ◌<◌, ◌≤◌, ◌++◌, codes, length, All, IfOk, OnOk};
ghost use Rattle.jass_base.specs.declared.answer.Hit.{Hit};
ghost use Rattle.ranking_model.specs.Limits.{IsSmall};
ghost use Rattle.ranking_model.specs.Report.{report_line, tag_of};
ghost use Rattle.ranking_model.specs.Search.{prefixes_granted, query_data};
ghost use Rattle.run_audit.specs.Rows.{hit_rows};
ghost use Rattle.run_audit.specs.Private.Places.{Advances, AreWithin};
ghost use Rattle.run_audit.specs.Private.Texts.{first_part_of, reports_at, rows_at};
ghost use Rattle.run_audit.specs.Private.Working.{IsRoomFor};

use crate::adding::{add_segments, clear_scores};
use crate::answer::{Answer, answer_of};
use crate::given::{Given, Places};
use crate::reports::{check_report, joined};
use crate::rows::check_hits;
use crate::search::Search;
use crate::workspace::Workspace;
use index_file::IndexFile;
use itoa::Buffer as Digits;
use jass_base::{Budget, NoMemory, Query, Row};
use ranking_model::laws::the_prefix_is_the_longest;
use ranking_model::prefix_laws::{each_budget_has_its_prefix, one_budget_more_is_granted};
use ranking_model::{QueryPlan, granted_with, prefix_within};
use std::alloc::Global;

/// Compares what a search leaves of a query with what comes next, budget by budget.
pub fn check_budgets(
    alloc: Global,
    index: &IndexFile,
    given: &Given<'_>,
    query: &Query,
    plan: &QueryPlan,
    search: &Search<'_>,
    places: &mut Places,
    work: &mut Workspace,
) -> Result<(), NoMemory>
    requires small { IsSmall plan.now }
    requires docs { plan.now.docs ≡ length index.now.index.names }
    requires within { AreWithin given.now places.old }
    requires room { IsRoomFor (length index.now.index.names) work.old }
    ensures within { AreWithin given.now places.new }
    ensures room { IsRoomFor (length index.now.index.names) work.new }
    ensures run { OnOk result (Advances given.now.run.now places.old.run places.new.run
        (rows_at index.now.index.names plan.now search.now.k search.now.tag.now (query_data query.now)
        (first_part_of search.now.budgets.now) (prefixes_granted search.now.budgets.now plan.now))) }
    ensures reports { OnOk result (Advances given.now.reports.now places.old.reports places.new.reports
        (reports_at plan.now search.now.k (query_data query.now)
        (prefixes_granted search.now.budgets.now plan.now))) }
{
    the_prefix_is_the_longest();
    each_budget_has_its_prefix();
    one_budget_more_is_granted();
    clear_scores(&mut work.scores, plan);
    let mut scored = 0;
    let mut granted = 0;
    let mut part = first_part(search.budgets);
    for budget in search.budgets {
        granted = granted_with(granted, *budget);
        let count = prefix_within(granted, plan.segments.as_slice());
        add_segments(&mut work.scores, plan, scored, count);
        scored = count;
        let answer = answer_of(alloc, plan, count, &work.scores, &mut work.hits, search.k)?;
        let tag = whole_tag(alloc, search.tag, part)?;
        check_answer(alloc, index, given, query, tag.as_slice(), &answer, places)?;
        part += 1;
    }
    Ok(())
}

/// The part of the run at the first budget.
fn first_part(budgets: &[Budget]) -> u32
    ensures { result ≡ first_part_of budgets.now }
{
    if budgets.len() == 1 { 0 } else { 1 }
}

/// The tag of a part of a run.
fn whole_tag(alloc: Global, tag: &str, part: u32) -> Result<Row<u8>, NoMemory>
    ensures { IfOk result (λ text. text ≡ tag_of tag.now part) }
{
    if part == 0 {
        return joined(alloc, &[tag.as_bytes()]);
    }
    let mut digits = Digits::new();
    let number = digits.format(part).as_bytes();
    tag_with(alloc, tag.as_bytes(), number)
}

/// A tag with a point and a number behind it.
fn tag_with<'x>(alloc: Global, tag: &'x [u8], number: &'x [u8]) -> Result<Row<u8>, NoMemory>
    ensures { IfOk result (λ text. text ≡ tag.now ++ (codes "." ++ number.now)) }
{
    joined(alloc, &[tag, b".", number])
}

/// Compares an answer and its report with what comes next.
fn check_answer(
    alloc: Global,
    index: &IndexFile,
    given: &Given<'_>,
    query: &Query,
    tag: &[u8],
    answer: &Answer,
    places: &mut Places,
) -> Result<(), NoMemory>
    requires docs { All (λ (hit : Hit). hit.doc < length index.now.index.names) answer.now.hits }
    requires within { AreWithin given.now places.old }
    ensures within { AreWithin given.now places.new }
    ensures run { OnOk result (Advances given.now.run.now places.old.run places.new.run
        (hit_rows index.now.index.names query.now.id tag.now 1 answer.now.hits)) }
    ensures reports { OnOk result (Advances given.now.reports.now places.old.reports places.new.reports
        (report_line query.now.id answer.now.report query.now.unknown)) }
{
    check_report(
        alloc,
        given.reports,
        query,
        answer.report,
        &mut places.reports,
    )?;
    check_hits(
        index,
        given.run,
        query.id.as_str(),
        tag,
        answer.hits.as_slice(),
        &mut places.run,
    );
    Ok(())
}
