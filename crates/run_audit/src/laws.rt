//! Laws over the definitions. Each function does nothing: its contract is the law, and a caller learns it by the call.

ghost use Rattle.std.specs.Prelude.{ℕ, ◌≡◌, ◌≤◌, All, List, Ok};
ghost use Rattle.std.specs.List.{AllByRecursion};
ghost use Rattle.jass_base.specs.declared.answer.Budget.{Budget};
ghost use Rattle.jass_base.specs.declared.limits.TheConstants.{MOST_TIMES};
ghost use Rattle.jass_base.specs.declared.query_term.QueryTerm.{QueryTerm};
ghost use Rattle.ranking_model.specs.Postings.{AreTerms};
ghost use Rattle.ranking_model.specs.declared.entry.Entry.{Entry};
ghost use Rattle.ranking_model.specs.Search.{IsSearchReports, QueryData, search_run};
ghost use Rattle.query_reader.specs.declared.mode.Mode.{Mode};
ghost use Rattle.query_reader.specs.Queries.{IsQueryFile, QueryData as FileQuery};
ghost use Rattle.trec_run.specs.declared.run_line.RunLine.{RunLine};
ghost use Rattle.trec_run.specs.Runs.{run_of};
ghost use Rattle.run_audit.specs.declared.verdict.Verdict.{Verdict};
ghost use Rattle.index_model.specs.Flat.{numbered_flat};
ghost use Rattle.index_layout.specs.View.{FileView, IsFileView};
ghost use Rattle.run_audit.specs.Audits.{IsAskable, IsAudit, SearchData};
ghost use Rattle.run_audit.specs.Rows.{IsColumn, IsPrintable, rows_text, search_rows};
ghost use Rattle.run_audit.specs.Verdicts.{IsVerdict};

use index_model::laws::the_flat_list_is_flat;
use ranking_model::laws::{
    a_plan_has_the_segments_of_its_postings, plans_are_small, the_grade_is_one,
};
use ranking_model::prefix_laws::{each_budget_has_its_prefix, scores_stay_small};
use text_lines::laws::lines_end_by_line_feeds;
use trec_run::laws::runs_are_read;

/// The run of a search is the text of its rows.
pub fn a_search_writes_its_rows()
    ensures { (names : List (List ℕ)) (flat : List (Entry ℕ)) (queries : List QueryData) (search : SearchData) →
        search_run names flat queries search.k search.budgets search.tag
        ≡ rows_text (search_rows names flat queries search.k search.budgets search.tag) }
{}

/// Beside the same rows and text there is one verdict.
pub fn a_verdict_is_one()
    ensures { (rows run : List RunLine) (text reports : List ℕ) (first second : Verdict) →
        IsVerdict rows text run reports first → IsVerdict rows text run reports second → first ≡ second }
{}

/// Where an audit says yes, the run has the columns of the search's rows, and the reports are the search's.
pub fn an_audit_that_says_yes_is_right()
    ensures run { (names : List (List ℕ)) (flat : List (Entry ℕ)) (queries : List QueryData) (search : SearchData)
        (run : List RunLine) (reports : List ℕ) → IsAudit names flat queries search run reports Verdict.Yes →
        run ≡ search_rows names flat queries search.k search.budgets search.tag }
    ensures reports { (names : List (List ℕ)) (flat : List (Entry ℕ)) (queries : List QueryData) (search : SearchData)
        (run : List RunLine) (reports : List ℕ) → IsAudit names flat queries search run reports Verdict.Yes →
        IsSearchReports names flat queries search.k search.budgets reports }
{}

/// Rows that are printed are read as they are.
pub fn printed_rows_are_read()
    ensures { (rows : List RunLine) → AllByRecursion IsPrintable rows → run_of (rows_text rows) ≡ Ok rows }
{
    runs_are_read();
    lines_end_by_line_feeds();
}

/// What is said of a run and of reports beside a search is one verdict, whatever way the search is written out.
pub fn an_audit_has_one_verdict()
    ensures { (names : List (List ℕ)) (flat : List (Entry ℕ)) (queries : List QueryData) (search : SearchData)
        (run : List RunLine) (reports : List ℕ) (first second : Verdict) →
        IsAudit names flat queries search run reports first → IsAudit names flat queries search run reports second →
        first ≡ second }
{
    a_verdict_is_one();
    the_grade_is_one();
}

/// The rows of a search over an index file are printed, where the ids of its queries and its tag are columns.
pub fn a_search_prints_its_rows()
    ensures { (file : FileView) (queries : List QueryData) (search : SearchData) →
        IsFileView file → IsAskable queries search →
        AllByRecursion IsPrintable (search_rows file.index.names (numbered_flat file.index)
        queries search.k search.budgets search.tag) }
{
    a_plan_has_the_segments_of_its_postings();
    each_budget_has_its_prefix();
    plans_are_small();
    scores_stay_small();
    the_flat_list_is_flat();
}

/// The run of such a search is read as its rows, so that with its reports it is audited with a yes.
pub fn a_search_is_audited_with_yes()
    ensures read { (file : FileView) (queries : List QueryData) (search : SearchData) →
        IsFileView file → IsAskable queries search →
        run_of (search_run file.index.names (numbered_flat file.index) queries search.k search.budgets search.tag)
        ≡ Ok (search_rows file.index.names (numbered_flat file.index) queries search.k search.budgets search.tag) }
    ensures yes { (file : FileView) (queries : List QueryData) (search : SearchData)
        (run : List RunLine) (reports : List ℕ) → IsFileView file → IsAskable queries search →
        run_of (search_run file.index.names (numbered_flat file.index) queries search.k search.budgets search.tag) ≡ Ok run →
        IsSearchReports file.index.names (numbered_flat file.index) queries search.k search.budgets reports →
        IsAudit file.index.names (numbered_flat file.index) queries search run reports Verdict.Yes }
{
    a_search_writes_its_rows();
    printed_rows_are_read();
    a_search_prints_its_rows();
}

/// The ids of the queries of a file are columns.
pub fn ids_of_a_query_file_are_columns()
    ensures { (bytes : List ℕ) (mode : Mode) (terms : List (List ℕ)) (queries : List FileQuery) →
        IsQueryFile bytes mode terms queries →
        AllByRecursion (λ (query : FileQuery). IsColumn query.id) queries }
{}

/// The terms of the queries of a file differ, and each is named 1 to 255 times.
pub fn terms_of_a_query_file_can_be_asked()
    ensures { (bytes : List ℕ) (mode : Mode) (terms : List (List ℕ)) (queries : List FileQuery) →
        IsQueryFile bytes mode terms queries →
        AllByRecursion (λ (query : FileQuery). AreTerms query.terms
        × All (λ (n : QueryTerm). n.times ≤ MOST_TIMES) query.terms) queries }
{}
