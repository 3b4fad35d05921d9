//! Laws of what commands mean. Each function does nothing: its contract is the law.

ghost use Rattle.std.specs.Prelude.{ℕ, ◌≡◌, ◌≢◌, ◌<◌, ◌⊎◌, true, false, List, [], ◌∷◌, ◌++◌, All, Some, None, codes, map, ◌≤◌, length, sum_by};
ghost use Rattle.std.specs.FinMap.{get};
ghost use Rattle.std.specs.List.{AllByRecursion};
ghost use Rattle.jass_base.specs.Ciff.{CollectionData, IsCiff};
ghost use Rattle.jass_base.specs.Outside.{Files, Rose};
ghost use Rattle.index_layout.specs.View.{FileView, IsFileView, chosen_codecs, file_bytes, index_text};
ghost use Rattle.index_model.specs.Index.{IndexData, IsIndex};
ghost use Rattle.index_file.specs.Places.{codec_use};
ghost use Rattle.index_file.specs.Sources.{IsSearchable};
ghost use Rattle.jass_base.specs.CiffText.{canonical_ciff};
ghost use Rattle.jass_base.specs.declared.answer.Budget.{Budget};
ghost use Rattle.jass_base.specs.declared.answer.Grade.{Grade};
ghost use Rattle.jass_base.specs.declared.answer.Report.{Report};
ghost use Rattle.ranking_model.specs.Finality.{first_documents};
ghost use Rattle.ranking_model.specs.Postings.{AreTerms};
ghost use Rattle.ranking_model.specs.Scores.{scores_after};
ghost use Rattle.index_layout.specs.Reading.{read_index};
ghost use Rattle.impact_segments.specs.Collections.{collection_index};
ghost use Rattle.index_export.specs.Exports.{export_of};
ghost use Rattle.index_model.specs.Flat.{numbered_flat};
ghost use Rattle.index_version1.specs.Files.{IsIndexFile1};
ghost use Rattle.index_version1.specs.Reading.{read_index1};
ghost use Rattle.query_reader.specs.declared.mode.Mode.{Mode};
ghost use Rattle.query_reader.specs.Queries as reader;
ghost use Rattle.ranking_model.specs.Search.{QueryData, AreReportLines, AreReportsAt, prefixes_granted, search_run};
ghost use Rattle.run_audit.specs.Audits.{SearchData};
ghost use Rattle.trec_run.specs.declared.run_line.RunLine.{RunLine};
ghost use Rattle.trec_run.specs.Runs.{IsRun};
ghost use Rattle.jass_top.specs.AuditMeaning.{AuditInputs, HoldSearch, IsRefusedRun, audit_meaning, judge_audited};
ghost use Rattle.jass_top.specs.AuditMeaning.{judge_run};
ghost use Rattle.jass_top.specs.IndexJudging.{judge_index, judge_old, IsFirstRefusal};
ghost use Rattle.jass_words.specs.Words.{CommandData, Serve};
ghost use Rattle.jass_words.specs.declared.until.Until.{Until};
ghost use Rattle.jass_words.specs.declared.word_limits.TheConstants.{MOST_FINAL_TERMS};
ghost use Rattle.ranking_model.specs.declared.plan.QueryPlan.{QueryPlan};
ghost use Rattle.sharp_bounds.specs.Sharpness.{IsSharpFinal, IsStop};
ghost use Rattle.jass_top.specs.Until.{stop_granted};
ghost use Rattle.jass_base.specs.declared.limits.TheConstants.{LONGEST_FILE};
ghost use Rattle.weights.specs.declared.quantizing.Bits.TheVariants.{Raw};
ghost use Rattle.weights.specs.declared.weighting.Rule.TheVariants.{Tf};
ghost use Rattle.jass_top.specs.declared.stop.Place.{Place};
ghost use Rattle.jass_top.specs.declared.status.Status.{Status};
ghost use Rattle.jass_top.specs.Causes.{WriteFailed};
ghost use Rattle.jass_top.specs.Commands.{meaning_of};
ghost use Rattle.jass_top.specs.Endings.{Ends};
ghost use Rattle.jass_top.specs.ExhaustMeaning.{IsExhaustOutput, exhaustive_answer};
ghost use Rattle.jass_top.specs.Judging.{Accepted, Missing, Refuses, Untold, IsRefused, IsUnaccepted, judge_ciff, judge_content};
ghost use Rattle.jass_top.specs.Meanings.{HasOneOutput, Output};
ghost use Rattle.jass_top.specs.SearchMeaning.{IsSearchOutput, IsSearchReport, Search, SearchInputs};
ghost use Rattle.jass_top.specs.SearchMeaning.{judge_search, judge_search_until, plan_over_index, postings_within};
ghost use Rattle.jass_top.specs.SearchMeaning.{search_within};
ghost use Rattle.jass_top.specs.SearchTexts.{search_output, budgets_output};
ghost use Rattle.jass_top.specs.ServeMeaning.{IsAnswered};
ghost use Rattle.jass_top.specs.Standing.{Keeps};
ghost use Rattle.jass_top.specs.ExportMeaning.{export_meaning};
ghost use Rattle.jass_top.specs.ImportMeaning.{import_meaning};
ghost use Rattle.jass_top.specs.QueryJudging.{IsRefusedQuery, LineQuery, judge_queries, judge_queries_until};
ghost use Rattle.jass_top.specs.QueryJudging.{plain_query, with_lines, without_lines};
ghost use Rattle.jass_top.specs.TrialMeaning.{IsTrialOutput};
ghost use Rattle.jass_top.specs.TrialSums.{trial_output};
ghost use Rattle.jass_top.specs.Worlds.{World};

use ciff_read::laws::files_are_read;
use ciff_write::laws::canonical_files_stand;
use final_certificate::laws::a_prefix_has_one_report;
use index_export::laws::an_export_keeps_the_index;
use index_layout::laws::lengths_are_known;
use index_model::laws::the_flat_list_is_flat;
use index_version1::laws::indexes_are_read;
use query_reader::laws::query_files_are_read;
use ranking_model::laws::{
    a_plan_has_the_segments_of_its_postings, plans_are_small, reports_keep_their_promises,
    the_grade_is_one, the_prefix_is_the_longest, the_segments_have_all_postings,
};
use ranking_model::prefix_laws::{a_prefix_is_resumed, each_budget_has_its_prefix};
use run_audit::laws::{
    a_search_is_audited_with_yes, an_audit_has_one_verdict, ids_of_a_query_file_are_columns,
    terms_of_a_query_file_can_be_asked,
};
use segment_codecs::laws::the_choice_is_the_first_of_the_shortest;
use sharp_bounds::laws::{
    a_final_answer_is_sharply_final, a_sharply_final_answer_stands, the_rule_says_where_to_stop,
};
use trec_run::laws::runs_are_read;

/// A CIFF file is accepted exactly where it is there and its content stands for the collection. It
/// is judged wherever contents are told: else it is missing, or its content has a first refusal.
pub fn files_are_judged()
    ensures found { (name : List ℕ) (files : Files) (c : CollectionData) → judge_ciff name (Some files) ≡ Accepted c
        → (content : List ℕ) × (get files name ≡ Some content) × IsCiff content c }
    ensures only { (name : List ℕ) (files : Files) (content : List ℕ) (c : CollectionData)
        → get files name ≡ Some content → IsCiff content c → judge_ciff name (Some files) ≡ Accepted c }
    ensures told { (name : List ℕ) (files : Files) → judge_ciff name (Some files) ≢ Untold }
    ensures missing { (name other : List ℕ) (files : Files) → judge_ciff name (Some files) ≡ Missing other
        → (other ≡ name) × (get files name ≡ None) }
    ensures refused { (name other : List ℕ) (files : Files) (number : ℕ) (at : Place)
        → judge_ciff name (Some files) ≡ Refuses other number at
        → (other ≡ name) × (content : List ℕ) × (get files name ≡ Some content) × IsRefused content number at }
{
    files_are_read();
}

/// An index file is accepted exactly where it is there and its content is the bytes of the view,
/// which is one of a file; a file of version 1 exactly where its content is one of the index. They
/// are judged wherever contents are told: else one is missing, or its content has a first refusal.
pub fn index_files_are_judged()
    ensures found { (name : List ℕ) (files : Files) (v : FileView) → judge_index name (Some files) ≡ Accepted v
        → (content : List ℕ) × (get files name ≡ Some content)
        × (All (λ byte. byte < 256) content → (content ≡ file_bytes v) × IsFileView v) }
    ensures only { (name : List ℕ) (files : Files) (v : FileView)
        → get files name ≡ Some (file_bytes v) → IsFileView v → judge_index name (Some files) ≡ Accepted v }
    ensures found_old { (name : List ℕ) (files : Files) (index : IndexData)
        → judge_old name (Some files) ≡ Accepted index → (content : List ℕ) × (get files name ≡ Some content)
        × (All (λ byte. byte < 256) content → IsIndexFile1 content index) }
    ensures only_old { (name : List ℕ) (files : Files) (content : List ℕ) (index : IndexData)
        → get files name ≡ Some content → IsIndexFile1 content index
        → judge_old name (Some files) ≡ Accepted index }
    ensures told { (name : List ℕ) (files : Files) → judge_index name (Some files) ≢ Untold }
    ensures told_old { (name : List ℕ) (files : Files) → judge_old name (Some files) ≢ Untold }
    ensures missing { (name other : List ℕ) (files : Files) → judge_index name (Some files) ≡ Missing other
        → (other ≡ name) × (get files name ≡ None) }
    ensures missing_old { (name other : List ℕ) (files : Files) → judge_old name (Some files) ≡ Missing other
        → (other ≡ name) × (get files name ≡ None) }
    ensures refused { (name other : List ℕ) (files : Files) (number : ℕ) (at : Place)
        → judge_index name (Some files) ≡ Refuses other number at → (other ≡ name) × (content : List ℕ)
        × (get files name ≡ Some content) × IsFirstRefusal (read_index content) number at }
    ensures refused_old { (name other : List ℕ) (files : Files) (number : ℕ) (at : Place)
        → judge_old name (Some files) ≡ Refuses other number at → (other ≡ name) × (content : List ℕ)
        × (get files name ≡ Some content) × IsFirstRefusal (read_index1 content) number at }
{
    index_layout::laws::files_are_read();
    indexes_are_read();
}

/// The content of a file is accepted exactly where it is there. It is judged wherever contents are
/// told, never refused, and missing only where it isn't there.
pub fn contents_are_judged()
    ensures found { (name : List ℕ) (files : Files) (content : List ℕ)
        → judge_content name (Some files) ≡ Accepted content → get files name ≡ Some content }
    ensures only { (name : List ℕ) (files : Files) (content : List ℕ)
        → get files name ≡ Some content → judge_content name (Some files) ≡ Accepted content }
    ensures told { (name : List ℕ) (files : Files) → judge_content name (Some files) ≢ Untold }
    ensures missing { (name other : List ℕ) (files : Files) → judge_content name (Some files) ≡ Missing other
        → (other ≡ name) × (get files name ≡ None) }
    ensures never_refused { (name other : List ℕ) (files : Files) (number : ℕ) (at : Place)
        → judge_content name (Some files) ≢ Refuses other number at }
{}

/// The content of a query file over the terms of an index is accepted exactly where it holds the
/// queries, each in its line. It is always judged: else it has a first refusal.
pub fn query_files_are_judged()
    ensures found { (name : List ℕ) (mode : Mode) (terms : List (List ℕ)) (content : List ℕ)
        (queries : List LineQuery) → judge_queries name mode terms content ≡ Accepted queries
        → (asked : List reader.QueryData) × reader.IsQueryFile content mode terms asked
        × (queries ≡ with_lines content (map plain_query asked))
        × (without_lines queries ≡ map plain_query asked) }
    ensures only { (name : List ℕ) (mode : Mode) (terms : List (List ℕ)) (content : List ℕ)
        (asked : List reader.QueryData) → reader.IsQueryFile content mode terms asked
        → judge_queries name mode terms content ≡ Accepted (with_lines content (map plain_query asked)) }
    ensures told { (name : List ℕ) (mode : Mode) (terms : List (List ℕ)) (content : List ℕ)
        → judge_queries name mode terms content ≢ Untold }
    ensures never_missing { (name other : List ℕ) (mode : Mode) (terms : List (List ℕ)) (content : List ℕ)
        → judge_queries name mode terms content ≢ Missing other }
    ensures refused { (name other : List ℕ) (mode : Mode) (terms : List (List ℕ)) (content : List ℕ) (number : ℕ)
        (at : Place) → judge_queries name mode terms content ≡ Refuses other number at
        → (other ≡ name) × IsRefusedQuery content mode terms number at }
{
    query_files_are_read();
}

/// Queries that are searched until final are those of their file where none has more than 64 known terms; else it is
/// refused by 56 at the line of the first that has more. A refusal of one of its lines comes first.
pub fn queries_until_final_have_few_terms()
    ensures found { (name : List ℕ) (mode : Mode) (terms : List (List ℕ)) (content : List ℕ) (queries : List LineQuery)
        → judge_queries_until Until.Final name mode terms content ≡ Accepted queries
        → (judge_queries name mode terms content ≡ Accepted queries)
        × AllByRecursion (λ (asked : LineQuery). length asked.query.terms ≤ MOST_FINAL_TERMS) queries }
    ensures only { (name : List ℕ) (mode : Mode) (terms : List (List ℕ)) (content : List ℕ) (queries : List LineQuery)
        → judge_queries name mode terms content ≡ Accepted queries
        → AllByRecursion (λ (asked : LineQuery). length asked.query.terms ≤ MOST_FINAL_TERMS) queries
        → judge_queries_until Until.Final name mode terms content ≡ Accepted queries }
    ensures many { (name : List ℕ) (mode : Mode) (terms : List (List ℕ)) (content : List ℕ)
        (before after : List LineQuery) (asked : LineQuery)
        → judge_queries name mode terms content ≡ Accepted (before ++ asked ∷ after)
        → AllByRecursion (λ (other : LineQuery). length other.query.terms ≤ MOST_FINAL_TERMS) before
        → MOST_FINAL_TERMS < length asked.query.terms
        → judge_queries_until Until.Final name mode terms content ≡ Refuses name 56 (Place.Line asked.line) }
    ensures refused { (name other : List ℕ) (mode : Mode) (terms : List (List ℕ)) (content : List ℕ) (number : ℕ)
        (at : Place) → judge_queries name mode terms content ≡ Refuses other number at
        → judge_queries_until Until.Final name mode terms content ≡ Refuses other number at }
{}

/// A search until final reports each query at the first prefix, up to that of what was granted, whose answer no gains
/// within what each document is unseen in can change, and at that of what was granted where there is none. There is one
/// such prefix. A later grant doesn't move it once the answer is so.
pub fn a_search_until_final_stops_as_soon_as_it_may()
    ensures stop { (index queries : List ℕ) (mode : Mode) (files : Files) (inputs : SearchInputs) (k granted : ℕ)
        → ((content : List ℕ) → get files index ≡ Some content → All (λ byte. byte < 256) content)
        → judge_search_until Until.Final index queries mode (Some files) ≡ Accepted inputs
        → AllByRecursion (λ (query : QueryData). IsStop granted (plan_over_index inputs.index query) k
        (stop_granted Until.Final k granted (plan_over_index inputs.index query))) (without_lines inputs.queries) }
    ensures one { (k granted n : ℕ) (plan : QueryPlan)
        → IsStop granted plan k (stop_granted Until.Final k granted plan) → IsStop granted plan k n
        → n ≡ stop_granted Until.Final k granted plan }
    ensures stays { (k granted more : ℕ) (plan : QueryPlan) → granted ≤ more
        → IsStop granted plan k (stop_granted Until.Final k granted plan)
        → IsStop more plan k (stop_granted Until.Final k more plan)
        → IsSharpFinal (stop_granted Until.Final k granted plan) plan k
        → stop_granted Until.Final k more plan ≡ stop_granted Until.Final k granted plan }
{
    index_files_are_judged();
    query_files_are_judged();
    terms_of_a_query_file_can_be_asked();
    ids_of_a_query_file_are_columns();
    the_flat_list_is_flat();
    the_prefix_is_the_longest();
    a_prefix_is_resumed();
    the_rule_says_where_to_stop();
}

/// What a search leaves query by query is its output: the run of the definitions over the flat list
/// of the index, and a report for each query and stop, which keeps what it promises; where queries are
/// searched until final these have terms as a query file does. So is what it leaves within budgets,
/// whose stops are the prefixes that they pay for.
pub fn a_search_leaves_its_output()
    ensures at_stops { (index : IndexData) (search : Search) (queries : List LineQuery) → IsSearchable index
        → (search.until ≡ Until.Final
        → AllByRecursion (λ (query : QueryData). AreTerms query.terms) (without_lines queries))
        → IsSearchOutput search (record { index = index; queries = queries })
        (search_output index search (without_lines queries)) }
    ensures within_budgets { (index : IndexData) (k : ℕ) (budgets : List Budget) (tag : List ℕ)
        (queries : List LineQuery) → IsSearchable index
        → IsSearchOutput (search_within k budgets tag) (record { index = index; queries = queries })
        (budgets_output index k budgets tag (without_lines queries)) }
{
    the_flat_list_is_flat();
    the_prefix_is_the_longest();
    each_budget_has_its_prefix();
    a_prefix_has_one_report();
    reports_keep_their_promises();
    a_final_answer_is_sharply_final();
    a_sharply_final_answer_stands();
    the_rule_says_where_to_stop();
}

/// The output of a search within budgets is said by these alone: the run has an answer for each
/// budget, the output a report for each, and a step is a posting that all budgets together pay for.
pub fn a_search_stops_within_its_budgets()
    ensures run { (k : ℕ) (budgets : List Budget) (tag : List ℕ) (inputs : SearchInputs) (output : Output)
        → IsSearchOutput (search_within k budgets tag) inputs output
        → output.content ≡ search_run inputs.index.names (numbered_flat inputs.index)
        (without_lines inputs.queries) k budgets tag }
    ensures reports { (k : ℕ) (budgets : List Budget) (tag : List ℕ) (inputs : SearchInputs) (output : Output)
        → IsSearchOutput (search_within k budgets tag) inputs output
        → AreReportLines (λ query reports. AreReportsAt (IsSearchReport inputs.index query k)
        (prefixes_granted budgets (plan_over_index inputs.index query)) reports)
        (without_lines inputs.queries) output.text }
    ensures steps { (k : ℕ) (budgets : List Budget) (tag : List ℕ) (inputs : SearchInputs) (output : Output)
        → IsSearchOutput (search_within k budgets tag) inputs output
        → output.steps ≡ sum_by (λ query. postings_within budgets (plan_over_index inputs.index query))
        (without_lines inputs.queries) }
{
    the_prefix_is_the_longest();
}

/// The import of an export is the exported index. The CIFF file that `export` leaves of an index file,
/// where it has at most 2^32 bytes, is accepted as the collection of the index; the index of that
/// collection, by raw term frequencies, is the exported one; and so `import` with `tf` and `raw`
/// leaves the text of the same index.
pub fn an_import_of_an_export_is_the_index()
    ensures collection { (ciff : List ℕ) (files : Files) (view : FileView) → IsFileView view
        → length (canonical_ciff (export_of view.index)) ≤ LONGEST_FILE
        → get files ciff ≡ Some (canonical_ciff (export_of view.index))
        → judge_ciff ciff (Some files) ≡ Accepted (export_of view.index) }
    ensures index { (index : IndexData) → IsIndex index → collection_index Tf Raw (export_of index) ≡ index }
    ensures accepted { (index ciff again : List ℕ) (files : Files) (view : FileView) (input : List ℕ)
        (exported : Output)
        → IsFileView view → (export_meaning index ciff).IsOutput view input exported
        → length exported.content ≤ LONGEST_FILE → get files ciff ≡ Some exported.content
        → (import_meaning ciff again Tf Raw).judge (Some files) ≡ Accepted view.index }
    ensures text { (ciff again : List ℕ) (view : FileView) (input : List ℕ) (imported : Output)
        → (import_meaning ciff again Tf Raw).IsOutput view.index input imported
        → imported.content ≡ index_text view.index }
{
    files_are_judged();
    canonical_files_stand();
    an_export_keeps_the_index();
    lengths_are_known();
    the_choice_is_the_first_of_the_shortest();
}

/// Where files hold what a search leaves, beside its inputs, an audit by the same options accepts them, and says that they
/// are what the search leaves. What else is said of them is the same.
pub fn what_a_search_leaves_is_audited_ok()
    ensures accepted { (index queries run reports : List ℕ) (search : SearchData) (mode : Mode) (files : Files)
        → HoldSearch index queries run reports search mode files → (inputs : AuditInputs)
        × ((audit_meaning index queries run reports search mode).judge (Some files) ≡ Accepted inputs) }
    ensures ok { (index queries run reports : List ℕ) (search : SearchData) (mode : Mode) (files : Files)
        → HoldSearch index queries run reports search mode files → (inputs : AuditInputs) (input : List ℕ)
        (output : Output)
        → (audit_meaning index queries run reports search mode).judge (Some files) ≡ Accepted inputs
        → (audit_meaning index queries run reports search mode).IsOutput inputs input output
        → output.text ≡ codes "audit ok\n" }
{
    index_files_are_judged();
    query_files_are_judged();
    terms_of_a_query_file_can_be_asked();
    ids_of_a_query_file_are_columns();
    a_search_is_audited_with_yes();
    an_audit_has_one_verdict();
}

/// What an exhaustive search leaves is what a search leaves to which all postings are granted at once: the same run lines,
/// for as many steps. The documents of an answer that a search marks final are those of the exhaustive one, in its order.
pub fn an_exhaustive_search_has_all_postings()
    ensures run { (index queries : List ℕ) (k : ℕ) (tag : List ℕ) (mode : Mode) (files : Files) (inputs : SearchInputs)
        (output other : Output)
        → ((content : List ℕ) → get files index ≡ Some content → All (λ byte. byte < 256) content)
        → judge_search index queries mode (Some files) ≡ Accepted inputs → IsExhaustOutput k tag inputs output
        → IsSearchOutput (search_within k (Budget.All ∷ []) tag) inputs other → output.content ≡ other.content }
    ensures steps { (index queries : List ℕ) (k : ℕ) (tag : List ℕ) (mode : Mode) (files : Files) (inputs : SearchInputs)
        (output other : Output)
        → ((content : List ℕ) → get files index ≡ Some content → All (λ byte. byte < 256) content)
        → judge_search index queries mode (Some files) ≡ Accepted inputs → IsExhaustOutput k tag inputs output
        → IsSearchOutput (search_within k (Budget.All ∷ []) tag) inputs other → output.steps ≡ other.steps }
    ensures documents { (index : IndexData) (query : QueryData) (k n : ℕ) (report : Report)
        → n ≤ length (plan_over_index index query).segments → IsSearchReport index query k n report
        → report.grade ≡ Grade.Final
        → first_documents (scores_after n (plan_over_index index query)) k
        ≡ map (λ hit. hit.doc) (exhaustive_answer index k query) }
{
    index_files_are_judged();
    query_files_are_judged();
    terms_of_a_query_file_can_be_asked();
    ids_of_a_query_file_are_columns();
    the_flat_list_is_flat();
    plans_are_small();
    the_prefix_is_the_longest();
    the_segments_have_all_postings();
    a_plan_has_the_segments_of_its_postings();
}

/// A file that is audited is accepted exactly where it is there with at most 2^32 bytes, a longer one refused by 82 at
/// line 0. The text of a run is accepted exactly where it is one, as its lines that have bytes; else it has a first
/// refusal. They are judged wherever contents are told.
pub fn audited_files_are_judged()
    ensures found { (name content : List ℕ) (files : Files) → judge_audited name (Some files) ≡ Accepted content
        → (get files name ≡ Some content) × (length content ≤ LONGEST_FILE) }
    ensures only { (name content : List ℕ) (files : Files) → get files name ≡ Some content
        → length content ≤ LONGEST_FILE → judge_audited name (Some files) ≡ Accepted content }
    ensures too_long { (name content : List ℕ) (files : Files) → get files name ≡ Some content
        → LONGEST_FILE < length content → judge_audited name (Some files) ≡ Refuses name 82 (Place.Line 0) }
    ensures missing { (name : List ℕ) (files : Files) → get files name ≡ None
        → judge_audited name (Some files) ≡ Missing name }
    ensures run { (name text : List ℕ) (lines : List RunLine) → judge_run name text ≡ Accepted lines
        → IsRun text lines }
    ensures only_run { (name text : List ℕ) (lines : List RunLine) → IsRun text lines
        → judge_run name text ≡ Accepted lines }
    ensures refused { (name other text : List ℕ) (number : ℕ) (at : Place)
        → judge_run name text ≡ Refuses other number at → (other ≡ name) × IsRefusedRun text number at }
    ensures told { (name text : List ℕ) → judge_run name text ≢ Untold }
    ensures never_missing { (name other text : List ℕ) → judge_run name text ≢ Missing other }
{
    contents_are_judged();
    runs_are_read();
}

/// What a trial leaves query by query is its summary, with a report for each query and grant, which
/// keeps what it promises.
pub fn a_trial_leaves_its_summary()
    ensures { (index : IndexData) (queries : List QueryData) → IsSearchable index → IsTrialOutput queries index
        (trial_output index (codec_use (chosen_codecs (length index.names) index.terms)) queries) }
{
    the_flat_list_is_flat();
    the_prefix_is_the_longest();
    a_prefix_has_one_report();
    reports_keep_their_promises();
}

/// A command has one output at most for its inputs and the bytes of the feed, but for its steps.
pub fn a_command_has_one_output()
    ensures { (command : CommandData) → HasOneOutput (meaning_of command) }
{
    the_grade_is_one();
    an_audit_has_one_verdict();
    the_rule_says_where_to_stop();
}

/// Why a run ends as it does. Where an input isn't accepted nothing is left, and running out of memory and counted read
/// faults alone take precedence over a refusal. Where the inputs are accepted and no fault is counted, the command is
/// done unless memory was wanted, or the feed was too long; that is so of `serve` alone, and never where the feed tells
/// an input that is answered.
pub fn endings_have_causes()
    ensures unaccepted { (command : CommandData) (before after : World) (result : Status)
        → Ends (meaning_of command) before after result
        → IsUnaccepted ((meaning_of command).judge before.outer.told) → Keeps before.outer after.outer }
    ensures refuses { (command : CommandData) (before after : World) (result : Status)
        → Ends (meaning_of command) before after result → (name : List ℕ) (number : ℕ) (at : Place)
        → (meaning_of command).judge before.outer.told ≡ Refuses name number at → result ≢ Status.Refused
        → (result ≡ Status.NoMemory)
        ⊎ ((result ≡ Status.ReadFault) × Rose before.outer.read_faults after.outer.read_faults) }
    ensures complete { (command : CommandData) (before after : World) (result : Status)
        → Ends (meaning_of command) before after result → (inputs : (meaning_of command).Inputs)
        → (meaning_of command).judge before.outer.told ≡ Accepted inputs
        → ¬ Rose before.outer.read_faults after.outer.read_faults
        → ((name : List ℕ) → ¬ WriteFailed (meaning_of command) before.outer after.outer name)
        → ((meaning_of command).feeds ≡ true → ¬ Rose before.outer.feed_faults after.outer.feed_faults)
        → result ≢ Status.InputLimit → result ≢ Status.Done → result ≡ Status.NoMemory }
    ensures feeds { (command : CommandData) (before after : World) (result : Status)
        → Ends (meaning_of command) before after result → (meaning_of command).feeds ≡ false
        → result ≢ Status.InputLimit }
    ensures answered { (index : List ℕ) (frames : ℕ) (before after : World) (result : Status) (input : List ℕ)
        → Ends (meaning_of (Serve index frames)) before after result → before.outer.left ≡ Some input
        → IsAnswered input → result ≢ Status.InputLimit }
{}
