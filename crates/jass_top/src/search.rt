ghost use Rattle.std.specs.Prelude.{◌≡◌, ◌≤◌, [], ◌∷◌, length, IfOk, IfErr};
ghost use Rattle.std.specs.List.{AllByRecursion};
ghost use Rattle.jass_base.specs.declared.query.Query.{Query};
ghost use Rattle.index_layout.specs.View.{IsFileView};
ghost use Rattle.session_engine.specs.Plans.{AreKnown};
ghost use Rattle.jass_top.specs.Private.Causes.{Runs, Unread};
ghost use Rattle.jass_top.specs.Private.Inputs.{HasInput};
ghost use Rattle.jass_top.specs.Private.SearchRuns.{MayStop, asked_of};
ghost use Rattle.jass_top.specs.Private.Worlds.{with_files, with_output, with_steps};
ghost use Rattle.jass_top.specs.QueryJudging.{without_lines};
ghost use Rattle.jass_top.specs.SearchMeaning.{judge_search_until, search_meaning, search_until};
ghost use Rattle.jass_top.specs.Worlds.{Outer};
ghost use Rattle.jass_words.specs.declared.word_limits.TheConstants.{MOST_BUDGETS};

use crate::index_input::open_index;
use crate::laws::a_search_leaves_its_output;
use crate::queries_input::open_queries;
use crate::search_file::write_search;
use crate::search_stop::{SearchOutput, SearchStop};
use crate::stop::{OUTPUT, Stop};
use index_file::{IndexFile, Source};
use jass_base::{Budget, Cabinet, Query, Row, Sink, Steps};
use jass_words::{Asked, Until};
use query_reader::Mode;
use std::alloc::Global;
use std::sync::ledger::Ledger;

/// Answers the queries of a file over an index file: run lines in a file, report lines on the output.
pub fn run_search<'a, C: Cabinet, O: Sink, L: Ledger>(
    alloc: Global,
    index: &'a str,
    queries: &'a str,
    run: &'a str,
    budgets: &[Budget],
    asked: Asked<'a>,
    until: Until,
    files: &mut C,
    out: &mut O,
    steps: &mut Steps<L>,
) -> Result<(), Stop<'a>>
    requires few_budgets { length budgets.now ≤ MOST_BUDGETS }
    ensures runs { (beside : Outer) → Runs (search_meaning index.now queries.now run.now
        (search_until until asked.entry.k budgets.now asked.entry.tag.now) asked.entry.mode)
        (with_output O.Sink out.old (with_files C.Cabinet files.old (with_steps steps.old beside)))
        (with_output O.Sink out.new (with_files C.Cabinet files.new (with_steps steps.new beside))) result }
    ensures later { C.write_faults files.old ≤ C.write_faults files.new }
{
    a_search_leaves_its_output();
    let (file, found) = open_search(alloc, index, queries, asked.mode, until, files)?;
    file.is_searchable();
    match write_search(
        alloc, found, asked.k, budgets, asked.tag, until, &file, steps, files, run, out,
    ) {
        Ok(()) => {
            drop(file);
            Ok(())
        }
        Err(SearchStop::NoMemory) => {
            drop(file);
            Err(Stop::NoMemory)
        }
        Err(SearchStop::Unwritten(SearchOutput::Run)) => {
            drop(file);
            Err(Stop::WriteFault { name: run })
        }
        Err(SearchStop::Unwritten(SearchOutput::Reports)) => {
            drop(file);
            Err(Stop::WriteFault { name: OUTPUT })
        }
    }
}

/// Opens the index file, and reads the queries over it, which are searched so far.
pub fn open_search<'a, C: Cabinet>(
    alloc: Global,
    index: &'a str,
    queries: &'a str,
    mode: Mode,
    until: Until,
    files: &mut C,
) -> Result<(IndexFile, Row<Query>), Stop<'a>>
    ensures accepted { IfOk result (λ found. HasInput
        (judge_search_until until index.now queries.now mode (C.told files.old))
        (λ inputs. (inputs.index ≡ found.0.index) × (without_lines inputs.queries ≡ asked_of found.1))) }
    ensures view { IfOk result (λ found. IsFileView found.0) }
    ensures known { IfOk result (λ found.
        AllByRecursion (λ (query : Query). AreKnown found.0.index query.terms) found.1) }
    ensures few_terms { IfOk result (λ found. AllByRecursion (MayStop until) found.1) }
    ensures unread { IfErr result (λ stop. Unread (index.now ∷ queries.now ∷ [])
        (judge_search_until until index.now queries.now mode (C.told files.old))
        (C.read_faults files.old) (C.read_faults files.new) stop) }
    ensures stays { C.told files.new ≡ C.told files.old }
    ensures later { C.read_faults files.old ≤ C.read_faults files.new }
    ensures others { C.write_faults files.old ≤ C.write_faults files.new }
{
    let file = match open_index(alloc, files, index) {
        Ok(file) => file,
        Err(stop) => return Err(stop),
    };
    match open_queries(alloc, files, queries, mode, until, &file) {
        Ok(asked) => Ok((file, asked)),
        Err(stop) => {
            drop(file);
            Err(stop)
        }
    }
}
