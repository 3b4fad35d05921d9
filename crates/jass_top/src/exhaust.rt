ghost use Rattle.std.specs.Prelude.{◌≡◌, ◌≤◌};
ghost use Rattle.jass_top.specs.ExhaustMeaning.{exhaust_meaning};
ghost use Rattle.jass_top.specs.Private.Causes.{Runs};
ghost use Rattle.jass_top.specs.Private.Worlds.{with_files, with_output, with_steps};
ghost use Rattle.jass_top.specs.Worlds.{Outer};

use crate::exhaust_file::write_exhaust;
use crate::search::open_search;
use crate::search_stop::{SearchOutput, SearchStop};
use crate::stop::{OUTPUT, Stop};
use jass_base::{Cabinet, Sink, Steps};
use jass_words::{Asked, Until};
use std::alloc::Global;
use std::sync::ledger::Ledger;

/// Answers the queries of a file over an index file by all postings, document at a time: run lines in a file, and a line
/// for each query on the output.
pub fn run_exhaust<'a, C: Cabinet, O: Sink, L: Ledger>(
    alloc: Global,
    index: &'a str,
    queries: &'a str,
    run: &'a str,
    asked: Asked<'a>,
    files: &mut C,
    out: &mut O,
    steps: &mut Steps<L>,
) -> Result<(), Stop<'a>>
    ensures runs { (beside : Outer) → Runs (exhaust_meaning index.now queries.now run.now
        asked.entry.k asked.entry.tag.now asked.entry.mode)
        (with_output O.Sink out.old (with_files C.Cabinet files.old (with_steps steps.old beside)))
        (with_output O.Sink out.new (with_files C.Cabinet files.new (with_steps steps.new beside))) result }
    ensures later { C.write_faults files.old ≤ C.write_faults files.new }
{
    let (file, found) = open_search(alloc, index, queries, asked.mode, Until::Budget, files)?;
    match write_exhaust(
        alloc, found, asked.k, asked.tag, &file, steps, files, run, out,
    ) {
        Ok(()) => {
            drop(file);
            Ok(())
        }
        Err(SearchStop::NoMemory) => {
            drop(file);
            Err(Stop::NoMemory)
        }
        Err(SearchStop::Unwritten(SearchOutput::Run)) => {
            drop(file);
            Err(Stop::WriteFault { name: run })
        }
        Err(SearchStop::Unwritten(SearchOutput::Reports)) => {
            drop(file);
            Err(Stop::WriteFault { name: OUTPUT })
        }
    }
}
