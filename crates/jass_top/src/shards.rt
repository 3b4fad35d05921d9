ghost use Rattle.std.specs.Prelude.{◌≡◌, ◌≤◌, length};
ghost use Rattle.jass_top.specs.Private.Causes.{Runs};
ghost use Rattle.jass_top.specs.Private.Worlds.{with_files, with_output, with_steps};
ghost use Rattle.jass_top.specs.SearchMeaning.{search_within};
ghost use Rattle.jass_top.specs.ShardsMeaning.{shards_meaning};
ghost use Rattle.jass_top.specs.Worlds.{Outer};
ghost use Rattle.jass_words.specs.Words.{texts};
ghost use Rattle.jass_words.specs.declared.word_limits.TheConstants.{MOST_BUDGETS};

use crate::laws::a_search_leaves_its_output;
use crate::search_file::write_search;
use crate::search_stop::{SearchOutput, SearchStop};
use crate::shards_input::open_shards;
use crate::stop::{OUTPUT, Stop};
use index_file::Source;
use jass_base::{Budget, Cabinet, Sink, Steps};
use jass_words::{Shards, Until};
use std::alloc::Global;
use std::sync::ledger::Ledger;

/// Answers the queries of a file over the index files of a collection's parts, as over one: run lines in a file, report
/// lines on the output. The budgets are those of the words.
pub fn run_shards<'a, C: Cabinet, O: Sink, L: Ledger>(
    alloc: Global,
    shards: Shards<'a>,
    budgets: &[Budget],
    files: &mut C,
    out: &mut O,
    steps: &mut Steps<L>,
) -> Result<(), Stop<'a>>
    requires few_budgets { length budgets.now ≤ MOST_BUDGETS }
    ensures runs { (beside : Outer) → Runs (shards_meaning (texts shards.entry.indexes.now) shards.entry.queries.now
        shards.entry.run.now (search_within shards.entry.asked.k budgets.now shards.entry.asked.tag.now)
        shards.entry.asked.mode)
        (with_output O.Sink out.old (with_files C.Cabinet files.old (with_steps steps.old beside)))
        (with_output O.Sink out.new (with_files C.Cabinet files.new (with_steps steps.new beside))) result }
    ensures later { C.write_faults files.old ≤ C.write_faults files.new }
{
    a_search_leaves_its_output();
    let asked = shards.asked;
    let (union, found) = open_shards(alloc, shards.indexes, shards.queries, asked.mode, files)?;
    union.is_searchable();
    match write_search(
        alloc,
        found,
        asked.k,
        budgets,
        asked.tag,
        Until::Budget,
        &union,
        steps,
        files,
        shards.run,
        out,
    ) {
        Ok(()) => {
            drop(union);
            Ok(())
        }
        Err(SearchStop::NoMemory) => {
            drop(union);
            Err(Stop::NoMemory)
        }
        Err(SearchStop::Unwritten(SearchOutput::Run)) => {
            drop(union);
            Err(Stop::WriteFault { name: shards.run })
        }
        Err(SearchStop::Unwritten(SearchOutput::Reports)) => {
            drop(union);
            Err(Stop::WriteFault { name: OUTPUT })
        }
    }
}
