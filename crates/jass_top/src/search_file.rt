ghost use Rattle.std.specs.Prelude.{◌≡◌, ◌≤◌, length};
ghost use Rattle.std.specs.List.{AllByRecursion};
ghost use Rattle.jass_base.specs.declared.query.Query.{Query};
ghost use Rattle.session_engine.specs.Plans.{AreKnown};
ghost use Rattle.jass_top.specs.declared.search_stop.SearchOutput.{SearchOutput};
ghost use Rattle.jass_top.specs.declared.search_stop.SearchStop.{SearchStop};
ghost use Rattle.jass_top.specs.Private.RunFiles.{WroteBehind, WroteFile};
ghost use Rattle.jass_top.specs.Private.SearchRuns.{IsReady, MayStop, Stepped, asked_of};
ghost use Rattle.jass_top.specs.SearchMeaning.{search_until};
ghost use Rattle.jass_top.specs.SearchTexts.{search_output};
ghost use Rattle.jass_top.specs.Private.Sides.{WroteSide};
ghost use Rattle.jass_base.specs.declared.limits.TheConstants.{MOST_HITS};
ghost use Rattle.jass_words.specs.declared.word_limits.TheConstants.{MOST_BUDGETS};

use crate::search_queries::search_all;
use crate::search_stop::{SearchOutput, SearchStop};
use frame_pool::FramePool;
use index_file::{NamedSource, Source};
use jass_base::{Budget, Cabinet, FileSink, Query, Row, Sink, Steps};
use jass_words::Until;
use std::alloc::Global;
use std::sync::ledger::Ledger;

/// Makes a file the run of queries, and puts their reports on the output.
pub fn write_search<S: NamedSource, C: Cabinet, O: Sink, L: Ledger>(
    alloc: Global,
    queries: Row<Query>,
    k: u32,
    budgets: &[Budget],
    tag: &str,
    until: Until,
    source: &S,
    steps: &mut Steps<L>,
    files: &mut C,
    name: &str,
    out: &mut O,
) -> Result<(), SearchStop>
    requires some { 1 ≤ k }
    requires few_hits { k ≤ MOST_HITS }
    requires few_budgets { length budgets.now ≤ MOST_BUDGETS }
    requires known { AllByRecursion (λ (query : Query). AreKnown (S.index source.now) query.terms) queries }
    requires few_terms { AllByRecursion (MayStop until) queries }
    ensures steps { Stepped steps.old steps.new
        (search_output (S.index source.now)
        (search_until until k budgets.now tag.now) (asked_of queries)).steps result }
    ensures run { WroteFile C.told C.write_faults (SearchStop.Unwritten SearchOutput.Run) files.old files.new name.now
        (search_output (S.index source.now) (search_until until k budgets.now tag.now) (asked_of queries)).content
        result }
    ensures out { WroteSide O.written O.faults O.rest (SearchStop.Unwritten SearchOutput.Reports) out.old out.new
        (search_output (S.index source.now) (search_until until k budgets.now tag.now) (asked_of queries)).text
        result }
{
    source.is_searchable();
    let mut pool = match FramePool::new(alloc, Source::docs(source).div_ceil(256), 1) {
        Ok(pool) => pool,
        Err(_) => {
            drop(queries);
            return Err(SearchStop::NoMemory);
        }
    };
    match files.create(name) {
        Ok(()) => {}
        Err(_) => {
            drop(pool);
            drop(queries);
            return Err(SearchStop::Unwritten(SearchOutput::Run));
        }
    }
    let mut sink = FileSink { files, name };
    let searched = search_behind(
        alloc, queries, k, budgets, tag, until, source, &mut pool, steps, &mut sink, out,
    );
    let FileSink { files: _, name: _ } = sink;
    drop(pool);
    searched
}

/// Puts the run behind the content of a file.
fn search_behind<'a, S: NamedSource, C: Cabinet, O: Sink, L: Ledger>(
    alloc: Global,
    queries: Row<Query>,
    k: u32,
    budgets: &[Budget],
    tag: &str,
    until: Until,
    source: &S,
    pool: &mut FramePool,
    steps: &mut Steps<L>,
    sink: &mut FileSink<'a, C>,
    out: &mut O,
) -> Result<(), SearchStop>
    requires some { 1 ≤ k }
    requires few_hits { k ≤ MOST_HITS }
    requires few_budgets { length budgets.now ≤ MOST_BUDGETS }
    requires known { AllByRecursion (λ (query : Query). AreKnown (S.index source.now) query.terms) queries }
    requires few_terms { AllByRecursion (MayStop until) queries }
    requires ready { IsReady (S.index source.now) pool.old }
    ensures steps { Stepped steps.old steps.new
        (search_output (S.index source.now)
        (search_until until k budgets.now tag.now) (asked_of queries)).steps result }
    ensures same_reference { sink.new.files.ghost_name ≡ sink.old.files.ghost_name }
    ensures same_name { sink.new.name.now ≡ sink.old.name.now }
    ensures run { WroteBehind C.told C.write_faults (SearchStop.Unwritten SearchOutput.Run)
        sink.old.files.now sink.new.files.now sink.old.name.now
        (search_output (S.index source.now) (search_until until k budgets.now tag.now) (asked_of queries)).content
        result }
    ensures out { WroteSide O.written O.faults O.rest (SearchStop.Unwritten SearchOutput.Reports) out.old out.new
        (search_output (S.index source.now) (search_until until k budgets.now tag.now) (asked_of queries)).text
        result }
{
    search_all(
        alloc, queries, k, budgets, tag, until, source, pool, steps, sink, out,
    )
}
