ghost use Rattle.std.specs.Prelude.{◌≡◌, ◌≤◌};
ghost use Rattle.std.specs.List.{AllByRecursion};
ghost use Rattle.jass_base.specs.declared.query.Query.{Query};
ghost use Rattle.jass_base.specs.declared.limits.TheConstants.{MOST_HITS};
ghost use Rattle.session_engine.specs.Plans.{AreKnown};
ghost use Rattle.jass_top.specs.declared.search_stop.SearchOutput.{SearchOutput};
ghost use Rattle.jass_top.specs.declared.search_stop.SearchStop.{SearchStop};
ghost use Rattle.jass_top.specs.ExhaustMeaning.{exhaustive_lines, exhaustive_runs, postings_of_queries};
ghost use Rattle.jass_top.specs.Private.RunFiles.{WroteBehind, WroteFile};
ghost use Rattle.jass_top.specs.Private.SearchRuns.{Stepped, asked_of};
ghost use Rattle.jass_top.specs.Private.Sides.{WroteSide};

use crate::exhaust_queries::exhaust_all;
use crate::search_stop::{SearchOutput, SearchStop};
use index_file::NamedSource;
use jass_base::{Cabinet, FileSink, Query, Row, Sink, Steps};
use std::alloc::Global;
use std::sync::ledger::Ledger;

/// Makes a file the run of queries by all postings, and puts a line for each on the output.
pub fn write_exhaust<S: NamedSource, C: Cabinet, O: Sink, L: Ledger>(
    alloc: Global,
    queries: Row<Query>,
    k: u32,
    tag: &str,
    source: &S,
    steps: &mut Steps<L>,
    files: &mut C,
    name: &str,
    out: &mut O,
) -> Result<(), SearchStop>
    requires some { 1 ≤ k }
    requires few_hits { k ≤ MOST_HITS }
    requires known { AllByRecursion (λ (query : Query). AreKnown (S.index source.now) query.terms) queries }
    ensures steps { Stepped steps.old steps.new (postings_of_queries (S.index source.now) (asked_of queries)) result }
    ensures run { WroteFile C.told C.write_faults (SearchStop.Unwritten SearchOutput.Run) files.old files.new name.now
        (exhaustive_runs (S.index source.now) k tag.now (asked_of queries)) result }
    ensures out { WroteSide O.written O.faults O.rest (SearchStop.Unwritten SearchOutput.Reports) out.old out.new
        (exhaustive_lines (S.index source.now) k (asked_of queries)) result }
{
    match files.create(name) {
        Ok(()) => {}
        Err(_) => {
            drop(queries);
            return Err(SearchStop::Unwritten(SearchOutput::Run));
        }
    }
    let mut sink = FileSink { files, name };
    let searched = exhaust_behind(alloc, queries, k, tag, source, steps, &mut sink, out);
    let FileSink { files: _, name: _ } = sink;
    searched
}

/// Puts the run behind the content of a file.
fn exhaust_behind<'a, S: NamedSource, C: Cabinet, O: Sink, L: Ledger>(
    alloc: Global,
    queries: Row<Query>,
    k: u32,
    tag: &str,
    source: &S,
    steps: &mut Steps<L>,
    sink: &mut FileSink<'a, C>,
    out: &mut O,
) -> Result<(), SearchStop>
    requires some { 1 ≤ k }
    requires few_hits { k ≤ MOST_HITS }
    requires known { AllByRecursion (λ (query : Query). AreKnown (S.index source.now) query.terms) queries }
    ensures steps { Stepped steps.old steps.new (postings_of_queries (S.index source.now) (asked_of queries)) result }
    ensures same_reference { sink.new.files.ghost_name ≡ sink.old.files.ghost_name }
    ensures same_name { sink.new.name.now ≡ sink.old.name.now }
    ensures run { WroteBehind C.told C.write_faults (SearchStop.Unwritten SearchOutput.Run)
        sink.old.files.now sink.new.files.now sink.old.name.now
        (exhaustive_runs (S.index source.now) k tag.now (asked_of queries)) result }
    ensures out { WroteSide O.written O.faults O.rest (SearchStop.Unwritten SearchOutput.Reports) out.old out.new
        (exhaustive_lines (S.index source.now) k (asked_of queries)) result }
{
    exhaust_all(alloc, queries, k, tag, source, steps, sink, out)
}
