ghost use Rattle.std.specs.Prelude.{◌≡◌, ◌≤◌, [], ◌∷◌, IfOk, IfErr};
ghost use Rattle.std.specs.List.{AllByRecursion};
ghost use Rattle.jass_base.specs.Outside.{Wrote};
ghost use Rattle.jass_base.specs.declared.query.Query.{Query};
ghost use Rattle.session_engine.specs.Plans.{AreKnown};
ghost use Rattle.index_model.specs.Flat.{numbered_flat};
ghost use Rattle.run_audit.specs.Audits.{Counts, IsAudit, queries_postings};
ghost use Rattle.jass_top.specs.AuditMeaning.{audit_meaning, judge_audit, verdict_line};
ghost use Rattle.jass_top.specs.Private.Audits.{AreAudited, asked_by};
ghost use Rattle.jass_top.specs.Private.Causes.{Runs, Unread};
ghost use Rattle.jass_top.specs.Private.Inputs.{HasInput};
ghost use Rattle.jass_top.specs.Private.SearchRuns.{asked_of};
ghost use Rattle.jass_top.specs.Private.Worlds.{with_files, with_output, with_steps};
ghost use Rattle.jass_top.specs.Worlds.{Outer};

use crate::audit_input::{open_run, open_text};
use crate::search::open_search;
use crate::stop::{OUTPUT, Stop};
use gathered_text::put_all;
use index_file::IndexFile;
use itoa::Buffer;
use jass_base::{Cabinet, NoMemory, Query, Row, Sink, Steps, WriteFault};
use jass_words::{Audit, Until};
use run_audit::{Search, Verdict, check_answers};
use std::alloc::Global;
use std::sync::ledger::Ledger;
use trec_run::RunLine;

/// What is audited, and what it is audited by.
#[derive(Drop)]
struct Audited {
    index: IndexFile,
    queries: Row<Query>,
    run: Row<RunLine>,
    reports: Row<u8>,
}

/// Prints whether a run and its reports are those of the search.
pub fn run_audit_command<'a, C: Cabinet, O: Sink, L: Ledger>(
    alloc: Global,
    audit: Audit<'a>,
    files: &mut C,
    out: &mut O,
    steps: &mut Steps<L>,
) -> Result<(), Stop<'a>>
    ensures runs { (beside : Outer) → Runs (audit_meaning audit.entry.index.now audit.entry.queries.now
        audit.entry.run.now audit.entry.reports.now (asked_by audit.entry) audit.entry.asked.mode)
        (with_output O.Sink out.old (with_files C.Cabinet files.old (with_steps steps.old beside)))
        (with_output O.Sink out.new (with_files C.Cabinet files.new (with_steps steps.new beside))) result }
    ensures later { C.write_faults files.old ≤ C.write_faults files.new }
{
    let audited = open_audit(alloc, audit, files)?;
    let verdict = verdict_on(alloc, &audited, audit, steps);
    drop(audited);
    let Ok(verdict) = verdict else {
        return Err(Stop::NoMemory);
    };
    match put_verdict(out, verdict) {
        Ok(()) => Ok(()),
        Err(_) => Err(Stop::WriteFault { name: OUTPUT }),
    }
}

/// Opens the index file, reads the queries over it, then the run, then the reports.
fn open_audit<'a, C: Cabinet>(
    alloc: Global,
    audit: Audit<'a>,
    files: &mut C,
) -> Result<Audited, Stop<'a>>
    ensures accepted { IfOk result (λ audited. HasInput (judge_audit audit.entry.index.now audit.entry.queries.now
        audit.entry.run.now audit.entry.reports.now audit.entry.asked.mode (C.told files.old))
        (AreAudited audited)) }
    ensures known { IfOk result (λ audited.
        AllByRecursion (λ (query : Query). AreKnown audited.index.index query.terms) audited.queries) }
    ensures unread { IfErr result (λ stop. Unread
        (audit.entry.index.now ∷ audit.entry.queries.now ∷ audit.entry.run.now ∷ audit.entry.reports.now ∷ [])
        (judge_audit audit.entry.index.now audit.entry.queries.now audit.entry.run.now audit.entry.reports.now
        audit.entry.asked.mode (C.told files.old)) (C.read_faults files.old) (C.read_faults files.new) stop) }
    ensures stays { C.told files.new ≡ C.told files.old }
    ensures later { C.read_faults files.old ≤ C.read_faults files.new }
    ensures others { C.write_faults files.old ≤ C.write_faults files.new }
{
    let (index, queries) = open_search(
        alloc,
        audit.index,
        audit.queries,
        audit.asked.mode,
        Until::Budget,
        files,
    )?;
    let run = match open_run(alloc, files, audit.run) {
        Ok(run) => run,
        Err(stop) => {
            drop(index);
            drop(queries);
            return Err(stop);
        }
    };
    match open_text(alloc, files, audit.reports) {
        Ok(reports) => Ok(Audited {
            index,
            queries,
            run,
            reports,
        }),
        Err(stop) => {
            drop(index);
            drop(queries);
            drop(run);
            Err(stop)
        }
    }
}

/// The verdict on what is audited.
fn verdict_on<L: Ledger>(
    alloc: Global,
    audited: &Audited,
    audit: Audit<'_>,
    steps: &mut Steps<L>,
) -> Result<Verdict, NoMemory>
    requires known { AllByRecursion (λ (query : Query). AreKnown audited.now.index.index query.terms)
        audited.now.queries }
    ensures verdict { IfOk result (IsAudit audited.now.index.index.names (numbered_flat audited.now.index.index)
        (asked_of audited.now.queries) (asked_by audit.entry) audited.now.run audited.now.reports) }
    ensures steps { Counts steps.old steps.new
        (queries_postings (numbered_flat audited.now.index.index) (asked_of audited.now.queries)) result }
{
    let search = Search {
        k: audit.asked.k,
        budgets: audit.budgets.as_slice(),
        tag: audit.asked.tag,
    };
    check_answers(
        alloc,
        &audited.index,
        audited.queries.as_slice(),
        &search,
        audited.run.as_slice(),
        audited.reports.as_slice(),
        steps,
    )
}

/// Prints the line of a verdict.
fn put_verdict<O: Sink>(out: &mut O, verdict: Verdict) -> Result<(), WriteFault>
    ensures { Wrote O.written O.faults O.rest out.old out.new (verdict_line verdict) result }
{
    let mut digits = Buffer::new();
    match verdict {
        Verdict::Yes => put_all(out, &[b"audit ok\n"]),
        Verdict::Report { line } => put_all(
            out,
            &[
                b"audit no report line ",
                digits.format(line).as_bytes(),
                b"\n",
            ],
        ),
        Verdict::Run { line } => put_all(
            out,
            &[b"audit no run line ", digits.format(line).as_bytes(), b"\n"],
        ),
    }
}
