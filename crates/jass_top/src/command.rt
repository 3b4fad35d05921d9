ghost use Rattle.std.specs.Prelude.{◌≡◌, ◌≤◌};
ghost use Rattle.std.specs.Option.{option_map};
ghost use Rattle.jass_words.specs.Commands.{command_data};
ghost use Rattle.jass_top.specs.Commands.{meaning_of};
ghost use Rattle.jass_top.specs.Private.Causes.{Runs};
ghost use Rattle.jass_top.specs.Worlds.{outer};

use crate::audit::run_audit_command;
use crate::check::run_check;
use crate::exhaust::run_exhaust;
use crate::export::run_export;
use crate::help::run_help;
use crate::import::run_import;
use crate::migrate::run_migrate;
use crate::once::run_once;
use crate::rewrite::run_rewrite;
use crate::search::run_search;
use crate::serve::run_serve;
use crate::shards::run_shards;
use crate::stop::Stop;
use crate::trial::run_trial;
use crate::version::run_version;
use jass_base::{Cabinet, Feed, Sink, Steps};
use jass_words::Command;
use std::alloc::Global;
use std::sync::ledger::Ledger;

/// Runs a command, and ends the writing of its file behind all that it writes and prints.
pub fn run_command<'a, C: Cabinet, I: Feed, O: Sink, L: Ledger>(
    alloc: Global,
    command: Command<'a>,
    files: &mut C,
    input: &mut I,
    out: &mut O,
    steps: &mut Steps<L>,
) -> Result<(), Stop<'a>>
    ensures { Runs (meaning_of (command_data command.entry))
        (outer C.Cabinet I.Feed O.Sink files.old input.old out.old steps.old)
        (outer C.Cabinet I.Feed O.Sink files.new input.new out.new steps.new) result }
{
    let file = written_by(command);
    match do_command(alloc, command, files, input, out, steps) {
        Ok(()) => {}
        Err(stop) => return Err(stop),
    }
    let Some(name) = file else {
        return Ok(());
    };
    match files.finish(name) {
        Ok(()) => Ok(()),
        Err(_) => Err(Stop::WriteFault { name }),
    }
}

/// The file that a command writes.
fn written_by<'a>(command: Command<'a>) -> Option<&'a str>
    ensures { option_map (λ name. name.now) result ≡ (meaning_of (command_data command.entry)).file }
{
    match command {
        Command::Rewrite { from: _, to } => Some(to),
        Command::Import(import) => Some(import.index),
        Command::Export { index: _, ciff } => Some(ciff),
        Command::Migrate { from: _, to } => Some(to),
        Command::Search { run, .. } => Some(run),
        Command::Shards(shards) => Some(shards.run),
        Command::Exhaust { run, .. } => Some(run),
        _ => None,
    }
}

/// Runs a command, but for the end of what it writes.
fn do_command<'a, C: Cabinet, I: Feed, O: Sink, L: Ledger>(
    alloc: Global,
    command: Command<'a>,
    files: &mut C,
    input: &mut I,
    out: &mut O,
    steps: &mut Steps<L>,
) -> Result<(), Stop<'a>>
    ensures runs { Runs (meaning_of (command_data command.entry))
        (outer C.Cabinet I.Feed O.Sink files.old input.old out.old steps.old)
        (outer C.Cabinet I.Feed O.Sink files.new input.new out.new steps.new) result }
    ensures later { C.write_faults files.old ≤ C.write_faults files.new }
{
    match command {
        Command::Once(once) => run_once(alloc, once, files, out, steps),
        Command::Rewrite { from, to } => run_rewrite(alloc, from, to, files),
        Command::Import(import) => run_import(
            alloc,
            import.ciff,
            import.index,
            import.rule,
            import.bits,
            files,
            out,
        ),
        Command::Check { index } => run_check(alloc, index, files, out),
        Command::Export { index, ciff } => run_export(alloc, index, ciff, files, steps),
        Command::Migrate { from, to } => run_migrate(alloc, from, to, files, out),
        Command::Search {
            index,
            queries,
            run,
            budgets,
            asked,
            until,
        } => run_search(
            alloc,
            index,
            queries,
            run,
            budgets.as_slice(),
            asked,
            until,
            files,
            out,
            steps,
        ),
        Command::Shards(shards) => run_shards(
            alloc,
            shards,
            shards.budgets.as_slice(),
            files,
            out,
            steps,
        ),
        Command::Exhaust {
            index,
            queries,
            run,
            asked,
        } => run_exhaust(alloc, index, queries, run, asked, files, out, steps),
        Command::Audit(audit) => run_audit_command(alloc, audit, files, out, steps),
        Command::Trial(trial) => run_trial(
            alloc,
            trial.seed,
            trial.docs,
            trial.terms,
            trial.queries,
            out,
            steps,
        ),
        Command::Serve(serve) => run_serve(
            alloc,
            serve.index,
            serve.frames,
            files,
            input,
            out,
            steps,
        ),
        Command::Help => run_help(out),
        Command::Version => run_version(out),
    }
}
