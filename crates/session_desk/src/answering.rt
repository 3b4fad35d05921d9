ghost use Rattle.std.specs.Prelude.{◌≡◌, ◌≤◌, ◌+◌, ◌↔◌, IfOk, IsTrue, Ok, Some, length, option_map};
ghost use Rattle.index_model.specs.Index.{IndexData};
ghost use Rattle.query_reader.specs.Texts.{blank_runs};
ghost use Rattle.session_desk.specs.Private.Commands.{FitsLine, command_data};
ghost use Rattle.session_desk.specs.Endings.{left_where, may_take_memory, text_where};
ghost use Rattle.session_desk.specs.Lines.{Grant, Open, Top, Why, is_end_command};
ghost use Rattle.session_desk.specs.Replies.{after_close, after_of, close_reply, command_after, command_reply};
ghost use Rattle.session_desk.specs.Replies.{command_steps, end_text, reply_to, steps_of};
ghost use Rattle.session_desk.specs.Standing.{state_of};
ghost use Rattle.session_desk.specs.Private.Standing.{TableStands};
ghost use Rattle.gathered_text.specs.Gathering.{Gathers};
ghost use Rattle.jass_base.specs.declared.limits.TheConstants.{LONGEST_LINE, MOST_HITS};

use crate::command::Command;
use crate::opening::SessionFault;
use crate::refusal::DeskRefusal;
use crate::table::Table;
use crate::texts::{gather_closed, gather_end, gather_hits, gather_opened, gather_refusal};
use crate::went::Went;
use gathered_text::Buffer;
use index_file::{NamedSource, Source};
use jass_base::{Budget, Sink, Steps, WriteFault};
use ranking_model::laws::the_ranking_has_documents_of_the_scores;
use session_engine::laws::a_session_plan_names_its_segments;
use std::alloc::Global;
use std::sync::ledger::Ledger;
use trec_run::gather_report;

/// Gathers the reply to a command, or to a bad line where there is none. A command has its effect also where a put
/// fails.
pub fn answer<S: NamedSource, O: Sink, L: Ledger>(
    table: &mut Table,
    alloc: Global,
    source: &S,
    command: Option<Command<'_>>,
    out: &mut O,
    buffer: &mut Buffer,
    steps: &mut Steps<L>,
) -> Result<Went, WriteFault>
    requires stands { TableStands (S.index source.now) table.old }
    requires fits { FitsLine command }
    ensures stands { TableStands (S.index source.now) table.new }
    ensures reply { Gathers O.written O.faults O.rest out.old out.new buffer.old buffer.new
        (text_where result (reply_to (S.index source.now) (state_of table.old)
        (option_map command_data command.entry))) result }
    ensures after { state_of table.new ≡ left_where result (state_of table.old)
        (after_of (S.index source.now) (state_of table.old) (option_map command_data command.entry)) }
    ensures steps { steps.new
        ≡ steps.old + steps_of (S.index source.now) (state_of table.old) (option_map command_data command.entry) }
    ensures end { IfOk result (λ went.
        went ≡ Went.End ↔ IsTrue (is_end_command (option_map command_data command.entry))) }
    ensures memory { IfOk result (λ went. went ≡ Went.NoMemory →
        IsTrue (may_take_memory (state_of table.old) (option_map command_data command.entry))) }
    ensures untouched { result ≡ Ok Went.NoMemory → (out.new ≡ out.old) × (buffer.new ≡ buffer.old) }
{
    let gathered = match command {
        None => gather_refusal(out, buffer, DeskRefusal::BadLine),
        Some(Command::Open { name, k, mentions }) => {
            return open(table, alloc, source, name, k, mentions, out, buffer);
        }
        Some(Command::End) => return end(out, buffer),
        Some(Command::Grant { name, budget }) => grant(
            table, source, name, budget, out, buffer, steps,
        ),
        Some(Command::Top { name }) => top(table, source, name, out, buffer),
        Some(Command::Why { name }) => why(table, name, out, buffer),
        Some(Command::Close { name }) => close(table, name, out, buffer),
    };
    match gathered {
        Ok(()) => Ok(Went::On),
        Err(fault) => Err(fault),
    }
}

/// Gathers the reply to `open`, unless memory is refused.
fn open<S: NamedSource, O: Sink>(
    table: &mut Table,
    alloc: Global,
    source: &S,
    name: &str,
    k: u32,
    mentions: &str,
    out: &mut O,
    buffer: &mut Buffer,
) -> Result<Went, WriteFault>
    requires stands { TableStands (S.index source.now) table.old }
    requires fits { (1 ≤ k) × (k ≤ MOST_HITS) × (length mentions.now ≤ LONGEST_LINE) }
    ensures stands { TableStands (S.index source.now) table.new }
    ensures reply { Gathers O.written O.faults O.rest out.old out.new buffer.old buffer.new
        (text_where result
        (command_reply (S.index source.now) (state_of table.old) (Open name.now k (blank_runs mentions.now)))) result }
    ensures after { state_of table.new ≡ left_where result (state_of table.old)
        (command_after (S.index source.now) (state_of table.old) (Open name.now k (blank_runs mentions.now))) }
    ensures on { IfOk result (λ went. went ≡ Went.End → ⊥) }
    ensures memory { IfOk result (λ went. went ≡ Went.NoMemory →
        IsTrue (may_take_memory (state_of table.old) (Some (Open name.now k (blank_runs mentions.now))))) }
    ensures untouched { result ≡ Ok Went.NoMemory → (out.new ≡ out.old) × (buffer.new ≡ buffer.old) }
{
    let gathered = match table.open(alloc, source, name, k, mentions) {
        Ok(opened) => gather_opened(out, buffer, name, opened.need, opened.unknown),
        Err(SessionFault::Refused(refusal)) => gather_refusal(out, buffer, refusal),
        Err(SessionFault::NoMemory) => return Ok(Went::NoMemory),
    };
    match gathered {
        Ok(()) => Ok(Went::On),
        Err(fault) => Err(fault),
    }
}

/// Gathers the reply to `end`.
fn end<O: Sink>(out: &mut O, buffer: &mut Buffer) -> Result<Went, WriteFault>
    ensures reply { Gathers O.written O.faults O.rest out.old out.new buffer.old buffer.new end_text result }
    ensures end { IfOk result (λ went. went ≡ Went.End) }
{
    match gather_end(out, buffer) {
        Ok(()) => Ok(Went::End),
        Err(fault) => Err(fault),
    }
}

/// Gathers the reply to `grant`.
fn grant<S: Source, O: Sink, L: Ledger>(
    table: &mut Table,
    source: &S,
    name: &str,
    budget: Budget,
    out: &mut O,
    buffer: &mut Buffer,
    steps: &mut Steps<L>,
) -> Result<(), WriteFault>
    requires stands { TableStands (S.index source.now) table.old }
    ensures stands { TableStands (S.index source.now) table.new }
    ensures reply { Gathers O.written O.faults O.rest out.old out.new buffer.old buffer.new
        (command_reply (S.index source.now) (state_of table.old) (Grant name.now budget)) result }
    ensures after { state_of table.new
        ≡ command_after (S.index source.now) (state_of table.old) (Grant name.now budget) }
    ensures steps { steps.new
        ≡ steps.old + command_steps (S.index source.now) (state_of table.old) (Grant name.now budget) }
{
    match table.grant(source, name, budget, steps) {
        Some(told) => gather_report(out, buffer, name, told.unknown, told.report),
        None => gather_refusal(out, buffer, DeskRefusal::UnknownSession),
    }
}

/// Gathers the reply to `top`.
fn top<S: NamedSource, O: Sink>(
    table: &Table,
    source: &S,
    name: &str,
    out: &mut O,
    buffer: &mut Buffer,
) -> Result<(), WriteFault>
    requires stands { TableStands (S.index source.now) table.now }
    ensures { Gathers O.written O.faults O.rest out.old out.new buffer.old buffer.new
        (command_reply (S.index source.now) (state_of table.now) (Top name.now)) result }
{
    a_session_plan_names_its_segments();
    the_ranking_has_documents_of_the_scores();
    match table.session(name) {
        Some(session) => gather_hits(out, buffer, name, source, session.answer()),
        None => gather_refusal(out, buffer, DeskRefusal::UnknownSession),
    }
}

/// Gathers the reply to `why`.
fn why<O: Sink>(
    table: &Table,
    name: &str,
    out: &mut O,
    buffer: &mut Buffer,
) -> Result<(), WriteFault>
    ensures { (index : IndexData) → TableStands index table.now →
        Gathers O.written O.faults O.rest out.old out.new buffer.old buffer.new
        (command_reply index (state_of table.now) (Why name.now)) result }
{
    match table.told(name) {
        Some(told) => gather_report(out, buffer, name, told.unknown, told.report),
        None => gather_refusal(out, buffer, DeskRefusal::UnknownSession),
    }
}

/// Gathers the reply to `close`.
fn close<O: Sink>(
    table: &mut Table,
    name: &str,
    out: &mut O,
    buffer: &mut Buffer,
) -> Result<(), WriteFault>
    requires stands { (index : IndexData) × TableStands index table.old }
    ensures stands { (index : IndexData) → TableStands index table.old → TableStands index table.new }
    ensures reply { Gathers O.written O.faults O.rest out.old out.new buffer.old buffer.new
        (close_reply (state_of table.old) name.now) result }
    ensures after { state_of table.new ≡ after_close (state_of table.old) name.now }
{
    if table.close(name) {
        gather_closed(out, buffer, name)
    } else {
        gather_refusal(out, buffer, DeskRefusal::UnknownSession)
    }
}
