ghost use Rattle.std.specs.Prelude.{◌≡◌, ◌≤◌, ◌+◌, ◌↔◌, Ok, IfErr, IfOk, IsTrue};
ghost use Rattle.session_desk.specs.Endings.{left_where, may_want_memory, text_where};
ghost use Rattle.session_desk.specs.Lines.{is_end};
ghost use Rattle.session_desk.specs.Replies.{desk_after, desk_reply, desk_steps};
ghost use Rattle.session_desk.specs.State.{new_state};
ghost use Rattle.gathered_text.specs.Gathering.{Gathers};
ghost use Rattle.jass_base.specs.declared.limits.TheConstants.{MOST_FRAMES};

use crate::answering::answer;
use crate::reading::read_command;
use crate::table::Table;
use crate::went::Went;
use gathered_text::Buffer;
use index_file::NamedSource;
use jass_base::{NoMemory, Sink, Steps, WriteFault};
use std::alloc::Global;
use std::marker::Model;
use std::sync::ledger::Ledger;

/// Up to 64 sessions over one source of segments, in the frames of one pool. It ends only by `close`.
///
/// Contracts see it as its source, its sessions by opening, and the number of its frames.
pub struct Desk<S: NamedSource> {
    alloc: Global,
    source: S,
    table: Table,
}

impl<S: NamedSource> Model for Desk<S> {
    ghost use Rattle.session_desk.specs.State.{DeskView};
    ghost use Rattle.session_desk.specs.Standing.{state_of};
    ghost use Rattle.session_desk.specs.Private.Standing.{TableStands};

    ghost Value = { DeskView S };

    ghost view = { λ d. record { source = d.source; state = state_of d.table } };

    ghost invariant = { λ d. TableStands (S.index d.source) d.table };
}

impl<S: NamedSource> Desk<S> {
    /// A desk without sessions, and with 1 to 1,048,576 frames of 2,060 bytes each. Where memory is refused it hands
    /// the source back.
    pub fn new(alloc: Global, source: S, frames: u32) -> Result<Desk<S>, (S, NoMemory)>
        requires some { 1 ≤ frames }
        requires few { frames ≤ MOST_FRAMES }
        ensures source { IfOk result (λ desk. desk.source ≡ source) }
        ensures state { IfOk result (λ desk. desk.state ≡ new_state frames) }
        ensures err { IfErr result (λ e. e.0 ≡ source) }
    {
        match Table::new(alloc, frames) {
            Ok(table) => Ok(Desk {
                alloc,
                source,
                table,
            }),
            Err(NoMemory) => Err((source, NoMemory)),
        }
    }

    /// Answers a line, which has no line end, and gathers the reply behind others. The line has its effect also after a
    /// `WriteFault`, and then a prefix of what was gathered before and of the reply went out.
    pub fn answer_line<O: Sink, L: Ledger>(
        &mut self,
        line: &[u8],
        out: &mut O,
        buffer: &mut Buffer,
        steps: &mut Steps<L>,
    ) -> Result<Went, WriteFault>
        ensures source { self.new.source ≡ self.old.source }
        ensures reply { Gathers O.written O.faults O.rest out.old out.new buffer.old buffer.new
            (text_where result (desk_reply (S.index self.old.source) self.old.state line.now)) result }
        ensures after { self.new.state ≡ left_where result self.old.state
            (desk_after (S.index self.old.source) self.old.state line.now) }
        ensures steps { steps.new ≡ steps.old + desk_steps (S.index self.old.source) self.old.state line.now }
        ensures end { IfOk result (λ went. went ≡ Went.End ↔ IsTrue (is_end line.now)) }
        ensures memory { IfOk result (λ went. went ≡ Went.NoMemory →
            IsTrue (may_want_memory self.old.state line.now)) }
        ensures untouched { result ≡ Ok Went.NoMemory → (out.new ≡ out.old) × (buffer.new ≡ buffer.old) }
    {
        let command = read_command(line);
        answer(
            &mut self.table,
            self.alloc,
            &self.source,
            command,
            out,
            buffer,
            steps,
        )
    }

    /// Closes all sessions, and hands the source back.
    pub fn close(self) -> S
        ensures { result ≡ self.source }
    {
        let Desk {
            alloc: _,
            source,
            table,
        } = self;
        table.close_all();
        source
    }
}
