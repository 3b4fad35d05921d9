ghost use Rattle.std.specs.Prelude.{◌≡◌, ◌≢◌, ◌≤◌, ◌<◌, Ok, IfNone, IfOk, IsErrOf, IsTrue, length};
ghost use Rattle.std.specs.List.{AllByRecursion};
ghost use Rattle.index_file.specs.Places.{texts_of};
ghost use Rattle.query_reader.specs.Queries.{query_data};
ghost use Rattle.query_reader.specs.Reading.{read_mentions};
ghost use Rattle.query_reader.specs.Refusals.{Answers, at_line};
ghost use Rattle.query_reader.specs.Texts.{blank_runs, mentions_of};
ghost use Rattle.session_engine.specs.Plans.{AreKnown};
ghost use Rattle.session_engine.specs.declared.session.Session.{Session};
ghost use Rattle.session_desk.specs.Private.Opening.{Opens, refuses};
ghost use Rattle.session_desk.specs.Replies.{fitting, has_room, opening, room_refusal};
ghost use Rattle.session_desk.specs.Standing.{state_of};
ghost use Rattle.session_desk.specs.Private.Standing.{Differ, TableStands, name_of};
ghost use Rattle.jass_base.specs.declared.limits.TheConstants.{LONGEST_LINE, MOST_HITS};
ghost use Rattle.session_desk.specs.declared.desk_limits.TheConstants.{MOST_SESSIONS};

use crate::desk_limits::MOST_SESSIONS;
use crate::refusal::DeskRefusal;
use crate::table::Table;
use index_file::{NamedSource, Source};
use jass_base::Query;
use query_reader::{Mode, QueryFault, QueryWhy, read_terms};
use session_engine::laws::{
    a_standing_session_has_its_chain, calls_on_other_chains_leave_sessions,
};
use session_engine::{OpenStop, Session};
use std::alloc::Global;

/// What is told of a session that was opened.
#[derive(Clone, Copy)]
pub struct Opened {
    /// The most frames that it can use.
    pub need: u32,
    /// The number of mentions of terms that the index hasn't.
    pub unknown: u32,
}

/// Why no session was opened.
#[derive(Clone, Copy)]
pub enum SessionFault {
    Refused(DeskRefusal),
    NoMemory,
}

impl Table {
    /// Opens a session of this name for k documents. The text has the mentions of its query.
    pub fn open<S: NamedSource>(
        &mut self,
        alloc: Global,
        source: &S,
        name: &str,
        k: u32,
        mentions: &str,
    ) -> Result<Opened, SessionFault>
        requires stands { TableStands (S.index source.now) self.old }
        requires some { 1 ≤ k }
        requires few { k ≤ MOST_HITS }
        requires fits { length mentions.now ≤ LONGEST_LINE }
        ensures stands { TableStands (S.index source.now) self.new }
        ensures opens { Opens (S.index source.now)
            (opening (S.index source.now) (state_of self.old) name.now k (blank_runs mentions.now))
            name.now (state_of self.old) (state_of self.new) result }
        ensures memory { IsErrOf result SessionFault.NoMemory → IsTrue (has_room name.now (state_of self.old)) }
    {
        match self.room_refusal(name) {
            Some(refusal) => return Err(SessionFault::Refused(refusal)),
            None => {}
        }
        match query_over(alloc, name, mentions, source) {
            Ok(query) => self.add(alloc, source, query, k),
            Err(fault) => Err(session_fault(fault)),
        }
    }

    /// Why no session of this name is opened, whatever its query.
    fn room_refusal(&self, name: &str) -> Option<DeskRefusal>
        requires { Differ self.now.sessions.items }
        ensures refusal { result ≡ room_refusal name.now (state_of self.now) }
        ensures free { IfNone result
            (AllByRecursion (λ (s : Session). name_of s ≢ name.now) self.now.sessions.items) }
        ensures few { IfNone result (length self.now.sessions.items < MOST_SESSIONS) }
    {
        if self.place_of(name).is_some() {
            return Some(DeskRefusal::NameInUse);
        }
        if self.sessions.len() >= MOST_SESSIONS {
            return Some(DeskRefusal::DeskFull);
        }
        None
    }

    /// Puts a session of a query behind the others, none of which has its name.
    fn add<S: Source>(
        &mut self,
        alloc: Global,
        source: &S,
        query: Query,
        k: u32,
    ) -> Result<Opened, SessionFault>
        requires stands { TableStands (S.index source.now) self.old }
        requires others { AllByRecursion (λ (s : Session). name_of s ≢ query.id) self.old.sessions.items }
        requires room { length self.old.sessions.items < MOST_SESSIONS }
        requires known { AreKnown (S.index source.now) query.terms }
        requires some { 1 ≤ k }
        requires few { k ≤ MOST_HITS }
        ensures stands { TableStands (S.index source.now) self.new }
        ensures opens { Opens (S.index source.now)
            (fitting (S.index source.now) (state_of self.old) k (Ok (query_data query))) query.id (state_of self.old) (state_of self.new) result }
    {
        calls_on_other_chains_leave_sessions();
        a_standing_session_has_its_chain();
        let before = self.pool.spare();
        let unknown = query.unknown;
        match Session::open(alloc, source, &mut self.pool, query, k) {
            Ok(session) => {
                self.sessions.push_reserved(session);
                let need = before - self.pool.spare();
                Ok(Opened { need, unknown })
            }
            Err(OpenStop::PoolFull { need, free }) => {
                Err(SessionFault::Refused(DeskRefusal::PoolFull { need, free }))
            }
            Err(OpenStop::NoMemory) => Err(SessionFault::NoMemory),
        }
    }
}

/// The query of a name with these mentions over the terms of an index.
fn query_over<S: NamedSource>(
    alloc: Global,
    name: &str,
    mentions: &str,
    source: &S,
) -> Result<Query, QueryFault>
    requires { length mentions.now ≤ LONGEST_LINE }
    ensures query { Answers query_data result (at_line 1
        (read_mentions (texts_of (S.index source.now).terms) name.now (mentions_of Mode.Plain mentions.now))) }
    ensures known { IfOk result (λ query. AreKnown (S.index source.now) query.terms) }
{
    source.tells_its_index();
    read_terms(alloc, name, mentions, Mode::Plain, source)
}

/// What a fault of mentions is at a desk.
fn session_fault(fault: QueryFault) -> SessionFault
    ensures { result ≡ refuses fault }
{
    match fault {
        QueryFault::NoMemory => SessionFault::NoMemory,
        QueryFault::Refused(refusal) => match refusal.why {
            QueryWhy::Terms => SessionFault::Refused(DeskRefusal::TooManyTerms),
            _ => SessionFault::Refused(DeskRefusal::NamedTooOften),
        },
    }
}
