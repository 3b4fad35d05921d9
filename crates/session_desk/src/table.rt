ghost use Rattle.std.specs.Prelude.{◌≡◌, ◌≤◌, ◌+◌, IfOk, IfSome, option_map, is_some};
ghost use Rattle.index_model.specs.Index.{IndexData};
ghost use Rattle.session_engine.specs.Standing.{SessionStands};
ghost use Rattle.session_desk.specs.Lines.{Grant};
ghost use Rattle.session_desk.specs.Replies.{after_close, command_after, command_steps};
ghost use Rattle.session_desk.specs.Standing.{session_data, state_of};
ghost use Rattle.session_desk.specs.Private.Standing.{Differ, TableStands};
ghost use Rattle.session_desk.specs.Private.Reporting.{told_of};
ghost use Rattle.session_desk.specs.Private.Places.{FindsName};
ghost use Rattle.session_desk.specs.State.{granted_more, new_state, session_named};
ghost use Rattle.jass_base.specs.declared.limits.TheConstants.{MOST_FRAMES};

use crate::desk_limits::MOST_SESSIONS;
use crate::told::Told;
use frame_pool::FramePool;
use index_file::Source;
use jass_base::{Budget, NoMemory, Steps};
use session_engine::Session;
use session_engine::laws::{
    a_standing_session_has_its_chain, calls_on_other_chains_leave_sessions,
};
use std::alloc::Global;
use std::sync::ledger::Ledger;

/// Open sessions in the order of their opening, and the pool that their scores stand in. Each call that takes an index
/// wants that over which the sessions stand.
pub struct Table {
    pub(crate) pool: FramePool,
    pub(crate) sessions: Vec<Session>,
}

impl Table {
    /// No session, and room for 64.
    pub fn new(alloc: Global, frames: u32) -> Result<Table, NoMemory>
        requires { frames ≤ MOST_FRAMES }
        ensures stands { (index : IndexData) → IfOk result (λ table. TableStands index table) }
        ensures state { IfOk result (λ table. state_of table ≡ new_state frames) }
    {
        let pool = FramePool::new(alloc, frames, MOST_SESSIONS as u32)?;
        match Vec::with_capacity(alloc, MOST_SESSIONS) {
            Ok(sessions) => Ok(Table { pool, sessions }),
            Err(_) => Err(NoMemory),
        }
    }

    /// The place of the session of this name, where one is open.
    pub fn place_of(&self, name: &str) -> Option<usize>
        ensures { FindsName self.now.sessions.items name.now result }
    {
        for (place, session) in self.sessions.iter().enumerate() {
            if session.query().id.as_str() == name {
                return Some(place);
            }
        }
        None
    }

    /// Grants a budget more to the session of this name, and tells of it. `None` where no such session is open.
    pub fn grant<S: Source, L: Ledger>(
        &mut self,
        source: &S,
        name: &str,
        budget: Budget,
        steps: &mut Steps<L>,
    ) -> Option<Told>
        requires stands { TableStands (S.index source.now) self.old }
        ensures stands { TableStands (S.index source.now) self.new }
        ensures told { result ≡ option_map (λ session. told_of (S.index source.now) (granted_more budget session))
            (session_named name.now (state_of self.old)) }
        ensures after { state_of self.new
            ≡ command_after (S.index source.now) (state_of self.old) (Grant name.now budget) }
        ensures steps { steps.new
            ≡ steps.old + command_steps (S.index source.now) (state_of self.old) (Grant name.now budget) }
    {
        calls_on_other_chains_leave_sessions();
        let place = self.place_of(name)?;
        let session = &mut self.sessions[place];
        let report = session.grant(source, &mut self.pool, budget, steps);
        let unknown = session.query().unknown;
        Some(Told { report, unknown })
    }

    /// Closes the session of this name. False where no such session is open.
    pub fn close(&mut self, name: &str) -> bool
        requires stands { (index : IndexData) × TableStands index self.old }
        ensures stands { (index : IndexData) → TableStands index self.old → TableStands index self.new }
        ensures open { result ≡ is_some (session_named name.now (state_of self.old)) }
        ensures after { state_of self.new ≡ after_close (state_of self.old) name.now }
    {
        calls_on_other_chains_leave_sessions();
        a_standing_session_has_its_chain();
        match self.place_of(name) {
            Some(place) => {
                let session = self.sessions.remove(place);
                session.close(&mut self.pool);
                true
            }
            None => false,
        }
    }

    /// The session of this name, where one is open.
    pub fn session(&self, name: &str) -> Option<&Session>
        requires { Differ self.now.sessions.items }
        ensures session { option_map (λ s. session_data s.now) result ≡ session_named name.now (state_of self.now) }
        ensures stands { (index : IndexData) → TableStands index self.now →
            IfSome result (λ s. SessionStands s.now index self.now.pool) }
    {
        let place = self.place_of(name)?;
        Some(&self.sessions[place])
    }

    /// What a report line tells of the session of this name. `None` where no such session is open.
    pub fn told(&self, name: &str) -> Option<Told>
        ensures { (index : IndexData) → TableStands index self.now →
            result ≡ option_map (told_of index) (session_named name.now (state_of self.now)) }
    {
        let place = self.place_of(name)?;
        let session = &self.sessions[place];
        Some(Told {
            report: session.report(),
            unknown: session.query().unknown,
        })
    }

    /// Closes all sessions.
    pub fn close_all(self)
        requires { (index : IndexData) × TableStands index self }
    {
        a_standing_session_has_its_chain();
        let Table {
            mut pool,
            mut sessions,
        } = self;
        while let Some(session) = sessions.pop() {
            session.close(&mut pool);
        }
        sessions.destroy_empty();
    }
}
