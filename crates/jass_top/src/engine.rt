ghost use Rattle.std.specs.Prelude.{◌≡◌, ◌+◌, ◌<◌, ◌≤◌, length, slice_set, None, IfOk, IfErr};
ghost use Rattle.jass_base.specs.declared.limits.TheConstants.{MOST_HITS};
ghost use Rattle.ranking_model.specs.Plan.{granted_with};
ghost use Rattle.index_model.specs.Index.{IndexData};
ghost use Rattle.frame_pool.specs.Pool.{IsInUse, PoolView, spare_of};
ghost use Rattle.frame_pool.specs.ChainView.{LeavesPool, chain_view};
ghost use Rattle.session_engine.specs.Plans.{AreKnown, HasFreeNumber, need_of};
ghost use Rattle.jass_top.specs.Private.Engines.{EngineStands, IsEngineOf, answer_over, chain_of, granted_of, k_of};
ghost use Rattle.jass_top.specs.Private.Engines.{query_of, report_of, until_of};
ghost use Rattle.jass_words.specs.declared.until.Until.TheVariants as untils;
ghost use Rattle.jass_words.specs.declared.word_limits.TheConstants.{MOST_FINAL_TERMS};

use frame_pool::FramePool;
use index_file::Source;
use jass_base::{Budget, Hit, Query, Report, Steps};
use jass_words::Until;
use session_engine::{OpenStop, Session};
use sharp_search::SharpSearch;
use std::alloc::Global;
use std::sync::ledger::Ledger;

/// A query that is answered in parts: as far as its grants pay, or no further than until its answer can't change. It
/// ends only by `close`.
pub enum Engine {
    Plain(Session),
    Sharp(SharpSearch),
}

impl Engine {
    /// One to which nothing is granted. k is 1 to 100,000, and a query that is searched until final has at most 64
    /// terms.
    ///
    /// The errors are those of a session: `PoolFull` only where the query needs more frames than are spare.
    pub fn open<S: Source>(
        alloc: Global,
        source: &S,
        pool: &mut FramePool,
        query: Query,
        k: u32,
        until: Until,
    ) -> Result<Engine, OpenStop>
        requires known { AreKnown (S.index source.now) query.terms }
        requires few_terms { until ≡ untils.Final → length query.terms ≤ MOST_FINAL_TERMS }
        requires some { 1 ≤ k }
        requires few { k ≤ MOST_HITS }
        requires chain { HasFreeNumber pool.old }
        ensures stands { IfOk result (λ engine. EngineStands engine (S.index source.now) pool.new) }
        ensures until { IfOk result (λ engine. until_of engine ≡ until) }
        ensures granted { IfOk result (λ engine. granted_of engine ≡ 0) }
        ensures query { IfOk result (λ engine. query_of engine ≡ query) }
        ensures k { IfOk result (λ engine. k_of engine ≡ k) }
        ensures spare { IfOk result
            (λ _. spare_of pool.new + need_of (S.index source.now) query.terms ≡ spare_of pool.old) }
        ensures memory { need_of (S.index source.now) query.terms ≤ spare_of pool.old
            → IfErr result (λ stop. stop ≡ OpenStop.NoMemory) }
        ensures refused { IfErr result (λ _. pool.new ≡ pool.old) }
    {
        match until {
            Until::Budget => match Session::open(alloc, source, pool, query, k) {
                Ok(session) => Ok(Engine::Plain(session)),
                Err(stop) => Err(stop),
            },
            Until::Final => match SharpSearch::open(alloc, source, pool, query, k) {
                Ok(search) => Ok(Engine::Sharp(search)),
                Err(stop) => Err(stop),
            },
        }
    }

    /// Adds the budget to what was granted, scores what it pays for now, and counts the postings as steps. The report
    /// is of all grants so far.
    pub fn grant<S: Source, L: Ledger>(
        &mut self,
        source: &S,
        pool: &mut FramePool,
        budget: Budget,
        steps: &mut Steps<L>,
    ) -> Report
        requires stands { EngineStands self.old (S.index source.now) pool.old }
        ensures stands { EngineStands self.new (S.index source.now) pool.new }
        ensures granted { granted_of self.new ≡ granted_with (granted_of self.old) budget }
        ensures same { IsEngineOf self.old self.new }
        ensures report { result ≡ report_of self.new }
        ensures steps { steps.new + (report_of self.old).postings ≡ steps.old + result.postings }
        ensures leaves { LeavesPool pool.old pool.new (chain_of self.old) }
    {
        match self {
            Engine::Plain(session) => session.grant(source, pool, budget, steps),
            Engine::Sharp(search) => search.grant(source, pool, budget, steps),
        }
    }

    /// The first k documents of what is scored, by falling score, then rising number.
    pub fn answer(&self) -> &[Hit]
        ensures { (index : IndexData) (pool : PoolView) → EngineStands self.now index pool
            → result.now ≡ answer_over index self.now }
    {
        match self {
            Engine::Plain(session) => session.answer(),
            Engine::Sharp(search) => search.answer(),
        }
    }

    pub fn query(&self) -> &Query
        ensures { result.now ≡ query_of self.now }
    {
        match self {
            Engine::Plain(session) => session.query(),
            Engine::Sharp(search) => search.query(),
        }
    }

    /// Frees the frames, and ends the promise.
    pub fn close(self, pool: &mut FramePool)
        requires { IsInUse pool.old (chain_of self) }
        ensures chains { pool.new.chains ≡ slice_set pool.old.chains (chain_of self) None }
        ensures spare { spare_of pool.new ≡ spare_of pool.old + (chain_view pool.old (chain_of self)).promise }
    {
        match self {
            Engine::Plain(session) => session.close(pool),
            Engine::Sharp(search) => search.close(pool),
        }
    }
}
