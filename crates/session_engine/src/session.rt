ghost use Rattle.std.specs.Prelude.{◌≡◌, ◌+◌, ◌<◌, ◌≤◌, length, slice_set, None, IfOk, IfErr, OnErr, Err};
ghost use Rattle.ranking_model.specs.Plan.{granted_with};
ghost use Rattle.index_model.specs.Index.{IndexData};
ghost use Rattle.frame_pool.specs.Pool.{PoolView, IsInUse, Promises, spare_of};
ghost use Rattle.frame_pool.specs.ChainView.{LeavesOthers, LeavesPool, chain_view};
ghost use Rattle.session_engine.specs.Plans.{AreKnown, HasFreeNumber, need_of};
ghost use Rattle.session_engine.specs.Standing.{IsPlanned, IsSessionOf, KeepsRoom, SessionStands, answer_over};
ghost use Rattle.session_engine.specs.Standing.{chain_of, granted_of, k_of, query_of, report_of};
ghost use Rattle.jass_base.specs.declared.limits.TheConstants.{MOST_HITS};

use crate::entries::score_entries;
use crate::frames_needed::need;
use crate::heads::query_heads;
use crate::laws::{a_session_plan_names_its_segments, nothing_is_scored_at_first};
use crate::marks::NoMarks;
use crate::reporting::report_at;
use crate::stop::OpenStop;
use frame_pool::FramePool;
use frame_pool::laws::calls_on_one_chain;
use index_file::Source;
use jass_base::{Budget, Hit, NoMemory, Query, Report, Steps};
use ranking_model::granted_with;
use ranking_model::laws::the_prefix_is_the_longest;
use ranking_model::prefix_laws::a_prefix_is_resumed;
use segment_plan::Plan;
use segment_plan::laws::prefixes_are_those_of_the_plan;
use session_scores::Scores;
use std::alloc::Global;
use std::marker::Model;
use std::sync::ledger::Ledger;

/// A query that is answered in parts, over one source of segments and one pool. It ends only by `close`.
///
/// Each call that takes a source or a pool wants those of `open`, the pool with this session's chain as the last call
/// on this session left it. Other chains may have changed.
pub struct Session {
    scores: Scores,
    plan: Plan,
    query: Query,
    k: u32,
    granted: u64,
    scored: u32,
    report: Report,
}

impl Model for Session {
    ghost use Rattle.session_engine.specs.View.{SessionView};

    ghost Value = { SessionView };

    ghost view = { λ s. record {
      scores = s.scores;
      plan = s.plan;
      query = s.query;
      k = s.k;
      granted = s.granted;
      scored = s.scored;
      report = s.report;
    } };
}

impl Session {
    /// A session to which nothing is granted. k is 1 to 100,000. No other call takes memory.
    ///
    /// `PoolFull` comes exactly where the query needs more frames than are spare, and else only `NoMemory`.
    pub fn open<S: Source>(
        alloc: Global,
        source: &S,
        pool: &mut FramePool,
        query: Query,
        k: u32,
    ) -> Result<Session, OpenStop>
        requires known { AreKnown (S.index source.now) query.terms }
        requires some { 1 ≤ k }
        requires few { k ≤ MOST_HITS }
        requires chain { HasFreeNumber pool.old }
        ensures stands { IfOk result (λ s. SessionStands s (S.index source.now) pool.new) }
        ensures granted { IfOk result (λ s. granted_of s ≡ 0) }
        ensures query { IfOk result (λ s. query_of s ≡ query) }
        ensures k { IfOk result (λ s. k_of s ≡ k) }
        ensures promised { IfOk result
            (λ s. Promises pool.old pool.new (chain_of s) (need_of (S.index source.now) query.terms)) }
        ensures others { IfOk result (λ s. LeavesOthers pool.old pool.new (chain_of s)) }
        ensures spare { IfOk result
            (λ _. spare_of pool.new + need_of (S.index source.now) query.terms ≡ spare_of pool.old) }
        ensures full { spare_of pool.old < need_of (S.index source.now) query.terms
            → result ≡ Err (OpenStop.PoolFull (need_of (S.index source.now) query.terms) (spare_of pool.old)) }
        ensures memory { need_of (S.index source.now) query.terms ≤ spare_of pool.old
            → IfErr result (λ stop. stop ≡ OpenStop.NoMemory) }
        ensures refused { OnErr result (pool.new ≡ pool.old) }
    {
        a_session_plan_names_its_segments();
        nothing_is_scored_at_first();
        source.is_searchable();
        let need = need(source, &query);
        let free = pool.spare();
        if need > free {
            return Err(OpenStop::PoolFull { need, free });
        }
        let Ok(plan) = plan_of(alloc, source, &query) else {
            return Err(OpenStop::NoMemory);
        };
        let Ok(chain) = pool.promise(need) else {
            return Err(OpenStop::NoMemory);
        };
        match Scores::new(alloc, source.docs(), k, pool, chain) {
            Ok(scores) => {
                let report = report_at(&scores, pool, &plan, k, 0, 0);
                Ok(Session {
                    scores,
                    plan,
                    query,
                    k,
                    granted: 0,
                    scored: 0,
                    report,
                })
            }
            Err((chain, NoMemory)) => {
                pool.give_back(chain);
                Err(OpenStop::NoMemory)
            }
        }
    }

    /// Adds the budget to what was granted, scores the segments that it pays for now, and counts their postings as
    /// steps. The report is of all grants so far. Where no further segment is paid for, it is the last one again.
    pub fn grant<S: Source, L: Ledger>(
        &mut self,
        source: &S,
        pool: &mut FramePool,
        budget: Budget,
        steps: &mut Steps<L>,
    ) -> Report
        requires stands { SessionStands self.old (S.index source.now) pool.old }
        ensures stands { SessionStands self.new (S.index source.now) pool.new }
        ensures granted { granted_of self.new ≡ granted_with (granted_of self.old) budget }
        ensures same { IsSessionOf self.old self.new }
        ensures room { KeepsRoom self.old self.new }
        ensures report { result ≡ report_of self.new }
        ensures more { (report_of self.old).postings ≤ result.postings }
        ensures steps { steps.new + (report_of self.old).postings ≡ steps.old + result.postings }
        ensures leaves { LeavesPool pool.old pool.new (chain_of self.old) }
    {
        the_prefix_is_the_longest();
        a_prefix_is_resumed();
        prefixes_are_those_of_the_plan();
        a_session_plan_names_its_segments();
        calls_on_one_chain();
        source.is_searchable();
        self.granted = granted_with(self.granted, budget);
        let before = self.report.postings;
        let further = self.plan.within(self.scored, self.granted - before);
        // The scores are settled and have their report, so that nothing is left to do.
        if further == 0 {
            return self.report;
        }
        let to = self.scored + further;
        let query = &self.query;
        let terms = query.terms.as_slice();
        let more = score_entries(
            &mut self.scores,
            source,
            pool,
            terms,
            &self.plan,
            self.scored,
            to,
            &mut NoMarks,
            steps,
        );
        self.scores.settle(pool);
        self.scored = to;
        let report = report_at(&self.scores, pool, &self.plan, self.k, to, before + more);
        self.report = report;
        report
    }

    /// The first k documents of what is scored, by falling score, then rising number.
    pub fn answer(&self) -> &[Hit]
        ensures { (index : IndexData) (pool : PoolView) → SessionStands self.now index pool
            → result.now ≡ answer_over index self.now }
    {
        self.scores.hits()
    }

    /// The report of the last grant, and of none before the first.
    pub fn report(&self) -> Report
        ensures { result ≡ report_of self.now }
    {
        self.report
    }

    pub fn query(&self) -> &Query
        ensures { result.now ≡ query_of self.now }
    {
        &self.query
    }

    /// How many frames the session's chain has.
    pub fn frames(&self) -> u32
        ensures { (index : IndexData) (pool : PoolView) → SessionStands self.now index pool
            → result ≡ length (chain_view pool (chain_of self.now)).frames }
    {
        self.scores.frames()
    }

    /// Frees the session's frames, and ends its promise.
    pub fn close(self, pool: &mut FramePool)
        requires { IsInUse pool.old (chain_of self) }
        ensures frames { pool.new.frames ≡ pool.old.frames }
        ensures chains { pool.new.chains ≡ slice_set pool.old.chains (chain_of self) None }
        ensures others { LeavesOthers pool.old pool.new (chain_of self) }
        ensures spare { spare_of pool.new ≡ spare_of pool.old + (chain_view pool.old (chain_of self)).promise }
    {
        let Session {
            scores,
            plan: _,
            query: _,
            k: _,
            granted: _,
            scored: _,
            report: _,
        } = self;
        pool.give_back(scores.into_chain());
    }
}

/// The plan of a query whose terms are the index's.
pub fn plan_of<S: Source>(alloc: Global, source: &S, query: &Query) -> Result<Plan, NoMemory>
    requires { AreKnown (S.index source.now) query.now.terms }
    ensures { IfOk result (λ plan. IsPlanned (S.index source.now) query.now.terms plan) }
{
    a_session_plan_names_its_segments();
    source.is_searchable();
    let heads = query_heads(alloc, source, query.terms.as_slice())?;
    Plan::new(alloc, query, heads.as_slice())
}
