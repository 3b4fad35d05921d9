ghost use Rattle.std.specs.Prelude.{◌≡◌, ◌+◌, ◌<◌, ◌≤◌, length, slice_set, None, IfOk, IfErr, OnErr, Err};
ghost use Rattle.jass_base.specs.declared.limits.TheConstants.{MOST_HITS};
ghost use Rattle.frame_pool.specs.Pool.{PoolView, IsInUse, Promises, spare_of};
ghost use Rattle.frame_pool.specs.ChainView.{LeavesOthers, LeavesPool, chain_view};
ghost use Rattle.index_model.specs.Index.{IndexData};
ghost use Rattle.ranking_model.specs.Plan.{granted_with};
ghost use Rattle.session_engine.specs.Plans.{AreKnown, HasFreeNumber, need_of};
ghost use Rattle.sharp_search.specs.Standing.{IsSearchOf, SharpStands, answer_over, chain_of, granted_of, k_of, query_of, report_of};

use crate::front::{Front, advance_to, decide, report_after};
use crate::weights::{Tables, tables_of};
use frame_pool::FramePool;
use index_file::Source;
use jass_base::{Budget, Hit, NoMemory, Query, Report, Steps};
use ranking_model::granted_with;
use ranking_model::laws::the_prefix_is_the_longest;
use segment_plan::Plan;
use segment_plan::laws::prefixes_are_those_of_the_plan;
use session_engine::laws::{
    a_session_plan_is_small, a_session_plan_names_its_segments, nothing_is_scored_at_first,
    one_entry_more_is_scored,
};
use session_engine::{OpenStop, need};
use session_scores::Scores;
use sharp_bounds::mask_laws::each_posting_marks_its_document;
use std::alloc::Global;
use std::marker::Model;
use std::sync::ledger::Ledger;

/// A query that is answered in parts, over one source of segments and one pool, and no further than until its answer
/// can't change. It ends only by `close`.
///
/// Each call that takes a source or a pool wants those of `open`, the pool with this search's chain as the last call on
/// this search left it. Other chains may have changed.
pub struct SharpSearch {
    front: Front,
    plan: Plan,
    query: Query,
    k: u32,
    granted: u64,
    report: Report,
}

impl Model for SharpSearch {
    ghost use Rattle.sharp_search.specs.View.{SearchView};

    ghost Value = { SearchView };

    ghost view = { λ s. record {
      front = s.front;
      plan = s.plan;
      query = s.query;
      k = s.k;
      granted = s.granted;
      report = s.report;
    } };
}

impl SharpSearch {
    /// A search to which nothing is granted. k is 1 to 100,000, and the query has at most 64 terms. No other call takes
    /// memory.
    ///
    /// `PoolFull` comes exactly where the query needs more frames than are spare, and else only `NoMemory`.
    pub fn open<S: Source>(
        alloc: Global,
        source: &S,
        pool: &mut FramePool,
        query: Query,
        k: u32,
    ) -> Result<SharpSearch, OpenStop>
        requires known { AreKnown (S.index source.now) query.terms }
        requires masks { length query.terms ≤ 64 }
        requires some { 1 ≤ k }
        requires few { k ≤ MOST_HITS }
        requires chain { HasFreeNumber pool.old }
        ensures stands { IfOk result (λ s. SharpStands s (S.index source.now) pool.new) }
        ensures granted { IfOk result (λ s. granted_of s ≡ 0) }
        ensures query { IfOk result (λ s. query_of s ≡ query) }
        ensures k { IfOk result (λ s. k_of s ≡ k) }
        ensures promised { IfOk result
            (λ s. Promises pool.old pool.new (chain_of s) (need_of (S.index source.now) query.terms)) }
        ensures others { IfOk result (λ s. LeavesOthers pool.old pool.new (chain_of s)) }
        ensures spare { IfOk result
            (λ _. spare_of pool.new + need_of (S.index source.now) query.terms ≡ spare_of pool.old) }
        ensures full { spare_of pool.old < need_of (S.index source.now) query.terms
            → result ≡ Err (OpenStop.PoolFull (need_of (S.index source.now) query.terms) (spare_of pool.old)) }
        ensures memory { need_of (S.index source.now) query.terms ≤ spare_of pool.old
            → IfErr result (λ stop. stop ≡ OpenStop.NoMemory) }
        ensures refused { OnErr result (pool.new ≡ pool.old) }
    {
        a_session_plan_names_its_segments();
        nothing_is_scored_at_first();
        each_posting_marks_its_document();
        prefixes_are_those_of_the_plan();
        source.is_searchable();
        let need = need(source, &query);
        let free = pool.spare();
        if need > free {
            return Err(OpenStop::PoolFull { need, free });
        }
        let Ok(tables) = tables_of(alloc, source, &query) else {
            return Err(OpenStop::NoMemory);
        };
        let Ok(chain) = pool.promise(need) else {
            return Err(OpenStop::NoMemory);
        };
        match Scores::new(alloc, source.docs(), k, pool, chain) {
            Ok(scores) => {
                let Tables {
                    plan,
                    masks,
                    weights,
                } = tables;
                let settled = decide(
                    &scores,
                    pool,
                    &masks,
                    weights.as_slice(),
                    &plan,
                    source.docs(),
                    k,
                    0,
                );
                let front = Front {
                    scores,
                    masks,
                    weights,
                    scored: 0,
                    settled,
                };
                let report = report_after(&front, pool, &plan, k, 0);
                Ok(SharpSearch {
                    front,
                    plan,
                    query,
                    k,
                    granted: 0,
                    report,
                })
            }
            Err((chain, NoMemory)) => {
                pool.give_back(chain);
                Err(OpenStop::NoMemory)
            }
        }
    }

    /// Adds the budget to what was granted, scores the segments that it pays for now until the answer can't change, and
    /// counts their postings as steps. The report is of all grants so far.
    pub fn grant<S: Source, L: Ledger>(
        &mut self,
        source: &S,
        pool: &mut FramePool,
        budget: Budget,
        steps: &mut Steps<L>,
    ) -> Report
        requires stands { SharpStands self.old (S.index source.now) pool.old }
        ensures stands { SharpStands self.new (S.index source.now) pool.new }
        ensures granted { granted_of self.new ≡ granted_with (granted_of self.old) budget }
        ensures same { IsSearchOf self.old self.new }
        ensures report { result ≡ report_of self.new }
        ensures more { (report_of self.old).postings ≤ result.postings }
        ensures steps { steps.new + (report_of self.old).postings ≡ steps.old + result.postings }
        ensures leaves { LeavesPool pool.old pool.new (chain_of self.old) }
    {
        the_prefix_is_the_longest();
        prefixes_are_those_of_the_plan();
        a_session_plan_names_its_segments();
        a_session_plan_is_small();
        one_entry_more_is_scored();
        source.is_searchable();
        self.granted = granted_with(self.granted, budget);
        let to = self.plan.within(0, self.granted);
        let query = &self.query;
        let terms = query.terms.as_slice();
        let before = self.report.postings;
        let more = advance_to(
            &mut self.front,
            source,
            pool,
            terms,
            &self.plan,
            self.k,
            to,
            steps,
        );
        let report = report_after(&self.front, pool, &self.plan, self.k, before + more);
        self.report = report;
        report
    }

    /// The first k documents of what is scored, by falling score, then rising number.
    pub fn answer(&self) -> &[Hit]
        ensures { (index : IndexData) (pool : PoolView) → SharpStands self.now index pool
            → result.now ≡ answer_over index self.now }
    {
        self.front.scores.hits()
    }

    /// The report of the last grant, and of none before the first.
    pub fn report(&self) -> Report
        ensures { result ≡ report_of self.now }
    {
        self.report
    }

    pub fn query(&self) -> &Query
        ensures { result.now ≡ query_of self.now }
    {
        &self.query
    }

    /// Frees the search's frames, and ends its promise.
    pub fn close(self, pool: &mut FramePool)
        requires { IsInUse pool.old (chain_of self) }
        ensures frames { pool.new.frames ≡ pool.old.frames }
        ensures chains { pool.new.chains ≡ slice_set pool.old.chains (chain_of self) None }
        ensures others { LeavesOthers pool.old pool.new (chain_of self) }
        ensures spare { spare_of pool.new ≡ spare_of pool.old + (chain_view pool.old (chain_of self)).promise }
    {
        let SharpSearch {
            front,
            plan: _,
            query: _,
            k: _,
            granted: _,
            report: _,
        } = self;
        let Front {
            scores,
            masks: _,
            weights: _,
            scored: _,
            settled: _,
        } = front;
        pool.give_back(scores.into_chain());
    }
}
