ghost use Rattle.std.specs.Prelude.{ℕ, ◌≡◌, ◌+◌, ◌<◌, ◌≤◌, length, IfOk};
ghost use Rattle.frame_pool.specs.ChainView.{LeavesPool};
ghost use Rattle.ranking_model.specs.Plan.{granted_with};
ghost use Rattle.ranking_model.specs.Search.{query_data};
ghost use Rattle.session_engine.specs.Standing.{IsSessionOf, SessionStands, answer_over};
ghost use Rattle.session_engine.specs.Standing.{chain_of, granted_of, k_of, query_of, report_of};
ghost use Rattle.trial_data.specs.Trials.{queries_from};
ghost use Rattle.jass_words.specs.Words.{texts};
ghost use Rattle.jass_top.specs.Answers.{words_query};
ghost use Rattle.jass_top.specs.SearchTexts.{queries_steps, query_steps};
ghost use Rattle.jass_top.specs.Private.SearchRuns.{IsReady, Stepped};
ghost use Rattle.jass_top.specs.TrialMeaning.{queries_over, trial_budgets};
ghost use Rattle.jass_top.specs.TrialSums.{no_sums, with_answer, with_queries, with_query};
ghost use Rattle.jass_base.specs.declared.limits.TheConstants.{MOST_TERM_WORDS};
ghost use Rattle.jass_top.specs.Private.SmallSums.{AreSmallSums, IsSmallSum};
ghost use Rattle.jass_words.specs.declared.word_limits.TheConstants.{MOST_QUERIES};

use crate::named_words::name_words;
use crate::trial_sums::{BudgetSum, TrialSums};
use frame_pool::FramePool;
use frame_pool::laws::calls_on_one_chain;
use index_file::{NamedSource, Source};
use jass_base::{Budget, NoMemory, Steps};
use ranking_model::laws::the_prefix_is_the_longest;
use session_engine::laws::{
    a_session_plan_is_small, a_standing_session_has_its_chain, one_entry_more_is_scored,
};
use session_engine::{OpenStop, Session};
use std::alloc::Global;
use std::sync::ledger::Ledger;
use trial_data::{Draws, draw_query};

/// How many hits are asked for.
const HITS: u32 = 10;

/// Draws so many queries of so many terms, answers each in a session of its own, and sums up what
/// was answered after each grant.
pub fn try_queries<S: NamedSource, L: Ledger>(
    alloc: Global,
    source: &S,
    draws: &mut Draws,
    terms: u32,
    queries: u32,
    steps: &mut Steps<L>,
) -> Result<TrialSums, NoMemory>
    requires terms { 0 < terms }
    requires queries { queries ≤ MOST_QUERIES }
    ensures sums { IfOk result (λ sums. sums ≡ with_queries (S.index source.now)
        (queries_over (S.index source.now) (queries_from terms queries draws.old)) no_sums) }
    ensures steps { Stepped steps.old steps.new (queries_steps (S.index source.now) trial_budgets
        (queries_over (S.index source.now) (queries_from terms queries draws.old))) result }
{
    source.is_searchable();
    let Ok(mut pool) = FramePool::new(alloc, Source::docs(source).div_ceil(256), 1) else {
        return Err(NoMemory);
    };
    let mut sums = TrialSums::new();
    'queries: for _ in 0..queries {
        let words = match draw_query(alloc, draws, terms) {
            Ok(words) => words,
            Err(refused) => {
                drop(pool);
                return Err(refused);
            }
        };
        let tried = try_query(alloc, words.as_slice(), source, &mut pool, sums, steps);
        drop(words);
        match tried {
            Ok(more) => sums = more,
            Err(refused) => {
                drop(pool);
                return Err(refused);
            }
        }
    }
    drop(pool);
    Ok(sums)
}

/// Answers a query of words in a session, which is closed on each exit.
fn try_query<S: NamedSource, L: Ledger>(
    alloc: Global,
    words: &[String],
    source: &S,
    pool: &mut FramePool,
    sums: TrialSums,
    steps: &mut Steps<L>,
) -> Result<TrialSums, NoMemory>
    requires few { length words.now ≤ MOST_TERM_WORDS }
    requires ready { IsReady (S.index source.now) pool.old }
    requires small { AreSmallSums MOST_QUERIES sums }
    ensures ready { IsReady (S.index source.now) pool.new }
    ensures sums { IfOk result (λ more. more
        ≡ with_query (S.index source.now) (words_query (S.index source.now) (texts words.now)) sums) }
    ensures small { (n : ℕ) → AreSmallSums n sums → IfOk result (AreSmallSums (n + 1)) }
    ensures steps { Stepped steps.old steps.new
        (query_steps (S.index source.now) trial_budgets (words_query (S.index source.now) (texts words.now))) result }
{
    a_standing_session_has_its_chain();
    let Ok(query) = name_words(alloc, words, source) else {
        return Err(NoMemory);
    };
    let mut session = match Session::open(alloc, source, pool, query, HITS) {
        Ok(session) => session,
        Err(OpenStop::NoMemory) => return Err(NoMemory),
        Err(OpenStop::PoolFull { .. }) => unreachable!("the pool has a frame for each page"),
    };
    let more = try_grants(&mut session, source, pool, sums, steps);
    session.close(pool);
    Ok(more)
}

/// Grants a session its three budgets, and adds what it answers after each.
fn try_grants<S: Source, L: Ledger>(
    session: &mut Session,
    source: &S,
    pool: &mut FramePool,
    sums: TrialSums,
    steps: &mut Steps<L>,
) -> TrialSums
    requires stands { SessionStands session.old (S.index source.now) pool.old }
    requires none { granted_of session.old ≡ 0 }
    requires hits { k_of session.old ≡ 10 }
    requires small { AreSmallSums MOST_QUERIES sums }
    ensures stands { SessionStands session.new (S.index source.now) pool.new }
    ensures same { IsSessionOf session.old session.new }
    ensures leaves { LeavesPool pool.old pool.new (chain_of session.old) }
    ensures sums { result ≡ with_query (S.index source.now) (query_data (query_of session.old)) sums }
    ensures small { (n : ℕ) → AreSmallSums n sums → AreSmallSums (n + 1) result }
    ensures steps { steps.new ≡ steps.old
        + query_steps (S.index source.now) trial_budgets (query_data (query_of session.old)) }
{
    the_prefix_is_the_longest();
    calls_on_one_chain();
    let first = try_grant(
        session,
        source,
        pool,
        Budget::Postings(1_000),
        sums.first,
        steps,
    );
    let second = try_grant(
        session,
        source,
        pool,
        Budget::Postings(9_000),
        sums.second,
        steps,
    );
    let last = try_grant(session, source, pool, Budget::All, sums.last, steps);
    TrialSums {
        first,
        second,
        last,
    }
}

/// Grants a session a budget, and adds what it then answers.
fn try_grant<S: Source, L: Ledger>(
    session: &mut Session,
    source: &S,
    pool: &mut FramePool,
    budget: Budget,
    sum: BudgetSum,
    steps: &mut Steps<L>,
) -> BudgetSum
    requires stands { SessionStands session.old (S.index source.now) pool.old }
    requires hits { k_of session.old ≡ 10 }
    requires small { IsSmallSum MOST_QUERIES sum }
    ensures stands { SessionStands session.new (S.index source.now) pool.new }
    ensures granted { granted_of session.new ≡ granted_with (granted_of session.old) budget }
    ensures same { IsSessionOf session.old session.new }
    ensures leaves { LeavesPool pool.old pool.new (chain_of session.old) }
    ensures steps { steps.new + (report_of session.old).postings ≡ steps.old + (report_of session.new).postings }
    ensures sum { result ≡ with_answer sum (report_of session.new) (answer_over (S.index source.now) session.new) }
    ensures small { (n : ℕ) → IsSmallSum n sum → IsSmallSum (n + 1) result }
{
    a_session_plan_is_small();
    one_entry_more_is_scored();
    source.is_searchable();
    let report = session.grant(source, pool, budget, steps);
    sum.with(report, session.answer())
}
