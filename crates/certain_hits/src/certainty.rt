ghost use Rattle.std.specs.Prelude.{◌≡◌, ◌+◌, ◌<◌, ◌≤◌, ◌^◌, [], count_by, length, map, slice_index, take, IfOk};
ghost use Rattle.std.specs.Option.{option_map};
ghost use Rattle.std.specs.Ordering.{is_lt};
ghost use Rattle.jass_base.specs.declared.limits.TheConstants.{MOST_HITS};
ghost use Rattle.ranking_model.specs.Scores.{hits_from, rank_cmp};
ghost use Rattle.session_scores.specs.Scores.{IsSettled, ScoresStand, docs_of, k_of, scores_of};
ghost use Rattle.sharp_bounds.specs.Rule.{AreLimits};
ghost use Rattle.certain_hits.specs.Private.Room.{HasRoom};
ghost use Rattle.certain_hits.specs.Private.Foremost.{Holds};
ghost use Rattle.certain_hits.specs.Private.Reach.{hit_of};
ghost use Rattle.certain_hits.specs.Rule.{certain_count, reaches, stands_ahead};

use crate::foremost::{Foremost, Reach};
use crate::limits::Limits;
use frame_pool::FramePool;
use jass_base::{Hit, NoMemory};
use session_scores::Scores;
use std::alloc::Global;
use std::marker::Model;

/// Room to tell how many of the first k documents are certain.
///
/// Contracts see it as the number k.
#[derive(Drop)]
pub struct CertainRoom {
    k: u32,
    best: Foremost,
}

impl Model for CertainRoom {
    ghost use Rattle.std.specs.Prelude.{ℕ};
    ghost use Rattle.certain_hits.specs.Private.Room.{IsRoomFor};

    ghost Value = { ℕ };

    ghost view = { λ r. r.k };

    ghost invariant = { λ r. IsRoomFor r.k r.best };
}

impl CertainRoom {
    /// Room for the first k documents, 0 to 100,000, and the one after them: 48 bytes for each and 256 more. It errs
    /// only where there is no memory. No other call takes memory.
    pub fn new(alloc: Global, k: u32) -> Result<CertainRoom, NoMemory>
        requires { k ≤ MOST_HITS }
        ensures { IfOk result (λ room. room ≡ k) }
    {
        let best = Foremost::new(alloc, k as usize + 1)?;
        Ok(CertainRoom { k, best })
    }

    /// How many of the first k documents are certain, from 0 to k: no gains put them out, where no document gains more
    /// than its limit. Whoever has no score has the rest for its limit, and nobody has more. It looks at each document.
    pub fn count<L: Limits>(
        &mut self,
        scores: &Scores,
        pool: &FramePool,
        limits: &L,
        docs: u32,
        rest: u32,
    ) -> u32
        requires stand { ScoresStand scores.now pool.now }
        requires settled { IsSettled scores.now pool.now }
        requires docs { docs_of scores.now ≡ docs }
        requires asked { k_of scores.now ≡ self.old }
        requires limits { AreLimits rest (scores_of scores.now pool.now) (L.limits limits.now) }
        ensures count { result ≡ certain_count self.old (L.limits limits.now) (scores_of scores.now pool.now) }
        ensures k { self.new ≡ self.old }
    {
        self.best.clear();
        offer_all(&mut self.best, scores, pool, limits, docs, rest);
        let rival = self.best.last();
        count_ahead(scores.hits(), rival)
    }
}

/// Offers what each document may reach.
fn offer_all<L: Limits>(
    best: &mut Foremost,
    scores: &Scores,
    pool: &FramePool,
    limits: &L,
    docs: u32,
    rest: u32,
)
    requires room { HasRoom best.old }
    requires none { Holds best.old.count best.old.floor (map hit_of best.old.kept.items) [] }
    requires stand { ScoresStand scores.now pool.now }
    requires docs { docs_of scores.now ≡ docs }
    requires limits { AreLimits rest (scores_of scores.now pool.now) (L.limits limits.now) }
    ensures holds { Holds best.new.count best.new.floor (map hit_of best.new.kept.items)
        (hits_from 0 (reaches (L.limits limits.now) (scores_of scores.now pool.now))) }
    ensures count { best.new.count ≡ best.old.count }
    ensures room { HasRoom best.new }
{
    for doc in 0..docs {
        offer_next(best, scores, pool, limits, rest, doc);
    }
}

/// Offers what the next document may reach. Of those that can't reach the floor by the rest nobody asks what they may
/// still gain.
fn offer_next<L: Limits>(
    best: &mut Foremost,
    scores: &Scores,
    pool: &FramePool,
    limits: &L,
    rest: u32,
    doc: u32,
)
    requires room { HasRoom best.old }
    requires holds { Holds best.old.count best.old.floor (map hit_of best.old.kept.items)
        (hits_from 0 (take doc (reaches (L.limits limits.now) (scores_of scores.now pool.now)))) }
    requires stand { ScoresStand scores.now pool.now }
    requires inside { doc < docs_of scores.now }
    requires limits { AreLimits rest (scores_of scores.now pool.now) (L.limits limits.now) }
    ensures holds { Holds best.new.count best.new.floor (map hit_of best.new.kept.items)
        (hits_from 0 (take (doc + 1) (reaches (L.limits limits.now) (scores_of scores.now pool.now)))) }
    ensures count { best.new.count ≡ best.old.count }
    ensures room { HasRoom best.new }
{
    let score = scores.score(pool, doc);
    if u64::from(score) + u64::from(rest) <= best.floor {
        return;
    }
    let limit = limit_of(limits, score, rest, doc);
    best.offer(Reach {
        doc,
        reach: u64::from(score) + limit,
    });
}

/// What a document with this score may still gain.
fn limit_of<L: Limits>(limits: &L, score: u32, rest: u32, doc: u32) -> u64
    requires inside { doc < length (L.limits limits.now) }
    requires rest { score ≡ 0 → slice_index (L.limits limits.now) doc ≡ rest }
    ensures { result ≡ slice_index (L.limits limits.now) doc }
{
    if score == 0 {
        u64::from(rest)
    } else {
        limits.limit(doc)
    }
}

/// How many of these hits stand ahead of the rival.
fn count_ahead(hits: &[Hit], rival: Option<Reach>) -> u32
    requires { length hits.now < 2 ^ 32 }
    ensures { result ≡ count_by (stands_ahead (option_map hit_of rival)) hits.now }
{
    match rival {
        Some(rival) => count_before(hits, rival),
        None => hits.len() as u32,
    }
}

/// How many of these hits rank before what another document may reach.
fn count_before(hits: &[Hit], rival: Reach) -> u32
    requires { length hits.now < 2 ^ 32 }
    ensures { result ≡ count_by (λ hit. is_lt (rank_cmp hit (hit_of rival))) hits.now }
{
    let mut count = 0;
    for hit in hits {
        count += u32::from(ranks_before(*hit, rival));
    }
    count
}

/// Whether a hit ranks before what another document may reach.
fn ranks_before(hit: Hit, rival: Reach) -> bool
    ensures { result ≡ is_lt (rank_cmp hit (hit_of rival)) }
{
    let score = u64::from(hit.score);
    score > rival.reach || score == rival.reach && hit.doc < rival.doc
}
