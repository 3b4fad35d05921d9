ghost use Rattle.std.specs.Prelude.{replicate, ◌≡◌, ◌≢◌, ℕ, List, ◌+◌, ◌<◌, ◌≤◌, [], All, AllPairs, IfOk, IfSome, length};
ghost use Rattle.accumulator_pages.specs.Pages.{Stands, pages_places, pages_scores};
ghost use Rattle.ranking_model.specs.Scores.{first_ranked, runner_up};
ghost use Rattle.topk_heap.specs.Hits.{hit_at};
ghost use Rattle.topk_heap.specs.Noting.{just_behind};
ghost use Rattle.topk_heap.specs.Places.{KeepsScores};
ghost use Rattle.topk_heap.specs.Standing.{AreFirst, HaveFirst, HoldsFirst, IsPlaced, IsTouched, TopStands};
ghost use Rattle.topk_heap.specs.Standing.{with_heap, without_heap};
ghost use Rattle.jass_base.specs.declared.limits.TheConstants.{MOST_HITS};

use crate::candidates::Candidates;
use crate::hits::Hits;
use crate::settling::{add_noted, clear_places, gather, rescore, set_places};
use accumulator_pages::{Pages, Reached};
use frame_pool::FramePool;
use jass_base::{Hit, NoMemory};
use std::alloc::Global;
use std::marker::Model;

/// The first k + 1 documents of a session by falling score, then rising number, each with its score. The heap is
/// these from the last to the first; once it is settled, a document's heap place in the pages is its place there plus
/// 1. A session that keeps all who may be among the first as notes needs no heap places: `rank` makes the heap of the
/// notes.
#[derive(Drop)]
pub struct Top {
    k: u32,
    hits: Hits,
    candidates: Candidates,
}

impl Model for Top {
    ghost use Rattle.topk_heap.specs.Standing.{TopView, top_view};
    ghost use Rattle.topk_heap.specs.Private.Standing.{IsTop};

    ghost Value = { TopView };

    ghost view = { λ t. top_view t.k t.hits };

    ghost invariant = { λ t. IsTop t.k t.hits t.candidates };
}

impl Top {
    /// An empty heap for the first k documents and the one after them, 1 to 100,000, with room for so many raised
    /// documents at a time, and at least for one. No other call takes memory.
    pub fn new(alloc: Global, k: u32, room: usize) -> Result<Top, NoMemory>
        requires some { 1 ≤ k }
        requires few { k ≤ MOST_HITS }
        requires room { room ≤ 4294967296 }
        ensures k { IfOk result (λ top. top.k ≡ k) }
        ensures empty { IfOk result (λ top. top.hits ≡ []) }
        ensures stands { IfOk result (λ top. (docs : ℕ) → TopStands top (replicate docs 0) (replicate docs 0)) }
        ensures room { IfOk result (λ top. room ≤ top.room) }
    {
        let first = k as usize + 1;
        let hits = Hits::new(alloc, first + room.max(1), first + first / 3)?;
        let candidates = Candidates::new(alloc, first + room.max(1))?;
        Ok(Top {
            k,
            hits,
            candidates,
        })
    }

    /// Takes in what some documents have gained. The first k + 1 documents are in the heap already, or among those
    /// raised.
    pub fn settle(&mut self, pages: &mut Pages, pool: &mut FramePool, raised: &[u32])
        requires pages { Stands pages.old pool.old }
        requires placed { IsPlaced self.old (pages_scores pages.old pool.old) (pages_places pages.old pool.old) }
        requires touched { All (IsTouched (pages_scores pages.old pool.old)) raised.now }
        requires once { AllPairs (λ a b. a ≢ b) raised.now }
        requires first { HaveFirst (pages_scores pages.old pool.old) (self.old.k + 1) (with_heap self.old raised.now) }
        requires room { length raised.now ≤ self.old.room }
        ensures stands { TopStands self.new (pages_scores pages.new pool.new) (pages_places pages.new pool.new) }
        ensures keeps { KeepsScores pages.old pages.new pool.old pool.new }
        ensures k { self.new.k ≡ self.old.k }
        ensures room { self.new.room ≡ self.old.room }
    {
        let standing = self.hits.len();
        rescore(&mut self.hits, pages, pool);
        gather(&mut self.hits, pages, pool, raised, standing == 0);
        clear_places(pages, pool, &self.hits.as_slice()[..standing]);
        self.hits.keep_first(self.k as usize + 1);
        set_places(pages, pool, self.hits.as_slice());
    }

    /// Makes the heap anew of noted documents, for a session none of whose documents has a heap place; none gets one.
    /// The first k + 1 documents are among those noted.
    pub fn rank(&mut self, pages: &Pages, pool: &FramePool, noted: &[u32])
        requires pages { Stands pages.now pool.now }
        requires vacant { IsPlaced (without_heap self.old)
            (pages_scores pages.now pool.now) (pages_places pages.now pool.now) }
        requires touched { All (IsTouched (pages_scores pages.now pool.now)) noted.now }
        requires once { AllPairs (λ a b. a ≢ b) noted.now }
        requires first { HaveFirst (pages_scores pages.now pool.now) (self.old.k + 1) noted.now }
        requires room { length noted.now ≤ self.old.room }
        ensures first { HoldsFirst self.new (pages_scores pages.now pool.now) }
        ensures k { self.new.k ≡ self.old.k }
        ensures room { self.new.room ≡ self.old.room }
    {
        let first = self.k as usize + 1;
        self.hits.clear();
        gather(&mut self.hits, pages, pool, noted, true);
        self.hits.keep_first(first);
    }

    /// The first k documents.
    pub fn ranked(&self) -> &[Hit]
        ensures { (scores : List ℕ) → HoldsFirst self.now scores → result.now ≡ first_ranked scores self.now.k }
    {
        let hits = self.hits.as_slice();
        &hits[..hits.len().min(self.k as usize)]
    }

    /// The document after the first k, and `None` exactly where at most k documents have a score. It is the last of a
    /// full heap.
    pub fn runner_up(&self) -> Option<Hit>
        ensures next { (scores : List ℕ) → HoldsFirst self.now scores → result ≡ runner_up scores self.now.k }
        ensures full { IfSome result (λ hit. length self.now.hits ≡ self.now.k + 1) }
        ensures last { IfSome result (λ hit. hit ≡ hit_at self.now.hits 0) }
    {
        self.hits.as_slice().get(self.k as usize).copied()
    }

    /// Keeps of the noted documents the first k + 1 by the scores that they have now, in no stated order, and answers
    /// the document after the first k. The first k + 1 documents are among those noted. What is seen of the heap stays.
    pub fn cut(&mut self, pages: &Pages, pool: &FramePool, noted: &mut Reached) -> Option<Hit>
        requires pages { Stands pages.now pool.now }
        requires touched { All (IsTouched (pages_scores pages.now pool.now)) noted.old.docs }
        requires once { AllPairs (λ a b. a ≢ b) noted.old.docs }
        requires first { HaveFirst (pages_scores pages.now pool.now) (self.old.k + 1) noted.old.docs }
        requires room { noted.old.room ≤ self.old.room }
        ensures next { result ≡ runner_up (pages_scores pages.now pool.now) self.old.k }
        ensures first { AreFirst (pages_scores pages.now pool.now) (self.old.k + 1) noted.new.docs }
        ensures few { length noted.new.docs ≤ self.old.k + 1 }
        ensures notes { noted.new.room ≡ noted.old.room }
        ensures same { self.new ≡ self.old }
    {
        self.candidates.clear();
        add_noted(&mut self.candidates, pages, pool, noted.as_slice());
        self.candidates.select(self.k as usize, noted)
    }
}

/// The hit that a document has to pass to be at a hit or ahead of it, out of so many documents; where there is none
/// document 0 with score 0, which any score passes.
pub fn just_behind(hit: Option<Hit>, docs: u32) -> Hit
    requires { IfSome hit (λ hit. hit.doc < docs) }
    ensures { result ≡ just_behind hit }
{
    match hit {
        Some(hit) => Hit {
            doc: hit.doc + 1,
            score: hit.score,
        },
        None => Hit { doc: 0, score: 0 },
    }
}
