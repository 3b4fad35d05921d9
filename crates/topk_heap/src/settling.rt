//! The steps of settling and ranking.

ghost use Rattle.std.specs.Prelude.{◌≡◌, ◌==◌, ◌+◌, ◌<◌, ◌≤◌, ◌++◌, All, IsTrue, length, map, slice_index};
ghost use Rattle.accumulator_pages.specs.Pages.{Stands, docs_of, pages_places, pages_scores};
ghost use Rattle.topk_heap.specs.Places.{KeepsScores};
ghost use Rattle.topk_heap.specs.Private.Settling.{IsVacant, hit_of, newcomers, rescored, with_places, without_places};

use crate::candidates::Candidates;
use crate::hits::Hits;
use accumulator_pages::Pages;
use frame_pool::FramePool;
use frame_pool::laws::calls_on_one_chain;
use jass_base::Hit;

/// Gives each hit the score that its document has now.
pub fn rescore(hits: &mut Hits, pages: &Pages, pool: &FramePool)
    requires stands { Stands pages.now pool.now }
    requires inside { All (λ hit. hit.doc < docs_of pages.now) hits.old.hits }
    ensures hits { hits.new.hits ≡ map (rescored (pages_scores pages.now pool.now)) hits.old.hits }
    ensures room { hits.new.room ≡ hits.old.room }
{
    for index in 0..hits.len() {
        let doc = hits.as_slice()[index].doc;
        let score = pages.get(pool, doc);
        hits.set_score(index, score);
    }
}

/// Puts the raised documents that have no heap place behind the hits. `vacant` tells that no document has one, so that
/// none is looked up.
pub fn gather(hits: &mut Hits, pages: &Pages, pool: &FramePool, raised: &[u32], vacant: bool)
    requires stands { Stands pages.now pool.now }
    requires inside { All (λ doc. doc < docs_of pages.now) raised.now }
    requires touched { All (λ doc. 0 < slice_index (pages_scores pages.now pool.now) doc) raised.now }
    requires vacant { IsTrue vacant → IsVacant (pages_places pages.now pool.now) }
    requires room { length hits.old.hits + length raised.now ≤ hits.old.room }
    ensures hits { hits.new.hits ≡ hits.old.hits
        ++ newcomers (pages_scores pages.now pool.now) (pages_places pages.now pool.now) raised.now }
    ensures room { hits.new.room ≡ hits.old.room }
{
    for doc in raised {
        if vacant || is_outside(pages, pool, *doc) {
            let score = pages.get(pool, *doc);
            hits.push(Hit { doc: *doc, score });
        }
    }
}

/// Whether a document has no heap place.
fn is_outside(pages: &Pages, pool: &FramePool, doc: u32) -> bool
    requires stands { Stands pages.now pool.now }
    requires inside { doc < docs_of pages.now }
    requires touched { 0 < slice_index (pages_scores pages.now pool.now) doc }
    ensures { result ≡ (slice_index (pages_places pages.now pool.now) doc == 0) }
{
    pages.heap_place(pool, doc) == 0
}

/// Puts documents behind the candidates, each with the score that it has now.
pub fn add_noted(candidates: &mut Candidates, pages: &Pages, pool: &FramePool, noted: &[u32])
    requires stands { Stands pages.now pool.now }
    requires inside { All (λ doc. doc < docs_of pages.now) noted.now }
    requires room { length candidates.old.hits + length noted.now ≤ candidates.old.room }
    ensures hits { candidates.new.hits
        ≡ candidates.old.hits ++ map (hit_of (pages_scores pages.now pool.now)) noted.now }
    ensures room { candidates.new.room ≡ candidates.old.room }
{
    for doc in noted {
        let score = pages.get(pool, *doc);
        candidates.push(Hit { doc: *doc, score });
    }
}

/// Clears the heap places of some hits.
pub fn clear_places(pages: &mut Pages, pool: &mut FramePool, hits: &[Hit])
    requires stands { Stands pages.old pool.old }
    requires inside { All (λ hit. hit.doc < docs_of pages.old) hits.now }
    requires touched { All (λ hit. 0 < slice_index (pages_scores pages.old pool.old) hit.doc) hits.now }
    ensures places { pages_places pages.new pool.new ≡ without_places hits.now (pages_places pages.old pool.old) }
    ensures keeps { KeepsScores pages.old pages.new pool.old pool.new }
{
    calls_on_one_chain();
    for hit in hits {
        pages.set_heap_place(pool, hit.doc, 0);
    }
}

/// Sets the heap places of some hits: the last of them gets 1.
pub fn set_places(pages: &mut Pages, pool: &mut FramePool, hits: &[Hit])
    requires stands { Stands pages.old pool.old }
    requires few { length hits.now < 4294967296 }
    requires inside { All (λ hit. hit.doc < docs_of pages.old) hits.now }
    requires touched { All (λ hit. 0 < slice_index (pages_scores pages.old pool.old) hit.doc) hits.now }
    ensures places { pages_places pages.new pool.new ≡ with_places hits.now (pages_places pages.old pool.old) }
    ensures keeps { KeepsScores pages.old pages.new pool.old pool.new }
{
    calls_on_one_chain();
    let mut place = hits.len() as u32;
    for hit in hits {
        pages.set_heap_place(pool, hit.doc, place);
        place -= 1;
    }
}
