// Pages in a pool, by a collection of 300 documents in two pages.

ghost use Rattle.std.specs.Prelude.{◌≡◌, ◌≢◌, ◌+◌, ◌/◌, ◌<◌, ◌≤◌, [], None, length, slice_index, slice_index_or};
ghost use Rattle.frame_pool.specs.Pool.{IsInUse};
ghost use Rattle.frame_pool.specs.ChainView.{LeavesOthers, LeavesPool, chain_view};
ghost use Rattle.accumulator_pages.specs.Pages.{ArePagesOf, HasRoom, Stands, docs_of, own_chain, own_view, pages_scores};

use accumulator_pages::Pages;
use accumulator_pages::laws::calls_on_other_chains_leave_pages;
use frame_pool::{Chain, FramePool};
use jass_base::NoMemory;
use std::alloc::Global;
use std::process::Abort;

/// Pages for 300 documents in a chain without frames.
fn pages_in(rt: &impl Abort, alloc: Global, pool: &mut FramePool, chain: Chain) -> Pages
    requires own { IsInUse pool.old chain }
    requires empty { (chain_view pool.old chain).frames ≡ [] }
    ensures stands { Stands result pool.old }
    ensures docs { docs_of result ≡ 300 }
    ensures chain { own_chain result ≡ chain }
    ensures stays { pool.new ≡ pool.old }
{
    match Pages::new(alloc, 300, pool, chain) {
        Ok(pages) => pages,
        Err((chain, NoMemory)) => {
            pool.give_back(chain);
            panic!(rt; "no memory")
        }
    }
}

/// The same, with a promise of two frames.
fn opened(rt: &impl Abort, alloc: Global, pool: &mut FramePool) -> Pages
    ensures stands { Stands result pool.new }
    ensures docs { docs_of result ≡ 300 }
    ensures view { own_view result pool.new ≡ record { promise = 2; frames = [] } }
    ensures unused { slice_index_or pool.old.chains (own_chain result) None ≡ None }
    ensures others { LeavesOthers pool.old pool.new (own_chain result) }
{
    let Ok(chain) = pool.promise(2) else {
        panic!(rt; "refused")
    };
    pages_in(rt, alloc, pool, chain)
}

/// Adds to the score of a document that has none, which is then the weight.
fn add_first(rt: &impl Abort, pages: &mut Pages, pool: &mut FramePool, doc: u32, w: u32)
    requires stands { Stands pages.old pool.old }
    requires inside { doc < docs_of pages.old }
    requires weight { 1 ≤ w }
    requires frame { HasRoom (own_view pages.old pool.old) (doc / 256) }
    ensures stands { Stands pages.new pool.new }
    ensures touched { 0 < slice_index (pages_scores pages.new pool.new) doc }
    ensures same { ArePagesOf pages.old pages.new }
    ensures frames { length (own_view pages.new pool.new).frames ≤ length (own_view pages.old pool.old).frames + 1 }
    ensures leaves { LeavesPool pool.old pool.new (own_chain pages.old) }
{
    assert!(rt; pages.get(pool, doc) == 0);
    assert!(rt; pages.add(pool, doc, w) == w);
}

/// Whether the pages have so many frames, and this is their least document without a score.
fn has_frames(pages: &Pages, pool: &FramePool, frames: u32, least_untouched: u32) -> bool
    requires { Stands pages.now pool.now }
{
    pages.frames() == frames && pages.least_untouched(pool) == Some(least_untouched)
}

/// Whether each document has the score beside it.
fn has_scores(pages: &Pages, pool: &FramePool, rows: &[(u32, u32)]) -> bool
    requires stands { Stands pages.now pool.now }
    requires docs { docs_of pages.now ≡ 300 }
{
    for (doc, score) in rows {
        if *doc >= 300 || pages.get(pool, *doc) != *score {
            return false;
        }
    }
    true
}

/// Adds to document 0, whose page takes a frame, and sets its heap place.
fn fill_first_page(rt: &impl Abort, pages: &mut Pages, pool: &mut FramePool)
    requires stands { Stands pages.old pool.old }
    requires docs { docs_of pages.old ≡ 300 }
    requires view { own_view pages.old pool.old ≡ record { promise = 2; frames = [] } }
    ensures stands { Stands pages.new pool.new }
    ensures docs { docs_of pages.new ≡ 300 }
    ensures promise { (own_view pages.new pool.new).promise ≡ 2 }
    ensures frames { length (own_view pages.new pool.new).frames ≤ 1 }
{
    assert!(rt; has_frames(pages, pool, 0, 0));
    add_first(rt, pages, pool, 0, 2);
    assert!(rt; has_frames(pages, pool, 1, 1));
    set_place(rt, pages, pool);
}

/// Sets the heap place of document 0.
fn set_place(rt: &impl Abort, pages: &mut Pages, pool: &mut FramePool)
    requires stands { Stands pages.old pool.old }
    requires docs { docs_of pages.old ≡ 300 }
    requires touched { 0 < slice_index (pages_scores pages.old pool.old) 0 }
    ensures stands { Stands pages.new pool.new }
    ensures same { ArePagesOf pages.old pages.new }
    ensures frames { length (own_view pages.new pool.new).frames ≡ length (own_view pages.old pool.old).frames }
    ensures leaves { LeavesPool pool.old pool.new (own_chain pages.old) }
{
    pages.set_heap_place(pool, 0, 7);
    assert!(rt; pages.heap_place(pool, 0) == 7);
}

/// Adds to document 299, whose page takes a frame.
fn fill_second_page(rt: &impl Abort, pages: &mut Pages, pool: &mut FramePool)
    requires stands { Stands pages.old pool.old }
    requires docs { docs_of pages.old ≡ 300 }
    requires promise { (own_view pages.old pool.old).promise ≡ 2 }
    requires frames { length (own_view pages.old pool.old).frames ≤ 1 }
    ensures stands { Stands pages.new pool.new }
{
    add_first(rt, pages, pool, 299, 1);
    assert!(rt; pages.frames() == 2 && pages.touched(pool) == 2);
    assert!(rt; has_scores(pages, pool, &[(0, 2), (299, 1), (298, 0)]));
}

/// A session that fills both pages, and gives its frames back.
fn first_session(rt: &impl Abort, alloc: Global, pool: &mut FramePool) {
    let mut x = opened(rt, alloc, pool);
    fill_first_page(rt, &mut x, pool);
    fill_second_page(rt, &mut x, pool);
    pool.give_back(x.into_chain());
}

/// A session that takes the same frames again: all that they hold is 0.
fn second_session(rt: &impl Abort, alloc: Global, pool: &mut FramePool) {
    let mut y = opened(rt, alloc, pool);
    add_first(rt, &mut y, pool, 0, 3);
    assert!(rt; y.heap_place(pool, 0) == 0);
    add_first(rt, &mut y, pool, 298, 1);
    assert!(rt; has_scores(&y, pool, &[(0, 3), (298, 1), (299, 0)]));
    pool.give_back(y.into_chain());
}

#[test]
fn frames_are_taken_page_by_page(rt: HostRuntime) {
    let Ok(mut pool) = FramePool::new(rt.alloc(), 2, 1) else {
        panic!(rt; "no memory")
    };
    first_session(&rt, rt.alloc(), &mut pool);
    assert!(rt; pool.spare() == 2);
    second_session(&rt, rt.alloc(), &mut pool);
}

/// Pages beside others, which still stand and see what they saw.
fn opened_beside(rt: &impl Abort, alloc: Global, pool: &mut FramePool, other: &Pages) -> Pages
    requires { Stands other.now pool.old }
    ensures stands { Stands result pool.new }
    ensures docs { docs_of result ≡ 300 }
    ensures view { own_view result pool.new ≡ record { promise = 2; frames = [] } }
    ensures apart { own_chain other.now ≢ own_chain result }
    ensures other_stands { Stands other.now pool.new }
    ensures other_view { own_view other.now pool.new ≡ own_view other.now pool.old }
{
    calls_on_other_chains_leave_pages();
    opened(rt, alloc, pool)
}

/// Adds to the score of a document that has none, beside other pages.
fn add_beside(
    rt: &impl Abort,
    other: &Pages,
    pages: &mut Pages,
    pool: &mut FramePool,
    doc: u32,
    w: u32,
)
    requires other_stands { Stands other.now pool.old }
    requires apart { own_chain other.now ≢ own_chain pages.old }
    requires stands { Stands pages.old pool.old }
    requires inside { doc < docs_of pages.old }
    requires weight { 1 ≤ w }
    requires frame { HasRoom (own_view pages.old pool.old) (doc / 256) }
    ensures other_stands { Stands other.now pool.new }
    ensures other_view { own_view other.now pool.new ≡ own_view other.now pool.old }
    ensures stands { Stands pages.new pool.new }
    ensures same { ArePagesOf pages.old pages.new }
    ensures frames { length (own_view pages.new pool.new).frames ≤ length (own_view pages.old pool.old).frames + 1 }
    ensures promise { (own_view pages.new pool.new).promise ≡ (own_view pages.old pool.old).promise }
{
    calls_on_other_chains_leave_pages();
    add_first(rt, pages, pool, doc, w);
}

/// Both sessions add to a document of their first page, and then to one of their second page.
fn take_turns(rt: &impl Abort, x: &mut Pages, y: &mut Pages, pool: &mut FramePool)
    requires x_stands { Stands x.old pool.old }
    requires y_stands { Stands y.old pool.old }
    requires apart { own_chain x.old ≢ own_chain y.old }
    requires x_docs { docs_of x.old ≡ 300 }
    requires y_docs { docs_of y.old ≡ 300 }
    requires x_view { own_view x.old pool.old ≡ record { promise = 2; frames = [] } }
    requires y_view { own_view y.old pool.old ≡ record { promise = 2; frames = [] } }
    ensures x_stands { Stands x.new pool.new }
    ensures y_stands { Stands y.new pool.new }
    ensures apart { own_chain x.new ≢ own_chain y.new }
    ensures x_docs { docs_of x.new ≡ 300 }
    ensures y_docs { docs_of y.new ≡ 300 }
{
    add_beside(rt, y, x, pool, 0, 2);
    add_beside(rt, x, y, pool, 1, 3);
    add_beside(rt, y, x, pool, 299, 1);
    add_beside(rt, x, y, pool, 298, 1);
}

#[test]
fn two_sessions_take_turns(rt: HostRuntime) {
    let Ok(mut pool) = FramePool::new(rt.alloc(), 4, 2) else {
        panic!(rt; "no memory")
    };
    let mut x = opened(&rt, rt.alloc(), &mut pool);
    let mut y = opened_beside(&rt, rt.alloc(), &mut pool, &x);
    take_turns(&rt, &mut x, &mut y, &mut pool);
    assert!(rt; has_scores(&x, &pool, &[(0, 2), (1, 0), (299, 1)]));
    assert!(rt; has_scores(&y, &pool, &[(0, 0), (1, 3), (298, 1)]));
    pool.give_back(x.into_chain());
    assert!(rt; pool.spare() == 2);
    pool.give_back(y.into_chain());
}
