// Heaps over pages in a pool: documents that rise one by one, and sessions side by side.
ghost use Rattle.std.specs.Prelude.{◌≡◌, ◌≢◌, ◌<◌, ◌≤◌, ◌^◌, [], All, None, length, replicate, slice_index_or};
ghost use Rattle.frame_pool.specs.ChainView.{LeavesOthers, LeavesPool};
ghost use Rattle.accumulator_pages.specs.Adding.{added};
ghost use Rattle.accumulator_pages.specs.Pages.{ArePagesOf, HasRoomFor, Stands, docs_of, own_chain, own_view, pages_places, pages_scores};
ghost use Rattle.topk_heap.specs.Standing.{TopStands};

use accumulator_pages::laws::{calls_on_other_chains_leave_pages, room_for_more_is_room_for_one};
use accumulator_pages::{Pages, Reached};
use frame_pool::FramePool;
use frame_pool::laws::calls_on_one_chain;
use jass_base::{Hit, NoMemory};
use std::alloc::Global;
use std::marker::Model;
use std::process::Abort;
use topk_heap::laws::{
    calls_on_other_chains_leave_a_heap, the_runner_up_is_a_document, those_raised_are_noted,
};
use topk_heap::{Top, just_behind};

/// A pool of so many frames for so many chains.
fn pool_of(rt: &impl Abort, alloc: Global, frames: u32, chains: u32) -> FramePool
    requires frames { frames ≤ 6 }
    requires chains { chains ≤ 2 }
{
    FramePool::new(alloc, frames, chains).expect(rt, "no memory")
}

/// A session over some documents for the first one, with a promise of three frames.
fn opened(
    rt: &impl Abort,
    alloc: Global,
    pool: &mut FramePool,
    docs: u32,
    room: usize,
) -> (Pages, Top)
    requires room { room ≤ 4294967296 }
    ensures stands { Stands result.0 pool.new }
    ensures docs { docs_of result.0 ≡ docs }
    ensures room { room ≤ result.1.room }
    ensures scores { pages_scores result.0 pool.new ≡ replicate docs 0 }
    ensures view { own_view result.0 pool.new ≡ record { promise = 3; frames = [] } }
    ensures top { TopStands result.1 (pages_scores result.0 pool.new) (pages_places result.0 pool.new) }
    ensures unused { slice_index_or pool.old.chains (own_chain result.0) None ≡ None }
    ensures others { LeavesOthers pool.old pool.new (own_chain result.0) }
{
    let top = Top::new(alloc, 1, room).expect(rt, "no memory");
    let chain = pool.promise(3).expect(rt, "refused");
    match Pages::new(alloc, docs, pool, chain) {
        Ok(pages) => (pages, top),
        Err((chain, NoMemory)) => {
            pool.give_back(chain);
            panic!(rt; "no memory")
        }
    }
}

/// Adds to a score that is known to be small, and settles its document.
fn add(rt: &impl Abort, pages: &mut Pages, top: &mut Top, pool: &mut FramePool, doc: u32, w: u32)
    requires stands { Stands pages.old pool.old }
    requires top { TopStands top.old (pages_scores pages.old pool.old) (pages_places pages.old pool.old) }
    requires inside { doc < docs_of pages.old }
    requires weight { 1 ≤ w }
    requires small { w < 1000 }
    requires frame { HasRoomFor (own_view pages.old pool.old) (docs_of pages.old) 1 }
    requires room { 1 ≤ top.old.room }
    ensures stands { Stands pages.new pool.new }
    ensures top { TopStands top.new (pages_scores pages.new pool.new) (pages_places pages.new pool.new) }
    ensures same { ArePagesOf pages.old pages.new }
    ensures leaves { LeavesPool pool.old pool.new (own_chain pages.old) }
    ensures room { top.new.room ≡ top.old.room }
{
    calls_on_one_chain();
    room_for_more_is_room_for_one();
    assert!(rt; pages.get(pool, doc) < 1000);
    pages.add(pool, doc, w);
    top.settle(pages, pool, &[doc]);
}

/// Whether a heap for one hit has this one, and this one behind it.
fn is_first(top: &Top, first: Hit, next: Option<Hit>) -> bool {
    top.ranked() == [first].as_slice() && top.runner_up() == next
}

/// A session over three documents for the first one, and its pool.
struct One {
    pool: FramePool,
    pages: Pages,
    top: Top,
}

impl Model for One {
    ghost use Rattle.std.specs.Prelude.{ℕ, ◌≡◌, ◌≤◌};
    ghost use Rattle.accumulator_pages.specs.Pages.{Stands, docs_of, own_view, pages_places, pages_scores};
    ghost use Rattle.topk_heap.specs.Standing.{TopStands};

    ghost Value = { ℕ };

    ghost view = { λ s. docs_of s.pages };

    ghost invariant = { λ s. (docs_of s.pages ≡ 3) × (((own_view s.pages s.pool).promise ≡ 3) × ((1 ≤ s.top.room)
        × (Stands s.pages s.pool × TopStands s.top (pages_scores s.pages s.pool) (pages_places s.pages s.pool)))) };
}

/// A session to which nothing was added.
fn opened_one(rt: &impl Abort, alloc: Global) -> One {
    let mut pool = pool_of(rt, alloc, 3, 1);
    let (pages, top) = opened(rt, alloc, &mut pool, 3, 1);
    One { pool, pages, top }
}

/// Adds to the score of a document.
fn add_to_one(rt: &impl Abort, one: &mut One, doc: u32, w: u32)
    requires inside { doc < 3 }
    requires weight { 1 ≤ w }
    requires small { w < 1000 }
{
    add(rt, &mut one.pages, &mut one.top, &mut one.pool, doc, w);
}

/// Gives the frames back.
fn close_one(one: One) {
    let One {
        mut pool,
        pages,
        top,
    } = one;
    drop(top);
    pool.give_back(pages.into_chain());
    drop(pool);
}

/// A document, what its score gains, and the first document then and the one behind it.
type Step = (u32, u32, Hit, Option<Hit>);

const STEPS: [Step; 3] = [
    (1, 5, Hit { doc: 1, score: 5 }, None),
    (
        0,
        9,
        Hit { doc: 0, score: 9 },
        Some(Hit { doc: 1, score: 5 }),
    ),
    (
        2,
        1,
        Hit { doc: 0, score: 9 },
        Some(Hit { doc: 1, score: 5 }),
    ),
];

/// After each step the heap is as stands beside it.
fn check_steps(rt: &impl Abort, one: &mut One, steps: &[Step]) {
    for (doc, w, first, next) in steps {
        assert!(rt; *doc < 3 && 1 <= *w && *w < 1000);
        add_to_one(rt, one, *doc, *w);
        assert!(rt; is_first(&one.top, *first, *next));
    }
}

/// A heap has no hit.
fn check_empty(rt: &impl Abort, top: &Top) {
    assert!(rt; top.ranked().is_empty() && top.runner_up() == None);
}

#[test]
fn documents_rise_one_by_one(rt: HostRuntime) {
    let mut one = opened_one(&rt, rt.alloc());
    check_empty(&rt, &one.top);
    check_steps(&rt, &mut one, &STEPS);
    close_one(one);
}

/// Two sessions over three documents in one pool.
struct Two {
    pool: FramePool,
    x: Pages,
    x_top: Top,
    y: Pages,
    y_top: Top,
}

impl Model for Two {
    ghost use Rattle.std.specs.Prelude.{ℕ, ◌≡◌, ◌≢◌, ◌≤◌};
    ghost use Rattle.accumulator_pages.specs.Pages.{Stands, docs_of, own_chain, own_view, pages_places, pages_scores};
    ghost use Rattle.topk_heap.specs.Standing.{TopStands};

    ghost Value = { ℕ };

    ghost view = { λ s. docs_of s.x };

    ghost invariant = { λ s. (own_chain s.x ≢ own_chain s.y) × ((docs_of s.x ≡ 3) × ((docs_of s.y ≡ 3)
        × (((own_view s.x s.pool).promise ≡ 3) × (((own_view s.y s.pool).promise ≡ 3)
        × ((1 ≤ s.x_top.room) × ((1 ≤ s.y_top.room) × (Stands s.x s.pool × (Stands s.y s.pool
        × (TopStands s.x_top (pages_scores s.x s.pool) (pages_places s.x s.pool)
        × TopStands s.y_top (pages_scores s.y s.pool) (pages_places s.y s.pool)))))))))) };
}

/// A session beside another one, which still stands.
fn opened_beside(
    rt: &impl Abort,
    alloc: Global,
    pool: &mut FramePool,
    other: &Pages,
    other_top: &Top,
) -> (Pages, Top)
    requires other { Stands other.now pool.old }
    requires other_top { TopStands other_top.now (pages_scores other.now pool.old) (pages_places other.now pool.old) }
    ensures stands { Stands result.0 pool.new }
    ensures docs { docs_of result.0 ≡ 3 }
    ensures room { 1 ≤ result.1.room }
    ensures view { own_view result.0 pool.new ≡ record { promise = 3; frames = [] } }
    ensures top { TopStands result.1 (pages_scores result.0 pool.new) (pages_places result.0 pool.new) }
    ensures apart { own_chain other.now ≢ own_chain result.0 }
    ensures other { Stands other.now pool.new }
    ensures other_view { own_view other.now pool.new ≡ own_view other.now pool.old }
    ensures other_top { TopStands other_top.now (pages_scores other.now pool.new) (pages_places other.now pool.new) }
{
    calls_on_other_chains_leave_pages();
    calls_on_other_chains_leave_a_heap();
    opened(rt, alloc, pool, 3, 1)
}

/// Sessions to which nothing was added.
fn opened_two(rt: &impl Abort, alloc: Global) -> Two {
    let mut pool = pool_of(rt, alloc, 6, 2);
    let (x, x_top) = opened(rt, alloc, &mut pool, 3, 1);
    let (y, y_top) = opened_beside(rt, alloc, &mut pool, &x, &x_top);
    Two {
        pool,
        x,
        x_top,
        y,
        y_top,
    }
}

/// Adds to a score of the first session.
fn add_to_x(rt: &impl Abort, two: &mut Two, doc: u32, w: u32)
    requires inside { doc < 3 }
    requires weight { 1 ≤ w }
    requires small { w < 1000 }
{
    calls_on_other_chains_leave_pages();
    calls_on_other_chains_leave_a_heap();
    add(rt, &mut two.x, &mut two.x_top, &mut two.pool, doc, w);
}

/// Adds to a score of the second session.
fn add_to_y(rt: &impl Abort, two: &mut Two, doc: u32, w: u32)
    requires inside { doc < 3 }
    requires weight { 1 ≤ w }
    requires small { w < 1000 }
{
    calls_on_other_chains_leave_pages();
    calls_on_other_chains_leave_a_heap();
    add(rt, &mut two.y, &mut two.y_top, &mut two.pool, doc, w);
}

/// Gives the frames of both back.
fn close_two(two: Two) {
    let Two {
        mut pool,
        x,
        x_top,
        y,
        y_top,
    } = two;
    drop(x_top);
    drop(y_top);
    give_back_both(&mut pool, x, y);
    drop(pool);
}

/// Gives the frames of two sessions back to the pool that they share.
fn give_back_both(pool: &mut FramePool, x: Pages, y: Pages)
    requires x { Stands x pool.old }
    requires y { Stands y pool.old }
    requires apart { own_chain x ≢ own_chain y }
{
    calls_on_other_chains_leave_pages();
    pool.give_back(x.into_chain());
    pool.give_back(y.into_chain());
}

#[test]
fn two_sessions_take_turns(rt: HostRuntime) {
    let mut two = opened_two(&rt, rt.alloc());
    check_turns(&rt, &mut two);
    close_two(two);
}

/// Two sessions rise in turns. In the first one the documents tie, and the lower one comes last.
fn check_turns(rt: &impl Abort, two: &mut Two) {
    add_to_x(rt, two, 1, 4);
    add_to_y(rt, two, 2, 7);
    add_to_x(rt, two, 0, 4);
    add_to_y(rt, two, 2, 1);
    let next = Some(Hit { doc: 1, score: 4 });
    assert!(rt; is_first(&two.x_top, Hit { doc: 0, score: 4 }, next));
    assert!(rt; is_first(&two.y_top, Hit { doc: 2, score: 8 }, None));
}

/// Adds a weight to the scores of some of six documents, and settles those that have passed the last of the heap.
fn add_batch(
    rt: &impl Abort,
    pages: &mut Pages,
    top: &mut Top,
    pool: &mut FramePool,
    docs: &[u32],
    w: u32,
    reached: &mut Reached,
)
    requires stands { Stands pages.old pool.old }
    requires top { TopStands top.old (pages_scores pages.old pool.old) (pages_places pages.old pool.old) }
    requires count { docs_of pages.old ≡ 6 }
    requires inside { All (λ doc. doc < docs_of pages.old) docs.now }
    requires weight { 1 ≤ w }
    requires fits { All (λ score. score < 2 ^ 32) (added w docs.now (pages_scores pages.old pool.old)) }
    requires frames { HasRoomFor (own_view pages.old pool.old) (docs_of pages.old) (length docs.now) }
    requires notes { length docs.now ≤ reached.old.room }
    requires room { reached.old.room ≤ top.old.room }
    ensures stands { Stands pages.new pool.new }
    ensures top { TopStands top.new (pages_scores pages.new pool.new) (pages_places pages.new pool.new) }
    ensures scores { pages_scores pages.new pool.new ≡ added w docs.now (pages_scores pages.old pool.old) }
    ensures same { ArePagesOf pages.old pages.new }
    ensures promise { (own_view pages.new pool.new).promise ≡ (own_view pages.old pool.old).promise }
    ensures notes { reached.new.room ≡ reached.old.room }
    ensures room { top.new.room ≡ top.old.room }
{
    calls_on_one_chain();
    those_raised_are_noted();
    the_runner_up_is_a_document();
    reached.clear();
    let last = just_behind(top.runner_up(), 6);
    pages.add_all(pool, docs, w, last, reached);
    top.settle(pages, pool, reached.as_slice());
}

/// These documents were noted, and a heap has this hit alone.
fn check_ranked(rt: &impl Abort, reached: &Reached, docs: &[u32], top: &Top, first: Hit) {
    assert!(rt; reached.as_slice() == docs && top.ranked() == [first].as_slice());
}

/// Two batches in a session over six documents.
fn check_batches(rt: &impl Abort, alloc: Global) {
    let mut pool = pool_of(rt, alloc, 3, 1);
    let (mut pages, mut top) = opened(rt, alloc, &mut pool, 6, 6);
    let mut reached = Reached::new(alloc, 6).expect(rt, "no memory");
    check_both_batches(rt, &mut pages, &mut top, &mut pool, &mut reached);
    drop(reached);
    // The last of the full heap is document 0 with score 2.
    let next = top.runner_up();
    drop(top);
    pool.give_back(pages.into_chain());
    drop(pool);
    assert!(rt; next == Some(Hit { doc: 0, score: 2 }));
}

/// Adds two batches, and checks after each which documents were noted and which hit is first. Document 5 is in the heap
/// already as the second one comes, in which the others tie.
fn check_both_batches(
    rt: &impl Abort,
    pages: &mut Pages,
    top: &mut Top,
    pool: &mut FramePool,
    reached: &mut Reached,
)
    requires stands { Stands pages.old pool.old }
    requires top { TopStands top.old (pages_scores pages.old pool.old) (pages_places pages.old pool.old) }
    requires count { docs_of pages.old ≡ 6 }
    requires scores { pages_scores pages.old pool.old ≡ replicate 6 0 }
    requires promise { (own_view pages.old pool.old).promise ≡ 3 }
    requires notes { reached.old.room ≡ 6 }
    requires room { 6 ≤ top.old.room }
    ensures stands { Stands pages.new pool.new }
{
    add_batch(rt, pages, top, pool, &[5], 3, reached);
    check_ranked(rt, reached, &[5], top, Hit { doc: 5, score: 3 });
    add_batch(rt, pages, top, pool, &[0, 1, 2, 3, 4, 5], 2, reached);
    check_ranked(rt, reached, &[0, 1, 2, 3, 4], top, Hit { doc: 5, score: 5 });
}

#[test]
fn a_batch_is_settled(rt: HostRuntime) {
    check_batches(&rt, rt.alloc());
}
