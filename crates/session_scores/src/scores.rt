ghost use Rattle.std.specs.Prelude.{◌≡◌, ℕ, ◌+◌, ◌*◌, ◌<◌, ◌≤◌, ◌^◌, [], ◌∷◌, All, IfOk, IfErr, length, replicate, slice_index};
ghost use Rattle.frame_pool.specs.Pool.{PoolView, IsInUse};
ghost use Rattle.frame_pool.specs.ChainView.{LeavesPool, chain_view};
ghost use Rattle.accumulator_pages.specs.Adding.{touched_pages};
ghost use Rattle.accumulator_pages.specs.Pages.{HasRoomFor};
ghost use Rattle.lane_kernels.specs.Bitmap.{set_bits};
ghost use Rattle.ranking_model.specs.Scores.{added, first_ranked, least_untouched, runner_up};
ghost use Rattle.topk_heap.specs.Standing.{TopStands};
ghost use Rattle.session_scores.specs.Scores.{AreScoresOf, IsSettled, ScoresStand, docs_of, k_of, own_chain, own_view, room_of, scores_of};
ghost use Rattle.jass_base.specs.declared.limits.TheConstants.{MOST_HITS};

use accumulator_pages::laws::room_for_more_is_room_for_one;
use accumulator_pages::{Pages, Reached};
use frame_pool::laws::calls_on_one_chain;
use frame_pool::{Chain, FramePool};
use jass_base::{Hit, NoMemory};
use std::alloc::Global;
use std::marker::Model;
use topk_heap::laws::{the_runner_up_is_a_document, those_raised_are_noted};
use topk_heap::{Top, just_behind};

/// The scores of a session's documents and the first k + 1 of them. What is added changes the scores at once and the
/// first documents at the next `settle`. Whoever may be among the first is noted, so that `settle` ranks those noted
/// and no others. Where there are many notes, those that k + 1 documents rank before are forgotten. Between an addition
/// and the next `settle`, `hits` and `runner_up` tell nothing.
///
/// Each call that takes a pool wants the pool of `new`, with this chain as the last call on these scores left it.
/// Other chains may have changed.
pub struct Scores {
    pages: Pages,
    top: Top,
    reached: Reached,
    last: Hit,
    docs: u32,
    step: usize,
    limit: usize,
    settled: bool,
}

impl Model for Scores {
    ghost use Rattle.session_scores.specs.View.{ScoresView};
    ghost use Rattle.session_scores.specs.Private.Kept.{HasRooms};

    ghost Value = { ScoresView };

    ghost view = { λ s. record {
      pages = s.pages;
      top = s.top;
      reached = s.reached;
      last = s.last;
      settled = s.settled;
    } };

    ghost invariant = { λ s. HasRooms s.docs s.step s.limit s.pages s.top s.reached };
}

/// The most documents of a block.
const BLOCK_DOCS: usize = 128;

impl Scores {
    /// The scores of so many documents in a chain without frames: all are 0. k is 1 to 100,000. No other call takes
    /// memory.
    pub fn new(
        alloc: Global,
        docs: u32,
        k: u32,
        pool: &FramePool,
        chain: Chain,
    ) -> Result<Scores, (Chain, NoMemory)>
        requires some { 1 ≤ k }
        requires few { k ≤ MOST_HITS }
        requires own { IsInUse pool.now chain }
        requires empty { (chain_view pool.now chain).frames ≡ [] }
        ensures stand { IfOk result (λ scores. ScoresStand scores pool.now) }
        ensures settled { IfOk result (λ scores. IsSettled scores pool.now) }
        ensures scores { IfOk result (λ scores. scores_of scores pool.now ≡ replicate docs 0) }
        ensures chain { IfOk result (λ scores. own_chain scores ≡ chain) }
        ensures docs { IfOk result (λ scores. docs_of scores ≡ docs) }
        ensures k { IfOk result (λ scores. k_of scores ≡ k) }
        ensures err { IfErr result (λ e. e.0 ≡ chain) }
    {
        let Ok((top, reached)) = rooms(alloc, k) else {
            return Err((chain, NoMemory));
        };
        let pages = Pages::new(alloc, docs, pool, chain)?;
        let step = k as usize + 1 + BLOCK_DOCS;
        Ok(Scores {
            pages,
            top,
            reached,
            last: Hit { doc: 0, score: 0 },
            docs,
            step,
            limit: step,
            settled: true,
        })
    }

    /// Adds a weight to the score of each of at most 128 documents in turn. Where there are many notes, they are cut
    /// before.
    pub fn add_all(&mut self, pool: &mut FramePool, docs: &[u32], w: u32)
        requires stand { ScoresStand self.old pool.old }
        requires block { length docs.now ≤ 128 }
        requires inside { All (λ doc. doc < docs_of self.old) docs.now }
        requires weight { 1 ≤ w }
        requires fits { All (λ score. score < 2 ^ 32) (added w docs.now (scores_of self.old pool.old)) }
        requires frames { HasRoomFor (own_view self.old pool.old) (docs_of self.old) (length docs.now) }
        ensures scores { scores_of self.new pool.new ≡ added w docs.now (scores_of self.old pool.old) }
        ensures frames { length (own_view self.new pool.new).frames
            ≤ length (own_view self.old pool.old).frames + length docs.now }
        ensures stand { ScoresStand self.new pool.new }
        ensures same { AreScoresOf self.old self.new }
        ensures leaves { LeavesPool pool.old pool.new (own_chain self.old) }
    {
        calls_on_one_chain();
        those_raised_are_noted();
        self.make_room(pool, docs.len());
        let last = self.last;
        self.pages.add_all(pool, docs, w, last, &mut self.reached);
        self.settled = false;
    }

    /// Adds a weight to the scores of the documents whose bits are set: `add_all` of a block of them. Bit i of the
    /// bytes, at most 16, is that of document 128 * row + i; bit 0 is the lowest bit of the first byte.
    pub fn add_bits(&mut self, pool: &mut FramePool, row: u32, bits: &[u8], w: u32)
        requires stand { ScoresStand self.old pool.old }
        requires row { row ≤ 2 ^ 19 }
        requires bits { length bits.now ≤ 16 }
        requires inside { All (λ doc. doc < docs_of self.old) (set_bits (128 * row) bits.now) }
        requires weight { 1 ≤ w }
        requires fits { All (λ score. score < 2 ^ 32)
            (added w (set_bits (128 * row) bits.now) (scores_of self.old pool.old)) }
        requires frames { HasRoomFor (own_view self.old pool.old) (docs_of self.old)
            (length (set_bits (128 * row) bits.now)) }
        ensures scores { scores_of self.new pool.new
            ≡ added w (set_bits (128 * row) bits.now) (scores_of self.old pool.old) }
        ensures frames { length (own_view self.new pool.new).frames
            ≤ length (own_view self.old pool.old).frames + length (set_bits (128 * row) bits.now) }
        ensures stand { ScoresStand self.new pool.new }
        ensures same { AreScoresOf self.old self.new }
        ensures leaves { LeavesPool pool.old pool.new (own_chain self.old) }
    {
        calls_on_one_chain();
        those_raised_are_noted();
        self.make_room(pool, BLOCK_DOCS);
        self.pages
            .add_bits(pool, row, bits, w, self.last, &mut self.reached);
        self.settled = false;
    }

    /// Adds a weight to the score of one document: `add_all` of a block of it.
    pub fn add(&mut self, pool: &mut FramePool, doc: u32, w: u32)
        requires stand { ScoresStand self.old pool.old }
        requires inside { doc < docs_of self.old }
        requires weight { 1 ≤ w }
        requires fits { All (λ score. score < 2 ^ 32) (added w (doc ∷ []) (scores_of self.old pool.old)) }
        requires frames { HasRoomFor (own_view self.old pool.old) (docs_of self.old) 1 }
        ensures scores { scores_of self.new pool.new ≡ added w (doc ∷ []) (scores_of self.old pool.old) }
        ensures frames { length (own_view self.new pool.new).frames
            ≤ length (own_view self.old pool.old).frames + 1 }
        ensures stand { ScoresStand self.new pool.new }
        ensures same { AreScoresOf self.old self.new }
        ensures leaves { LeavesPool pool.old pool.new (own_chain self.old) }
    {
        calls_on_one_chain();
        those_raised_are_noted();
        room_for_more_is_room_for_one();
        self.make_room(pool, 1);
        let score = self.pages.add(pool, doc, w);
        self.reached.note(doc, score, w, self.last);
        self.settled = false;
    }

    /// Takes in what was added since the last call, and does nothing where nothing was. Then `hits` and `runner_up`
    /// tell the first documents.
    pub fn settle(&mut self, pool: &mut FramePool)
        requires stand { ScoresStand self.old pool.old }
        ensures settled { IsSettled self.new pool.new }
        ensures scores { scores_of self.new pool.new ≡ scores_of self.old pool.old }
        ensures frames { length (own_view self.new pool.new).frames ≡ length (own_view self.old pool.old).frames }
        ensures stand { ScoresStand self.new pool.new }
        ensures same { AreScoresOf self.old self.new }
        ensures leaves { LeavesPool pool.old pool.new (own_chain self.old) }
    {
        if !self.settled {
            self.settle_noted(pool);
        }
    }

    /// Cuts the notes where so many more are too many. Inlined, since each row of a bitmap asks, and hardly any cuts.
    #[inline(always)]
    fn make_room(&mut self, pool: &FramePool, docs: usize)
        requires stand { ScoresStand self.old pool.now }
        requires block { docs ≤ 128 }
        ensures room { length self.new.reached.docs + docs ≤ self.new.reached.room }
        ensures stand { ScoresStand self.new pool.now }
        ensures pages { self.new.pages ≡ self.old.pages }
        ensures k { k_of self.new ≡ k_of self.old }
        ensures same { room_of self.new ≡ room_of self.old }
    {
        if self.reached.as_slice().len() + docs > self.limit {
            self.cut(pool);
        }
    }

    /// Forgets those noted that k + 1 documents rank before. Whoever comes to be at the last of these or ahead of it
    /// later is noted then.
    #[inline(never)]
    fn cut(&mut self, pool: &FramePool)
        requires stand { ScoresStand self.old pool.now }
        ensures room { length self.new.reached.docs + 128 ≤ self.new.reached.room }
        ensures stand { ScoresStand self.new pool.now }
        ensures pages { self.new.pages ≡ self.old.pages }
        ensures k { k_of self.new ≡ k_of self.old }
        ensures same { room_of self.new ≡ room_of self.old }
    {
        those_raised_are_noted();
        the_runner_up_is_a_document();
        let next = self.top.cut(&self.pages, pool, &mut self.reached);
        self.last = just_behind(next, self.docs);
        self.limit = self.reached.as_slice().len() + self.step;
    }

    /// Ranks those noted. They stay noted: whoever passes the hit that they passed is one of them.
    fn settle_noted(&mut self, pool: &FramePool)
        requires stand { ScoresStand self.old pool.now }
        ensures settled { IsSettled self.new pool.now }
        ensures stand { ScoresStand self.new pool.now }
        ensures pages { self.new.pages ≡ self.old.pages }
        ensures k { k_of self.new ≡ k_of self.old }
        ensures same { room_of self.new ≡ room_of self.old }
    {
        those_raised_are_noted();
        self.top.rank(&self.pages, pool, self.reached.as_slice());
        self.settled = true;
    }

    /// The first k documents by falling score, then rising number, without those of score 0.
    pub fn hits(&self) -> &[Hit]
        ensures { (pool : PoolView) → IsSettled self.now pool
            → result.now ≡ first_ranked (scores_of self.now pool) (k_of self.now) }
    {
        self.top.ranked()
    }

    /// The document after the first k, and `None` exactly where at most k documents have a score.
    pub fn runner_up(&self) -> Option<Hit>
        ensures { (pool : PoolView) → IsSettled self.now pool
            → result ≡ runner_up (scores_of self.now pool) (k_of self.now) }
    {
        self.top.runner_up()
    }

    /// The score of a document.
    pub fn score(&self, pool: &FramePool, doc: u32) -> u32
        requires stand { ScoresStand self.now pool.now }
        requires inside { doc < docs_of self.now }
        ensures { result ≡ slice_index (scores_of self.now pool.now) doc }
    {
        self.pages.get(pool, doc)
    }

    /// The least document without a score, and `None` exactly where each has one.
    pub fn least_untouched(&self, pool: &FramePool) -> Option<u32>
        requires { ScoresStand self.now pool.now }
        ensures { result ≡ least_untouched (scores_of self.now pool.now) }
    {
        self.pages.least_untouched(pool)
    }

    /// How many frames the chain has, which is how many pages of 256 documents have one with a score of at least 1.
    pub fn frames(&self) -> u32
        ensures taken { (pool : PoolView) → ScoresStand self.now pool
            → result ≡ length (own_view self.now pool).frames }
        ensures pages { (pool : PoolView) → ScoresStand self.now pool
            → result ≡ touched_pages (scores_of self.now pool) }
    {
        self.pages.frames()
    }

    /// The chain, with the frames that it has taken.
    pub fn into_chain(self) -> Chain
        ensures { result ≡ own_chain self }
    {
        let Scores {
            pages,
            top: _,
            reached: _,
            last: _,
            docs: _,
            step: _,
            limit: _,
            settled: _,
        } = self;
        pages.into_chain()
    }
}

/// Room for the first k + 1 documents, and for as many notes that a cut keeps, as many more and a block: each cut is
/// paid for by the notes before it, and the last of the first documents, which few pass, is soon known.
fn rooms(alloc: Global, k: u32) -> Result<(Top, Reached), NoMemory>
    requires some { 1 ≤ k }
    requires few { k ≤ MOST_HITS }
    ensures k { IfOk result (λ rooms. rooms.0.k ≡ k) }
    ensures empty { IfOk result (λ rooms. rooms.0.hits ≡ []) }
    ensures stands { IfOk result (λ rooms. (docs : ℕ) → TopStands rooms.0 (replicate docs 0) (replicate docs 0)) }
    ensures none { IfOk result (λ rooms. rooms.1.docs ≡ []) }
    ensures notes { IfOk result (λ rooms. rooms.1.room ≡ 2 * (k + 1) + 128) }
    ensures room { IfOk result (λ rooms. rooms.1.room ≤ rooms.0.room) }
{
    let room = 2 * (k as usize + 1) + BLOCK_DOCS;
    let top = Top::new(alloc, k, room)?;
    let reached = Reached::new(alloc, room)?;
    Ok((top, reached))
}
