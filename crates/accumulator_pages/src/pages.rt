ghost use Rattle.std.specs.Prelude.{◌≡◌, ◌≢◌, ℕ, ◌+◌, ◌-◌, ◌*◌, ◌/◌, ◌%◌, ◌++◌, ◌<◌, ◌≤◌, ◌^◌, ◌==◌, [], true, false, All, IfOk, IfErr, IfSome, IsNone, option_map, length, replicate, position, slice_index, slice_set};
ghost use Rattle.std.specs.List.{flat_map};
ghost use Rattle.frame_pool.specs.Pool.{PoolView, IsInUse};
ghost use Rattle.frame_pool.specs.ChainView.{HasPage, LeavesPool, chain_view};
ghost use Rattle.lane_kernels.specs.Bitmap.{set_bits};
ghost use Rattle.accumulator_pages.specs.Adding.{added, crossed, raised, touched_count, touched_pages};
ghost use Rattle.accumulator_pages.specs.Pages.{ArePagesOf, HasRoom, HasRoomFor, Stands, TellsChain, docs_of, frame_of_entry, no_frame, own_chain, own_view, pages_places, pages_scores};

use crate::near::near_bits;
use crate::reached::Reached;
use frame_pool::laws::calls_on_one_chain;
use frame_pool::{Chain, FrameId, FramePool};
use jass_base::{Hit, NoMemory};
use lane_kernels::{add_where, bits_to_docs, first_zero};
use std::alloc::Global;
use std::marker::Model;

/// The documents of a page.
const PAGE_DOCS: u32 = 256;

/// The entry of a page that has no frame.
const NO_FRAME: u32 = u32::MAX;

/// The scores and heap places of a session's documents: a chain of a pool, and the frame of each page in it. A page
/// takes a frame when the first of its documents gets a score; until then its scores and heap places are 0.
///
/// Each call that takes a pool wants the pool of `new`, with this chain as the last call on these pages left it.
/// Other chains may have changed.
pub struct Pages {
    chain: Chain,
    table: Vec<u32>,
    docs: u32,
    frames: u32,
}

impl Model for Pages {
    ghost use Rattle.std.specs.Prelude.{◌<◌, ◌^◌, vec_capacity};
    ghost use Rattle.accumulator_pages.specs.View.{PagesView};

    ghost Value = { PagesView };

    ghost view = { λ p. record {
      chain = p.chain;
      docs = p.docs;
      table = p.table.items;
      room = vec_capacity p.table;
      frames = p.frames;
    } };

    ghost invariant = { λ p. p.docs < 2 ^ 32 };
}

impl Pages {
    /// The pages of so many documents in a chain without frames: all scores and heap places are 0. No other call
    /// takes memory.
    pub fn new(
        alloc: Global,
        docs: u32,
        pool: &FramePool,
        chain: Chain,
    ) -> Result<Pages, (Chain, NoMemory)>
        requires own { IsInUse pool.now chain }
        requires empty { (chain_view pool.now chain).frames ≡ [] }
        ensures stands { IfOk result (λ pages. Stands pages pool.now) }
        ensures scores { IfOk result (λ pages. pages_scores pages pool.now ≡ replicate docs 0) }
        ensures places { IfOk result (λ pages. pages_places pages pool.now ≡ replicate docs 0) }
        ensures chain { IfOk result (λ pages. own_chain pages ≡ chain) }
        ensures docs { IfOk result (λ pages. docs_of pages ≡ docs) }
        ensures err { IfErr result (λ e. e.0 ≡ chain) }
    {
        match vec![in alloc; NO_FRAME; docs.div_ceil(PAGE_DOCS) as usize] {
            Ok(table) => Ok(Pages {
                chain,
                table,
                docs,
                frames: 0,
            }),
            Err(_) => Err((chain, NoMemory)),
        }
    }

    /// Adds a weight to the score of a document, and answers the new score.
    pub fn add(&mut self, pool: &mut FramePool, doc: u32, w: u32) -> u32
        requires stands { Stands self.old pool.old }
        requires inside { doc < docs_of self.old }
        requires weight { 1 ≤ w }
        requires fits { slice_index (pages_scores self.old pool.old) doc + w < 2 ^ 32 }
        requires frame { HasRoom (own_view self.old pool.old) (doc / 256) }
        ensures score { result ≡ slice_index (pages_scores self.old pool.old) doc + w }
        ensures scores { pages_scores self.new pool.new ≡ slice_set (pages_scores self.old pool.old) doc result }
        ensures places { pages_places self.new pool.new ≡ pages_places self.old pool.old }
        ensures frames { length (own_view self.new pool.new).frames ≤ length (own_view self.old pool.old).frames + 1 }
        ensures stands { Stands self.new pool.new }
        ensures same { ArePagesOf self.old self.new }
        ensures leaves { LeavesPool pool.old pool.new (own_chain self.old) }
    {
        let frame = self.frame_of(pool, doc / PAGE_DOCS);
        let score = self.score_in(pool, frame, doc) + w;
        pool.set_score(frame, (doc % PAGE_DOCS) as u8, score);
        score
    }

    /// Adds a weight to the score of each of some documents in turn, and notes those that pass the hit `last` by it.
    /// Any score passes document 0 with score 0.
    pub fn add_all(
        &mut self,
        pool: &mut FramePool,
        docs: &[u32],
        w: u32,
        last: Hit,
        reached: &mut Reached,
    )
        requires stands { Stands self.old pool.old }
        requires inside { All (λ doc. doc < docs_of self.old) docs.now }
        requires weight { 1 ≤ w }
        requires fits { All (λ score. score < 2 ^ 32) (added w docs.now (pages_scores self.old pool.old)) }
        requires frames { HasRoomFor (own_view self.old pool.old) (docs_of self.old) (length docs.now) }
        requires room { length reached.old.docs + length docs.now ≤ reached.old.room }
        ensures scores { pages_scores self.new pool.new ≡ added w docs.now (pages_scores self.old pool.old) }
        ensures places { pages_places self.new pool.new ≡ pages_places self.old pool.old }
        ensures reached { reached.new.docs
            ≡ reached.old.docs ++ raised w last docs.now (pages_scores self.old pool.old) }
        ensures room { reached.new.room ≡ reached.old.room }
        ensures frames { length (own_view self.new pool.new).frames
            ≤ length (own_view self.old pool.old).frames + length docs.now }
        ensures stands { Stands self.new pool.new }
        ensures same { ArePagesOf self.old self.new }
        ensures leaves { LeavesPool pool.old pool.new (own_chain self.old) }
    {
        calls_on_one_chain();
        for doc in docs {
            let score = self.add(pool, *doc, w);
            reached.note(*doc, score, w, last);
        }
    }

    /// Adds a weight to the scores of the documents whose bits are set, and notes those that pass the hit `last` by
    /// it. Bit i of the bytes, at most 16, is that of document 128 * row + i; bit 0 is the lowest bit of the first
    /// byte. Any score passes document 0 with score 0.
    pub fn add_bits(
        &mut self,
        pool: &mut FramePool,
        row: u32,
        bits: &[u8],
        w: u32,
        last: Hit,
        reached: &mut Reached,
    )
        requires stands { Stands self.old pool.old }
        requires row { row ≤ 2 ^ 19 }
        requires bits { length bits.now ≤ 16 }
        requires inside { All (λ doc. doc < docs_of self.old) (set_bits (128 * row) bits.now) }
        requires weight { 1 ≤ w }
        requires fits { All (λ score. score < 2 ^ 32)
            (added w (set_bits (128 * row) bits.now) (pages_scores self.old pool.old)) }
        requires frames { HasRoomFor (own_view self.old pool.old) (docs_of self.old)
            (length (set_bits (128 * row) bits.now)) }
        requires room { length reached.old.docs + length (set_bits (128 * row) bits.now) ≤ reached.old.room }
        ensures scores { pages_scores self.new pool.new
            ≡ added w (set_bits (128 * row) bits.now) (pages_scores self.old pool.old) }
        ensures places { pages_places self.new pool.new ≡ pages_places self.old pool.old }
        ensures reached { reached.new.docs ≡ reached.old.docs
            ++ raised w last (set_bits (128 * row) bits.now) (pages_scores self.old pool.old) }
        ensures room { reached.new.room ≡ reached.old.room }
        ensures frames { length (own_view self.new pool.new).frames
            ≤ length (own_view self.old pool.old).frames + length (set_bits (128 * row) bits.now) }
        ensures stands { Stands self.new pool.new }
        ensures same { ArePagesOf self.old self.new }
        ensures leaves { LeavesPool pool.old pool.new (own_chain self.old) }
    {
        calls_on_one_chain();
        // No frame is taken for a page of no document.
        if !any_set(bits) {
            return;
        }
        let near = self.raise_bits(pool, row, bits, w, last);
        if near {
            self.note_bits(pool, row, bits, w, last, reached);
        }
    }

    /// The score of a document.
    pub fn get(&self, pool: &FramePool, doc: u32) -> u32
        requires stands { Stands self.now pool.now }
        requires inside { doc < docs_of self.now }
        ensures { result ≡ slice_index (pages_scores self.now pool.now) doc }
    {
        match self.known_frame(doc / PAGE_DOCS) {
            Some(frame) => self.score_in(pool, frame, doc),
            None => 0,
        }
    }

    /// How many documents have a score. It looks at the score of each document, since a count would cost every posting.
    pub fn touched(&self, pool: &FramePool) -> u32
        requires { Stands self.now pool.now }
        ensures { result ≡ touched_count (pages_scores self.now pool.now) }
    {
        let mut touched = 0;
        for doc in 0..self.docs {
            touched += u32::from(self.get(pool, doc) > 0);
        }
        touched
    }

    /// How many frames the chain has, which is how many pages have a document with a score of at least 1.
    pub fn frames(&self) -> u32
        ensures taken { (pool : PoolView) → Stands self.now pool → result ≡ length (own_view self.now pool).frames }
        ensures pages { (pool : PoolView) → Stands self.now pool → result ≡ touched_pages (pages_scores self.now pool) }
    {
        self.frames
    }

    /// The least document without a score, and `None` exactly where each has one.
    pub fn least_untouched(&self, pool: &FramePool) -> Option<u32>
        requires { Stands self.now pool.now }
        ensures { result ≡ position (λ score. score == 0) (pages_scores self.now pool.now) }
    {
        for page in 0..self.docs.div_ceil(PAGE_DOCS) {
            if let Some(slot) = self.untouched_slot(pool, page) {
                let doc = PAGE_DOCS * page + slot;
                return if doc < self.docs { Some(doc) } else { None };
            }
        }
        None
    }

    /// The heap place of a document that has a score.
    pub fn heap_place(&self, pool: &FramePool, doc: u32) -> u32
        requires stands { Stands self.now pool.now }
        requires inside { doc < docs_of self.now }
        requires touched { 0 < slice_index (pages_scores self.now pool.now) doc }
        ensures { result ≡ slice_index (pages_places self.now pool.now) doc }
    {
        let frame = self.touched_frame(doc);
        pool.place(frame, (doc % PAGE_DOCS) as u8)
    }

    /// Sets the heap place of a document that has a score.
    pub fn set_heap_place(&mut self, pool: &mut FramePool, doc: u32, place: u32)
        requires stands { Stands self.old pool.old }
        requires inside { doc < docs_of self.old }
        requires touched { 0 < slice_index (pages_scores self.old pool.old) doc }
        ensures scores { pages_scores self.new pool.new ≡ pages_scores self.old pool.old }
        ensures places { pages_places self.new pool.new ≡ slice_set (pages_places self.old pool.old) doc place }
        ensures frames { length (own_view self.new pool.new).frames ≡ length (own_view self.old pool.old).frames }
        ensures stands { Stands self.new pool.new }
        ensures same { ArePagesOf self.old self.new }
        ensures leaves { LeavesPool pool.old pool.new (own_chain self.old) }
    {
        let frame = self.touched_frame(doc);
        pool.set_place(frame, (doc % PAGE_DOCS) as u8, place);
    }

    /// The chain, with the frames that it has taken.
    pub fn into_chain(self) -> Chain
        ensures { result ≡ own_chain self }
    {
        let Pages {
            chain,
            table: _,
            docs: _,
            frames: _,
        } = self;
        chain
    }

    /// Adds a weight to the scores of the documents whose bits are set, and tells whether one may have passed the hit.
    fn raise_bits(&mut self, pool: &mut FramePool, row: u32, bits: &[u8], w: u32, last: Hit) -> bool
        requires stands { Stands self.old pool.old }
        requires bits { length bits.now ≤ 16 }
        requires some { 1 ≤ length (set_bits (128 * row) bits.now) }
        requires inside { All (λ doc. doc < docs_of self.old) (set_bits (128 * row) bits.now) }
        requires weight { 1 ≤ w }
        requires fits { All (λ score. score < 2 ^ 32)
            (added w (set_bits (128 * row) bits.now) (pages_scores self.old pool.old)) }
        requires frame { HasRoom (own_view self.old pool.old) (row / 2) }
        ensures scores { pages_scores self.new pool.new
            ≡ added w (set_bits (128 * row) bits.now) (pages_scores self.old pool.old) }
        ensures places { pages_places self.new pool.new ≡ pages_places self.old pool.old }
        ensures none_near { result ≡ false
            → raised w last (set_bits (128 * row) bits.now) (pages_scores self.old pool.old) ≡ [] }
        ensures frames { length (own_view self.new pool.new).frames ≤ length (own_view self.old pool.old).frames + 1 }
        ensures stands { Stands self.new pool.new }
        ensures same { ArePagesOf self.old self.new }
        ensures leaves { LeavesPool pool.old pool.new (own_chain self.old) }
    {
        let frame = self.frame_of(pool, row / 2);
        let slots = pool.scores_mut(frame);
        let first = 128 * (row % 2) as usize;
        add_where(
            &mut slots[first..first + 8 * bits.len()],
            bits,
            w,
            last.score,
        )
    }

    /// Notes those of the documents whose bits are set that passed the hit by a weight, which their scores have by now.
    #[inline(never)]
    fn note_bits(
        &self,
        pool: &FramePool,
        row: u32,
        bits: &[u8],
        w: u32,
        last: Hit,
        reached: &mut Reached,
    )
        requires stands { Stands self.now pool.now }
        requires row { row ≤ 2 ^ 19 }
        requires bits { length bits.now ≤ 16 }
        requires some { 1 ≤ length (set_bits (128 * row) bits.now) }
        requires inside { All (λ doc. doc < docs_of self.now) (set_bits (128 * row) bits.now) }
        requires weight { 1 ≤ w }
        requires rose { All (λ doc. w ≤ slice_index (pages_scores self.now pool.now) doc)
            (set_bits (128 * row) bits.now) }
        requires room { length reached.old.docs + length (set_bits (128 * row) bits.now) ≤ reached.old.room }
        ensures docs { reached.new.docs ≡ reached.old.docs ++ flat_map (λ doc. crossed doc
            (slice_index (pages_scores self.now pool.now) doc - w)
            (slice_index (pages_scores self.now pool.now) doc) last) (set_bits (128 * row) bits.now) }
        ensures room { reached.new.room ≡ reached.old.room }
    {
        let Some(frame) = self.known_frame(row / 2) else {
            return;
        };
        // Few of the documents are near the hit, and none of the others passed it: those aren't looked at one by one.
        let slots = pool.scores_of(frame);
        let first = 128 * (row % 2) as usize;
        let near = near_bits(&slots[first..first + 8 * bits.len()], bits, w, last.score);
        let mut block = [0u32; 128];
        let count = bits_to_docs(&near, 128 * row, &mut block);
        note_slots(slots, &block[..count], w, last, reached);
    }

    /// The frame of a page, which is taken where the page has none.
    fn frame_of(&mut self, pool: &mut FramePool, page: u32) -> FrameId
        requires own { IsInUse pool.old (own_chain self.old) }
        requires fields { TellsChain self.old (own_view self.old pool.old) }
        requires inside { page < length self.old.table }
        requires room { HasRoom (own_view self.old pool.old) page }
        ensures has { HasPage (own_view self.new pool.new) page result.number }
        ensures scores { pages_scores self.new pool.new ≡ pages_scores self.old pool.old }
        ensures places { pages_places self.new pool.new ≡ pages_places self.old pool.old }
        ensures frames { length (own_view self.new pool.new).frames ≤ length (own_view self.old pool.old).frames + 1 }
        ensures fields { TellsChain self.new (own_view self.new pool.new) }
        ensures entries { (other : ℕ) → other ≢ page
            → slice_index self.new.table other ≡ slice_index self.old.table other }
        ensures same { ArePagesOf self.old self.new }
        ensures own { IsInUse pool.new (own_chain self.new) }
        ensures leaves { LeavesPool pool.old pool.new (own_chain self.old) }
    {
        match self.known_frame(page) {
            Some(frame) => frame,
            None => self.take_frame(pool, page),
        }
    }

    /// Takes the frame of a page that has none. Not inlined: it is seldom needed where weights are added.
    #[inline(never)]
    fn take_frame(&mut self, pool: &mut FramePool, page: u32) -> FrameId
        requires own { IsInUse pool.old (own_chain self.old) }
        requires fields { TellsChain self.old (own_view self.old pool.old) }
        requires inside { page < length self.old.table }
        requires vacant { slice_index self.old.table page ≡ no_frame }
        requires room { HasRoom (own_view self.old pool.old) page }
        ensures has { HasPage (own_view self.new pool.new) page result.number }
        ensures scores { pages_scores self.new pool.new ≡ pages_scores self.old pool.old }
        ensures places { pages_places self.new pool.new ≡ pages_places self.old pool.old }
        ensures frames { length (own_view self.new pool.new).frames ≤ length (own_view self.old pool.old).frames + 1 }
        ensures fields { TellsChain self.new (own_view self.new pool.new) }
        ensures entries { (other : ℕ) → other ≢ page
            → slice_index self.new.table other ≡ slice_index self.old.table other }
        ensures same { ArePagesOf self.old self.new }
        ensures own { IsInUse pool.new (own_chain self.new) }
        ensures leaves { LeavesPool pool.old pool.new (own_chain self.old) }
    {
        let frame = pool.take(&self.chain, page);
        self.table[page as usize] = frame.number;
        self.frames += 1;
        frame
    }

    /// The score of a document, in the frame of its page.
    fn score_in(&self, pool: &FramePool, frame: FrameId, doc: u32) -> u32
        requires has { HasPage (own_view self.now pool.now) (doc / 256) frame.number }
        requires inside { doc < docs_of self.now }
        ensures { result ≡ slice_index (pages_scores self.now pool.now) doc }
    {
        pool.score(frame, (doc % PAGE_DOCS) as u8)
    }

    /// The frame of a document that has a score.
    fn touched_frame(&self, doc: u32) -> FrameId
        requires { doc / 256 < length self.now.table }
        ensures { (pool : PoolView) → Stands self.now pool → 0 < slice_index (pages_scores self.now pool) doc
            → HasPage (own_view self.now pool) (doc / 256) result.number }
    {
        FrameId {
            number: self.table[(doc / PAGE_DOCS) as usize],
        }
    }

    /// The first slot of a page whose document has no score, where there is one.
    fn untouched_slot(&self, pool: &FramePool, page: u32) -> Option<u32>
        requires stands { Stands self.now pool.now }
        requires inside { page < length self.now.table }
        ensures found { IfSome result (λ slot. slot < 256) }
        ensures untouched { IfSome result (λ slot. 256 * page + slot < docs_of self.now
            → slice_index (pages_scores self.now pool.now) (256 * page + slot) ≡ 0) }
        ensures before { IfSome result (λ slot. (i : ℕ) → i < slot → 256 * page + i < docs_of self.now
            → slice_index (pages_scores self.now pool.now) (256 * page + i) ≢ 0) }
        ensures none { IsNone result → (i : ℕ) → i < 256 → 256 * page + i < docs_of self.now
            → slice_index (pages_scores self.now pool.now) (256 * page + i) ≢ 0 }
    {
        let Some(frame) = self.known_frame(page) else {
            return Some(0);
        };
        let slot = first_zero(pool.scores_of(frame))?;
        Some(slot as u32)
    }

    /// The frame of a page, where it has one.
    fn known_frame(&self, page: u32) -> Option<FrameId>
        requires { page < length self.now.table }
        ensures { option_map (λ frame. frame.number) result ≡ frame_of_entry (slice_index self.now.table page) }
    {
        let number = self.table[page as usize];
        if number == NO_FRAME {
            None
        } else {
            Some(FrameId { number })
        }
    }
}

/// Whether a bit of the bytes is set.
fn any_set(bits: &[u8]) -> bool
    ensures none { result ≡ false → (base : ℕ) → set_bits base bits.now ≡ [] }
    ensures some { result ≡ true → (base : ℕ) → 1 ≤ length (set_bits base bits.now) }
{
    for byte in bits {
        if *byte != 0 {
            return true;
        }
    }
    false
}

/// Notes those of some documents of a page that passed the hit by a weight, which their slots have by now.
fn note_slots(slots: &[u32; 256], docs: &[u32], w: u32, last: Hit, reached: &mut Reached)
    requires slots { length slots.now ≡ 256 }
    requires rose { All (λ doc. w ≤ slice_index slots.now (doc % 256)) docs.now }
    requires room { length reached.old.docs + length docs.now ≤ reached.old.room }
    ensures docs { reached.new.docs ≡ reached.old.docs ++ flat_map (λ doc. crossed doc
        (slice_index slots.now (doc % 256) - w) (slice_index slots.now (doc % 256)) last) docs.now }
    ensures room { reached.new.room ≡ reached.old.room }
{
    for doc in docs {
        reached.note(*doc, slots[(*doc % PAGE_DOCS) as usize], w, last);
    }
}
