ghost use Rattle.std.specs.Prelude.{◌≡◌, ℕ, ◌+◌, ◌*◌, ◌<◌, ◌≤◌, List, [], length, slice_index, slice_get, slice_set, option_map, IfOk, OnErr};
ghost use Rattle.std.specs.Result.{result_err};
ghost use Rattle.frame_pool.specs.Pool.{content_of, chain_of, cleared, IsInUse, IsFree, IsUnused, Promises, spare_of, promise_refusal, with_first, with_frame_scores, with_score, with_place, number_after};
ghost use Rattle.frame_pool.specs.ChainView.{HasPage, IsTaken, KeepsFrames, LacksPage, LeavesOthers, LeavesPool, chain_view, view_scores, view_places, with_first_held, with_page};
ghost use Rattle.frame_pool.specs.Sound.{IsSound};
ghost use Rattle.std.specs.Borrow.{sem};
ghost use Rattle.frame_pool.specs.Lending.{LendsScores};
ghost use Rattle.jass_base.specs.declared.limits.TheConstants.{MOST_FRAMES};

use crate::chain::Chain;
use crate::frame::FrameId;
use crate::lease::{Lease, NO_FRAME, unused_number};
use crate::refusal::PoolRefusal;
use crate::store::FrameStore;
use jass_base::NoMemory;
use std::alloc::Global;
use std::marker::Model;

/// The frames that hold the scores of all sessions. A session is promised some of them as its chain, takes them one by
/// one, and gives them back together.
///
/// The free frames are linked in one list, and the frames of each chain in a list of its own, newest first. A pool
/// never moves or clears a frame but when it is taken.
#[derive(Drop)]
pub struct FramePool {
    frames: FrameStore,
    leases: Vec<Option<Lease>>,
    free: u32,
    promised: u32,
}

impl Model for FramePool {
    ghost use Rattle.frame_pool.specs.Pool.{PoolView};
    ghost use Rattle.frame_pool.specs.Links.{view_of};
    ghost use Rattle.frame_pool.specs.Private.Kept.{PoolKept};

    ghost Value = { PoolView };

    ghost view = { λ p. view_of p.frames p.leases.items };

    ghost invariant = { λ p. PoolKept p.frames p.leases.items p.free p.promised };
}

impl FramePool {
    /// A pool of so many frames, for at most so many chains at a time. It takes 2,060 bytes a frame, and no other call
    /// takes memory.
    pub fn new(alloc: Global, frames: u32, chains: u32) -> Result<FramePool, NoMemory>
        requires frames { frames ≤ MOST_FRAMES }
        requires chains { chains ≤ 1024 }
        ensures unused { IfOk result (λ pool. IsUnused pool frames chains) }
        ensures sound { IfOk result (λ pool. IsSound pool) }
    {
        let frames = FrameStore::linked(alloc, frames)?;
        match vec![in alloc; None; chains as usize] {
            Ok(leases) => Ok(FramePool {
                frames,
                leases,
                free: 0,
                promised: 0,
            }),
            Err(_) => Err(NoMemory),
        }
    }

    /// How many frames aren't promised to a chain.
    pub fn spare(&self) -> u32
        ensures spare { result ≡ spare_of self.now }
        ensures sound { IsSound self.now }
    {
        self.frames.len() as u32 - self.promised
    }

    /// Promises `n` frames to a new chain, which has none yet. `Chains` comes where all chain numbers are in use, and
    /// else `Short` where fewer than `n` frames are spare; then the pool is as it was.
    pub fn promise(&mut self, n: u32) -> Result<Chain, PoolRefusal>
        ensures refusal { result_err result ≡ promise_refusal self.old n }
        ensures promised { IfOk result (λ chain. Promises self.old self.new chain n) }
        ensures in_use { IfOk result (λ chain. IsInUse self.new chain) }
        ensures view { IfOk result (λ chain. chain_view self.new chain ≡ record { promise = n; frames = [] }) }
        ensures others { IfOk result (λ chain. LeavesOthers self.old self.new chain) }
        ensures spare { IfOk result (λ chain. spare_of self.new + n ≡ spare_of self.old) }
        ensures err { OnErr result (self.new ≡ self.old) }
        ensures sound { IsSound self.new }
    {
        let Some(at) = unused_number(&self.leases) else {
            return Err(PoolRefusal::Chains {
                chains: self.leases.len() as u32,
            });
        };
        let free = self.spare();
        if free < n {
            return Err(PoolRefusal::Short { need: n, free });
        }
        self.leases[at] = Some(Lease::new(n));
        self.promised += n;
        Ok(Chain { number: at as u32 })
    }

    /// Takes a free frame for a page, which is then the chain's first. All its scores and heap places are 0, whatever
    /// it held.
    pub fn take(&mut self, chain: &Chain, page: u32) -> FrameId
        requires own { IsInUse self.old chain.now }
        requires room { length (chain_view self.old chain.now).frames < (chain_view self.old chain.now).promise }
        requires new_page { LacksPage (chain_view self.old chain.now) page }
        ensures free { IsFree self.old result.number }
        ensures small { result.number < MOST_FRAMES }
        ensures frames { self.new.frames ≡ slice_set self.old.frames result.number (cleared page) }
        ensures chains { self.new.chains ≡ slice_set self.old.chains chain.now
            (Some (with_first (chain_of self.old chain.now) result.number)) }

        // What the chain's owner and the others see.
        ensures has { HasPage (chain_view self.new chain.now) page result.number }
        ensures in_use { IsInUse self.new chain.now }
        ensures view { chain_view self.new chain.now
            ≡ with_first_held (chain_view self.old chain.now) result.number (cleared page) }
        ensures scores { (docs : ℕ) → view_scores docs (chain_view self.new chain.now)
            ≡ view_scores docs (chain_view self.old chain.now) }
        ensures places { (docs : ℕ) → view_places docs (chain_view self.new chain.now)
            ≡ view_places docs (chain_view self.old chain.now) }
        ensures leaves { LeavesPool self.old self.new chain.now }
        ensures sound { IsSound self.new }
    {
        let at = chain.number as usize;
        let Some(lease) = self.leases[at] else {
            unreachable!()
        };
        let number = self.free;
        self.free = self.frames.next(number);
        self.frames.clear(number, page, lease.first);
        self.leases[at] = Some(lease.with_frame(number));
        FrameId { number }
    }

    /// How many frames the chain has.
    pub fn taken(&self, chain: &Chain) -> u32
        requires { IsInUse self.now chain.now }
        ensures taken { result ≡ length (chain_view self.now chain.now).frames }
        ensures sound { IsSound self.now }
    {
        let Some(lease) = self.leases[chain.number as usize] else {
            unreachable!()
        };
        lease.taken
    }

    /// The frame that the chain took last, and `None` where it has none.
    pub fn first(&self, chain: &Chain) -> Option<FrameId>
        requires { IsInUse self.now chain.now }
        ensures first { option_map (λ f. f.number) result ≡ slice_get (chain_of self.now chain.now).frames 0 }
    {
        let Some(lease) = self.leases[chain.number as usize] else {
            unreachable!()
        };
        if lease.taken == 0 {
            None
        } else {
            Some(FrameId {
                number: lease.first,
            })
        }
    }

    /// The frame that the same chain took before this one, and `None` at its first taken.
    pub fn next(&self, frame: FrameId) -> Option<FrameId>
        requires { IsTaken self.now frame.number }
        ensures next { (chain page : ℕ) → HasPage (chain_view self.now chain) page frame.number
            → option_map (λ f. f.number) result ≡ number_after (chain_of self.now chain).frames frame.number }
    {
        let next = self.frames.next(frame.number);
        if next == NO_FRAME {
            None
        } else {
            Some(FrameId { number: next })
        }
    }

    /// The page that the frame was taken for.
    pub fn page(&self, frame: FrameId) -> u32
        requires { IsTaken self.now frame.number }
        ensures page { (chain page : ℕ) → HasPage (chain_view self.now chain) page frame.number → result ≡ page }
        ensures content { result ≡ (content_of self.now frame.number).page }
    {
        self.frames.page(frame.number)
    }

    /// The score of the document in a slot of the frame.
    pub fn score(&self, frame: FrameId, slot: u8) -> u32
        requires { IsTaken self.now frame.number }
        ensures score { result ≡ slice_index (content_of self.now frame.number).scores slot }
        ensures document { (chain page docs : ℕ) → HasPage (chain_view self.now chain) page frame.number
            → 256 * page + slot < docs
            → result ≡ slice_index (view_scores docs (chain_view self.now chain)) (256 * page + slot) }
    {
        self.frames.scores(frame.number)[slot as usize]
    }

    /// The scores of the 256 documents of the frame, by their slots.
    pub fn scores_of(&self, frame: FrameId) -> &[u32; 256]
        requires { IsTaken self.now frame.number }
        ensures scores { result.now ≡ (content_of self.now frame.number).scores }
        ensures slots { length result.now ≡ 256 }
        ensures documents { (chain page docs slot : ℕ) → HasPage (chain_view self.now chain) page frame.number
            → slot < 256 → 256 * page + slot < docs
            → slice_index result.now slot
            ≡ slice_index (view_scores docs (chain_view self.now chain)) (256 * page + slot) }
    {
        self.frames.scores(frame.number)
    }

    /// Lends the scores of the 256 documents of the frame, by their slots, for changes.
    pub fn scores_mut(&mut self, frame: FrameId) -> &mut [u32; 256]
        requires { IsTaken self.old frame.number }
        ensures* writes_back { sem 𝓛 (LendsScores self.entry frame.number result) }
        ensures value { result.now ≡ (content_of self.old frame.number).scores }
        ensures slots { length result.now ≡ 256 }
        ensures documents { (chain page docs slot : ℕ) → HasPage (chain_view self.old chain) page frame.number
            → slot < 256 → 256 * page + slot < docs
            → slice_index result.now slot
            ≡ slice_index (view_scores docs (chain_view self.old chain)) (256 * page + slot) }

        // What the owner of the frame's chain and the others see once these slots are given back.
        ensures scores { (slots : List ℕ) (chain page docs : ℕ)
            → HasPage (chain_view self.old chain) page frame.number
            → view_scores docs (chain_view (with_frame_scores self.old frame.number slots) chain)
            ≡ with_page page slots (view_scores docs (chain_view self.old chain)) }
        ensures places { (slots : List ℕ) (chain docs : ℕ)
            → view_places docs (chain_view (with_frame_scores self.old frame.number slots) chain)
            ≡ view_places docs (chain_view self.old chain) }
        ensures keeps { (slots : List ℕ) (chain : ℕ)
            → KeepsFrames (chain_view self.old chain)
            (chain_view (with_frame_scores self.old frame.number slots) chain) }
        ensures leaves { (slots : List ℕ) (chain page : ℕ)
            → HasPage (chain_view self.old chain) page frame.number
            → LeavesPool self.old (with_frame_scores self.old frame.number slots) chain }
        ensures sound { (slots : List ℕ) → IsSound (with_frame_scores self.old frame.number slots) }
    {
        self.frames.scores_mut(frame.number)
    }

    /// Sets the score of the document in a slot of the frame.
    pub fn set_score(&mut self, frame: FrameId, slot: u8, score: u32)
        requires { IsTaken self.old frame.number }
        ensures frames { self.new.frames ≡ slice_set self.old.frames frame.number
            (with_score (content_of self.old frame.number) slot score) }
        ensures chains { self.new.chains ≡ self.old.chains }

        // What the owner of the frame's chain and the others see.
        ensures scores { (chain page docs : ℕ) → HasPage (chain_view self.old chain) page frame.number
            → view_scores docs (chain_view self.new chain)
            ≡ slice_set (view_scores docs (chain_view self.old chain)) (256 * page + slot) score }
        ensures places { (chain docs : ℕ)
            → view_places docs (chain_view self.new chain) ≡ view_places docs (chain_view self.old chain) }
        ensures keeps { (chain : ℕ) → KeepsFrames (chain_view self.old chain) (chain_view self.new chain) }
        ensures leaves { (chain page : ℕ) → HasPage (chain_view self.old chain) page frame.number
            → LeavesPool self.old self.new chain }
        ensures sound { IsSound self.new }
    {
        self.frames.set_score(frame.number, slot, score);
    }

    /// The heap place of the document in a slot of the frame.
    pub fn place(&self, frame: FrameId, slot: u8) -> u32
        requires { IsTaken self.now frame.number }
        ensures place { result ≡ slice_index (content_of self.now frame.number).places slot }
        ensures document { (chain page docs : ℕ) → HasPage (chain_view self.now chain) page frame.number
            → 256 * page + slot < docs
            → result ≡ slice_index (view_places docs (chain_view self.now chain)) (256 * page + slot) }
    {
        self.frames.place(frame.number, slot)
    }

    /// Sets the heap place of the document in a slot of the frame.
    pub fn set_place(&mut self, frame: FrameId, slot: u8, place: u32)
        requires { IsTaken self.old frame.number }
        ensures frames { self.new.frames ≡ slice_set self.old.frames frame.number
            (with_place (content_of self.old frame.number) slot place) }
        ensures chains { self.new.chains ≡ self.old.chains }

        // What the owner of the frame's chain and the others see.
        ensures places { (chain page docs : ℕ) → HasPage (chain_view self.old chain) page frame.number
            → view_places docs (chain_view self.new chain)
            ≡ slice_set (view_places docs (chain_view self.old chain)) (256 * page + slot) place }
        ensures scores { (chain docs : ℕ)
            → view_scores docs (chain_view self.new chain) ≡ view_scores docs (chain_view self.old chain) }
        ensures keeps { (chain : ℕ) → KeepsFrames (chain_view self.old chain) (chain_view self.new chain) }
        ensures leaves { (chain page : ℕ) → HasPage (chain_view self.old chain) page frame.number
            → LeavesPool self.old self.new chain }
        ensures sound { IsSound self.new }
    {
        self.frames.set_place(frame.number, slot, place);
    }

    /// Ends the chain: its frames are free, still with what they hold, and its promise ends.
    pub fn give_back(&mut self, chain: Chain)
        requires { IsInUse self.old chain }
        ensures frames { self.new.frames ≡ self.old.frames }
        ensures chains { self.new.chains ≡ slice_set self.old.chains chain None }
        ensures others { LeavesOthers self.old self.new chain }
        ensures spare { spare_of self.new ≡ spare_of self.old + (chain_view self.old chain).promise }
        ensures sound { IsSound self.new }
    {
        let Chain { number } = chain;
        let at = number as usize;
        let Some(lease) = self.leases[at] else {
            unreachable!()
        };
        self.free = lease.release(&mut self.frames, self.free);
        self.promised -= lease.promise;
        self.leases[at] = None;
    }
}
