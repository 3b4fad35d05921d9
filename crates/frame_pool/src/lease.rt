ghost use Rattle.std.specs.Prelude.{◌≡◌, ◌<◌, length, position, is_none};
ghost use Rattle.frame_pool.specs.Private.Links.{no_frame};
ghost use Rattle.frame_pool.specs.Private.Leases.{grown, relinked, relinked_first};

use crate::store::FrameStore;

/// The link of a frame that has none behind it.
pub(crate) const NO_FRAME: u32 = u32::MAX;

/// A chain in use: its promise, how many frames it has, and the newest and the oldest of them.
#[derive(Clone, Copy)]
pub(crate) struct Lease {
    pub(crate) promise: u32,
    pub(crate) taken: u32,
    pub(crate) first: u32,
    pub(crate) last: u32,
}

impl Lease {
    /// A chain without frames.
    pub(crate) fn new(promise: u32) -> Lease
        ensures { result ≡ record { promise = promise; taken = 0; first = no_frame; last = no_frame } }
    {
        Lease {
            promise,
            taken: 0,
            first: NO_FRAME,
            last: NO_FRAME,
        }
    }

    /// The chain with one frame more, which is now its newest.
    pub(crate) fn with_frame(self, frame: u32) -> Lease
        requires { self.taken < self.promise }
        ensures { result ≡ grown self frame }
    {
        let last = if self.taken == 0 { frame } else { self.last };
        Lease {
            promise: self.promise,
            taken: self.taken + 1,
            first: frame,
            last,
        }
    }

    /// Links the chain's frames in front of the free list that begins at `free`, and answers where that list begins
    /// then.
    pub(crate) fn release(self, frames: &mut FrameStore, free: u32) -> u32
        requires { 0 < self.taken → self.last < length frames.old }
        ensures frames { frames.new ≡ relinked frames.old self free }
        ensures first { result ≡ relinked_first self free }
    {
        if self.taken == 0 {
            return free;
        }
        frames.link(self.last, free);
        self.first
    }
}

/// The least number of no chain.
pub(crate) fn unused_number(leases: &[Option<Lease>]) -> Option<usize>
    ensures { result ≡ position is_none leases.now }
{
    leases.iter().position(|lease| lease.is_none())
}
