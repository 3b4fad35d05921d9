//! Sizes of lists that can't widen a range.

ghost use Rattle.std.specs.Prelude.{◌≡◌, ◌<◌, ℕ, Contains, IsTrue, replicate, slice_set};
ghost use Rattle.index_import.specs.declared.passed_sizes.ListSize.{ListSize};
ghost use Rattle.index_import.specs.declared.passed_sizes.TheConstants.{PLACES};

use std::marker::Model;

/// So many sizes are kept at the most.
const PLACES: usize = 64;

/// How many postings a list has, and how often its term stands in one document at the most.
#[derive(Clone, Copy, Debug)]
pub(crate) struct ListSize {
    pub count: u32,
    pub most: u32,
}

impl ListSize {
    /// Where the size is kept. The small ones, which most lists have, have places of their own.
    fn place(self) -> usize
        ensures { result < PLACES }
    {
        self.count.wrapping_add(self.most.wrapping_mul(8)) as usize % PLACES
    }
}

/// Sizes of lists, each at a place that follows from its numbers, and the last one where several have
/// the place. Most lists have the size of one of those before them.
#[derive(Drop)]
pub(crate) struct PassedSizes {
    sizes: [ListSize; PLACES],
}

impl Model for PassedSizes {
    ghost use Rattle.std.specs.Prelude.{List};
    ghost use Rattle.index_import.specs.declared.passed_sizes.ListSize.{ListSize};

    ghost Value = { List ListSize };

    ghost view = { λ p. p.sizes };
}

impl PassedSizes {
    /// No list's size yet: a list that is looked at has a posting.
    pub fn new() -> PassedSizes
        ensures { result ≡ replicate PLACES (record { count = 0; most = 0 }) }
    {
        PassedSizes {
            sizes: [ListSize { count: 0, most: 0 }; PLACES],
        }
    }

    /// Whether a size is kept.
    pub fn has(&self, size: ListSize) -> bool
        ensures { IsTrue result → Contains self.now size }
    {
        let kept = self.sizes[size.place()];
        kept.count == size.count && kept.most == size.most
    }

    /// Keeps a size.
    pub fn keep(&mut self, size: ListSize)
        ensures { (place : ℕ) × (self.new ≡ slice_set self.old place size) }
    {
        self.sizes[size.place()] = size;
    }
}
