ghost use Rattle.std.specs.Prelude.{ℕ, ◌≡◌, ◌<◌, ◌≤◌, List, length, replicate, slice_index};
ghost use Rattle.sharp_search.specs.Deciding.{limits_of};

use sharp_bounds::{Masks, unseen_sum};

/// What each document may still gain.
pub trait Limits {
    ghost limits: { Self → List ℕ };

    /// What one document may still gain.
    fn limit(&self, doc: u32) -> u64
        requires { doc < length (limits self.now) }
        ensures { result ≡ slice_index (limits self.now) doc };
}

/// The next weights, of at most 64 terms, that the bits of a document's mask don't name.
#[derive(Drop)]
pub struct MaskLimits<'a> {
    pub masks: &'a Masks,
    pub weights: &'a [u32],
    pub ghost few: { length weights.now ≤ 64 },
}

/// The same for all documents.
#[derive(Drop)]
pub struct OneLimit {
    pub docs: u32,
    pub limit: u32,
}

impl Limits for MaskLimits<'_> {
    ghost limits = { λ l. limits_of l.masks.now.masks l.weights.now };

    fn limit(&self, doc: u32) -> u64 {
        unseen_sum(self.masks.mask(doc), self.weights)
    }
}

impl Limits for OneLimit {
    ghost limits = { λ l. replicate l.docs l.limit };

    fn limit(&self, doc: u32) -> u64 {
        let _ = doc;
        u64::from(self.limit)
    }
}
