ghost use Rattle.std.specs.Prelude.{◌≡◌, ◌==◌, ◌&&◌, ◌++◌, take};
ghost use Rattle.std.specs.Ordering.{is_lt, nat_cmp};
ghost use Rattle.std.specs.Cmp.Lexicographic.{slice_cmp};
ghost use Rattle.index_layout.specs.Layout.{shared_with};

/// Whether a term that has some bytes of the one before and then its rest is above it, and shares
/// no more with it.
#[tactic(auto, using(crate::proofs::NextTerms::follows_is))]
pub fn follows(before: &[u8], shared: usize, rest: &[u8]) -> bool
    ensures { result ≡ (shared_with before.now (take shared before.now ++ rest.now) == shared
        && is_lt (slice_cmp nat_cmp before.now (take shared before.now ++ rest.now))) }
{
    shared <= before.len()
        && !rest.is_empty()
        && (shared == before.len() || before[shared] < rest[0])
}
