// Gaps of up to three bytes, as nearly all have, read without a branch on how many they are.
ghost use Rattle.std.specs.Prelude.{ℕ, ◌≡◌, ◌+◌, ◌≤◌, ◌<◌, ◌^◌, length, take, drop, Ok, IsTrue};
ghost use Rattle.jass_base.specs.Gaps.{gap_in};

/// A gap of up to three bytes, how many they are, and whether it is one.
#[derive(Clone, Copy)]
pub(crate) struct ShortGap {
    pub(crate) gap: u32,
    pub(crate) size: usize,
    pub(crate) is_gap: bool,
}

/// Reads the gap at a place. It is the same in each front of the bytes that holds it.
#[inline(always)]
pub(crate) fn short_gap(bytes: &[u8], at: usize) -> ShortGap
    requires { at + 3 ≤ length bytes.now }
    ensures some { 1 ≤ result.size }
    ensures few { result.size ≤ 3 }
    ensures small { result.gap < 2 ^ 28 }
    ensures gap { IsTrue result.is_gap → (end : ℕ) → at + result.size ≤ end
        → gap_in (drop at (take end bytes.now)) ≡ Ok (record { gap = result.gap; size = result.size }) }
{
    let first = u32::from(bytes[at]);
    let second = u32::from(bytes[at + 1]);
    let third = u32::from(bytes[at + 2]);
    // 1 where there is a second byte, and where there is a third
    let two = first / 128;
    let three = two & (second / 128);
    let middle = two * (second % 128);
    let high = three * third;
    ShortGap {
        gap: first % 128 + middle * 128 + high * 16_384,
        size: (1 + two + three) as usize,
        is_gap: (high < 128) & (third >= three) & (second >= two),
    }
}
