// The documents of a word, four at a time where they aren't put eight at a time.
ghost use Rattle.std.specs.Prelude.{◌≡◌, ℕ, ◌+◌, ◌-◌, ◌*◌, ◌/◌, ◌<◌, ◌≤◌, ◌^◌, ◌++◌, All, [], ◌∷◌, length, take};
ghost use Rattle.jass_base.specs.Gaps.{docs_from};
ghost use Rattle.codec_simple8.specs.Simple8.{count_of, fields, least_behind, width_of};
ghost use Rattle.jass_base.specs.declared.limits.TheConstants.{MOST_DOCUMENTS};

use crate::eights::put_eights;
use crate::selector::Selector;
use crate::values::put_gaps;
use std::simd::prelude::*;

/// Writes the documents of a word's gaps behind the first `filled` of a block, the first document
/// at least `least`, and returns the least that may follow. Up to six more slots are written.
#[inline(always)]
pub(crate) fn put_fields(
    values: u64,
    selector: Selector,
    least: u32,
    out: &mut [u32],
    filled: usize,
) -> u32
    requires from { 2 ≤ selector.number }
    requires room { filled + 60 ≤ length out.old }
    requires least { least ≤ MOST_DOCUMENTS }
    requires below { All (λ doc. doc < MOST_DOCUMENTS)
        (docs_from least (fields (width_of selector.number) (count_of selector.number) values)) }
    ensures docs { take (filled + count_of selector.number) out.new ≡ take filled out.old
        ++ docs_from least (fields (width_of selector.number) (count_of selector.number) values) }
    ensures next { result
        ≡ least_behind least (fields (width_of selector.number) (count_of selector.number) values) }
    ensures length { length out.new ≡ length out.old }
{
    if selector.number == 15 {
        return put_gaps(values, selector, least, out, filled);
    }
    if 5 <= selector.number && selector.number <= 12 {
        return put_narrow(values, selector, least, out, filled);
    }
    let count = selector.count();
    put_rows(
        values,
        count,
        selector.width(),
        (count + 3) / 4,
        least,
        out,
        filled,
    )
}

/// The same for words of 4 to 15 gaps of at most 15 bits each, which most words are.
#[inline(always)]
#[tactic(auto, using(crate::proofs::Tables::narrow_counts))]
pub(crate) fn put_narrow(
    values: u64,
    selector: Selector,
    least: u32,
    out: &mut [u32],
    filled: usize,
) -> u32
    requires from { 5 ≤ selector.number }
    requires to { selector.number ≤ 12 }
    requires room { filled + 16 ≤ length out.old }
    requires least { least ≤ MOST_DOCUMENTS }
    ensures docs { take (filled + count_of selector.number) out.new ≡ take filled out.old
        ++ docs_from least (fields (width_of selector.number) (count_of selector.number) values) }
    ensures next { result
        ≡ least_behind least (fields (width_of selector.number) (count_of selector.number) values) }
    ensures length { length out.new ≡ length out.old }
{
    let count = selector.count();
    if selector.number == 12 {
        return put_rows(values, count, selector.width(), 1, least, out, filled);
    }
    put_eights(values, selector, least, out, filled);
    out[filled + count - 1] + 1
}

/// The same for `count` values of `width` bits each, the first in the lowest bits, in `rows` rows of
/// four documents. What is read of more values adds so little that no lane passes 2^32.
#[inline(always)]
fn put_rows(
    values: u64,
    count: usize,
    width: u32,
    rows: usize,
    least: u32,
    out: &mut [u32],
    filled: usize,
) -> u32
    requires some { 0 < count }
    requires rows { count ≤ 4 * rows }
    requires width { width ≤ 30 }
    requires spare { (4 * rows - count) * 2 ^ width + (4 * rows - count) ≤ 3 * 2 ^ 30 + 3 }
    requires room { filled + 4 * rows ≤ length out.old }
    requires least { least ≤ MOST_DOCUMENTS }
    requires below { All (λ doc. doc < 2 * MOST_DOCUMENTS) (docs_from least (fields width count values)) }
    ensures docs { take (filled + count) out.new ≡ take filled out.old ++ docs_from least (fields width count values) }
    ensures next { result ≡ least_behind least (fields width count values) }
    ensures length { length out.new ≡ length out.old }
{
    let mut pair = u64x2::from_array([values, values >> width]);
    let mut first = u32x4::splat(least) + u32x4::from_array([0, 1, 2, 3]);
    for row in 0..rows {
        let sums = sums4(fields4(pair, width));
        (sums + first).copy_to_slice(&mut out[filled + 4 * row..]);
        first += sums.swizzle([3, 3, 3, 3]) + u32x4::splat(4);
        pair = behind4(pair, width);
    }
    out[filled + count - 1] + 1
}

/// The next four values, where those from the first and the second on are a pair.
#[inline(always)]
fn fields4(pair: u64x2, width: u32) -> u32x4
    requires width { width ≤ 30 }
    requires pair { (x : ℕ) × (pair ≡ x ∷ (x / 2 ^ width) ∷ []) }
    ensures { (x : ℕ) → pair ≡ x ∷ (x / 2 ^ width) ∷ [] → result ≡ fields width 4 x }
{
    let later = pair >> u64x2::splat(u64::from(2 * width));
    let mask = u64x2::splat((1 << width) - 1);
    let low = (pair & mask).cast::<u32>();
    let high = (later & mask).cast::<u32>();
    low.shuffle(high, [0, 1, 2, 3])
}

/// The pair behind the next four values.
#[inline(always)]
fn behind4(pair: u64x2, width: u32) -> u64x2
    requires width { width ≤ 30 }
    ensures { (x : ℕ) → pair ≡ x ∷ (x / 2 ^ width) ∷ []
        → result ≡ (x / 2 ^ width / 2 ^ width / 2 ^ width / 2 ^ width)
        ∷ (x / 2 ^ width / 2 ^ width / 2 ^ width / 2 ^ width / 2 ^ width) ∷ [] }
{
    let by = u64x2::splat(u64::from(2 * width));
    (pair >> by) >> by
}

/// The sums of one, two, three and four values.
#[inline(always)]
fn sums4(values: u32x4) -> u32x4
    ensures { (a b c d : ℕ) → values ≡ a ∷ b ∷ c ∷ d ∷ [] → a + b + c + d < 2 ^ 32
        → result ≡ a ∷ (a + b) ∷ (a + b + c) ∷ (a + b + c + d) ∷ [] }
{
    let zero = u32x4::splat(0);
    let pairs = values + values.shuffle(zero, [4, 0, 1, 2]);
    pairs + pairs.shuffle(zero, [4, 4, 0, 1])
}
