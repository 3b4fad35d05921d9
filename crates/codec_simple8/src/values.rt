// The documents of a word.
ghost use Rattle.std.specs.Prelude.{◌≡◌, ◌+◌, ◌<◌, ◌≤◌, ◌++◌, All, length, take};
ghost use Rattle.jass_base.specs.Gaps.{docs_from};
ghost use Rattle.codec_simple8.specs.Simple8.{count_of, fields, least_behind, width_of};
ghost use Rattle.jass_base.specs.declared.limits.TheConstants.{MOST_DOCUMENTS};

use crate::selector::Selector;

/// Writes the documents of a word's gaps behind the first `filled` of a block, the first document
/// at least `least`, and returns the least that may follow.
#[inline(always)]
#[tactic(auto, unfolding(crate::specs::Simple8::count_of, crate::specs::Simple8::width_of))]
pub(crate) fn put_gaps(
    values: u64,
    selector: Selector,
    least: u32,
    out: &mut [u32],
    filled: usize,
) -> u32
    requires room { filled + count_of selector.number ≤ length out.old }
    requires least { least ≤ MOST_DOCUMENTS }
    requires below { All (λ doc. doc < MOST_DOCUMENTS)
        (docs_from least (fields (width_of selector.number) (count_of selector.number) values)) }
    ensures docs { take (filled + count_of selector.number) out.new ≡ take filled out.old
        ++ docs_from least (fields (width_of selector.number) (count_of selector.number) values) }
    ensures next { result
        ≡ least_behind least (fields (width_of selector.number) (count_of selector.number) values) }
    ensures length { length out.new ≡ length out.old }
{
    // Each selector is compiled on its own, so that its count and its shifts are constants.
    match selector.number {
        0 => put_values(values, 240, 0, least, out, filled),
        1 => put_values(values, 120, 0, least, out, filled),
        2 => put_values(values, 60, 1, least, out, filled),
        3 => put_values(values, 30, 2, least, out, filled),
        4 => put_values(values, 20, 3, least, out, filled),
        5 => put_values(values, 15, 4, least, out, filled),
        6 => put_values(values, 12, 5, least, out, filled),
        7 => put_values(values, 10, 6, least, out, filled),
        8 => put_values(values, 8, 7, least, out, filled),
        9 => put_values(values, 7, 8, least, out, filled),
        10 => put_values(values, 6, 10, least, out, filled),
        11 => put_values(values, 5, 12, least, out, filled),
        12 => put_values(values, 4, 15, least, out, filled),
        13 => put_values(values, 3, 20, least, out, filled),
        14 => put_values(values, 2, 30, least, out, filled),
        _ => put_values(values, 1, 60, least, out, filled),
    }
}

/// The same for `count` values of `width` bits each, the first in the lowest bits.
#[inline(always)]
fn put_values(
    values: u64,
    count: usize,
    width: u32,
    least: u32,
    out: &mut [u32],
    filled: usize,
) -> u32
    requires width { width < 64 }
    requires room { filled + count ≤ length out.old }
    requires least { least ≤ MOST_DOCUMENTS }
    requires below { All (λ doc. doc < MOST_DOCUMENTS) (docs_from least (fields width count values)) }
    ensures docs { take (filled + count) out.new ≡ take filled out.old ++ docs_from least (fields width count values) }
    ensures next { result ≡ least_behind least (fields width count values) }
    ensures length { length out.new ≡ length out.old }
{
    let mask = (1u64 << width) - 1;
    let mut rest = values;
    let mut next = least;
    for i in 0..count {
        let doc = next + (rest & mask) as u32;
        out[filled + i] = doc;
        next = doc + 1;
        rest >>= width;
    }
    next
}
