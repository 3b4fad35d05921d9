ghost use Rattle.std.specs.Prelude.{◌≡◌, ◌≤◌, ◌<◌, ◌^◌, length};
ghost use Rattle.ranking_model.specs.Plan.{size_of_first, prefix_within, weight_at, cutoff_after, next_after};

use crate::plan_segment::PlanSegment;

/// The number of postings of the first `count` segments.
pub fn size_of_first(count: usize, segments: &[PlanSegment]) -> u64
    requires within { count ≤ length segments.now }
    requires fits { size_of_first (length segments.now) segments.now < 2 ^ 64 }
    ensures { result ≡ size_of_first count segments.now }
{
    let mut size: u64 = 0;
    for segment in &segments[..count] {
        size += segment.docs.len() as u64;
    }
    size
}

/// How many segments from the front on the budget pays for. It stops before the first that doesn't
/// fit, even where a later one would.
pub fn prefix_within(budget: u64, segments: &[PlanSegment]) -> usize
    ensures prefix { result ≡ prefix_within budget segments.now }
    ensures within { result ≤ length segments.now }
{
    let mut left = budget;
    for (count, segment) in segments.iter().enumerate() {
        let size = segment.docs.len() as u64;
        if left < size {
            return count;
        }
        left -= size;
    }
    segments.len()
}

/// The weight of the last of the first `count` segments; 0 where `count` is 0.
pub fn cutoff_after(count: usize, segments: &[PlanSegment]) -> u32
    ensures { result ≡ cutoff_after count segments.now }
{
    if count == 0 {
        0
    } else {
        weight_at(count - 1, segments)
    }
}

/// The weight of the segment after the first `count`; 0 where there is none.
pub fn next_after(count: usize, segments: &[PlanSegment]) -> u32
    ensures { result ≡ next_after count segments.now }
{
    weight_at(count, segments)
}

fn weight_at(at: usize, segments: &[PlanSegment]) -> u32
    ensures { result ≡ weight_at at segments.now }
{
    match segments.get(at) {
        Some(segment) => segment.weight,
        None => 0,
    }
}
