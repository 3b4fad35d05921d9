ghost use Rattle.std.specs.Prelude.{◌≡◌, ◌<◌, ◌≤◌, ◌^◌, length, if◌then◌else◌};
ghost use Rattle.sharp_bounds.specs.Marks.{has_place, unseen_sum};

/// What a document with this mask may still gain: the sum of the next weights of the terms whose bits the mask hasn't.
/// `weights` has the next weight of each term of the query, by its place.
pub fn unseen_sum(mask: u64, weights: &[u32]) -> u64
    requires { length weights.now ≤ 64 }
    ensures { result ≡ unseen_sum mask weights.now }
{
    let mut sum: u64 = 0;
    for place in 0..weights.len() {
        sum += unseen_weight(mask, place as u32, weights[place]);
    }
    sum
}

/// The weight of a term whose bit a mask hasn't, and 0 where it has the bit.
fn unseen_weight(mask: u64, place: u32, weight: u32) -> u64
    requires { place < 64 }
    ensures weight { result ≡ if has_place mask place then 0 else weight }
    ensures small { result < 2 ^ 32 }
{
    let bit = (mask >> place) & 1;
    if bit == 1 { 0 } else { u64::from(weight) }
}
