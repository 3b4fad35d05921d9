ghost use Rattle.std.specs.Prelude.{◌≡◌, ◌<◌, ◌≤◌, ◌^◌, length, IfOk};
ghost use Rattle.ranking_model.specs.Scores.{least_untouched, standing_of};

use crate::rank::first_ranked;
use jass_base::{Hit, NoMemory, Row};
use std::alloc::Global;

/// The first documents of some scores, and the two that come next to them.
#[derive(Debug, Drop)]
pub struct Standing {
    pub hits: Row<Hit>,
    /// The hit that comes after the first k; none where at most k documents have a score.
    pub runner_up: Option<Hit>,
    /// The least document without a score; none where every document has one.
    pub least_untouched: Option<u32>,
}

/// The first `k` documents of these scores, with those that come next to them.
pub fn standing_of(alloc: Global, scores: &[u32], k: usize) -> Result<Standing, NoMemory>
    requires documents { length scores.now ≤ 2 ^ 32 }
    requires count { k < 2 ^ 32 }
    ensures { IfOk result (λ standing. standing ≡ standing_of scores.now k) }
{
    let mut hits = first_ranked(alloc, scores, k + 1)?;
    let runner_up = hits.as_slice().get(k).copied();
    hits.truncate(k);
    Ok(Standing {
        hits,
        runner_up,
        least_untouched: least_untouched(scores),
    })
}

fn least_untouched(scores: &[u32]) -> Option<u32>
    requires { length scores.now ≤ 2 ^ 32 }
    ensures { result ≡ least_untouched scores.now }
{
    for (doc, score) in scores.iter().enumerate() {
        if *score == 0 {
            return Some(doc as u32);
        }
    }
    None
}
