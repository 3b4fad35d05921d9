ghost use Rattle.std.specs.Prelude.{◌≡◌, ◌≤◌, ◌^◌, length, IfOk};
ghost use Rattle.ranking_model.specs.Order.{sorted};
ghost use Rattle.ranking_model.specs.Scores.{rank_cmp, hits_from, first_ranked};

use jass_base::{Hit, NoMemory, Row};
use std::alloc::Global;
use std::cmp::Reverse;

/// The first `count` documents by falling score, then rising number, without those of score 0.
/// The score of document d stands at place d.
pub fn first_ranked(alloc: Global, scores: &[u32], count: usize) -> Result<Row<Hit>, NoMemory>
    requires { length scores.now ≤ 2 ^ 32 }
    ensures { IfOk result (λ hits. hits ≡ first_ranked scores.now count) }
{
    let mut hits = hits_of(alloc, scores)?.into_vec();
    rank(&mut hits);
    let mut first = Row::from_vec(hits);
    first.truncate(count);
    Ok(first)
}

fn hits_of(alloc: Global, scores: &[u32]) -> Result<Row<Hit>, NoMemory>
    requires { length scores.now ≤ 2 ^ 32 }
    ensures { IfOk result (λ hits. hits ≡ hits_from 0 scores.now) }
{
    let mut hits = Row::new(alloc);
    for (doc, score) in scores.iter().enumerate() {
        if *score != 0 {
            let hit = Hit {
                doc: doc as u32,
                score: *score,
            };
            hits.push(hit).map_err(|refused| refused.1)?;
        }
    }
    Ok(hits)
}

fn rank(hits: &mut Vec<Hit>)
    ensures { hits.new.items ≡ sorted rank_cmp hits.old.items }
{
    hits.sort_unstable_by_key(|hit| (Reverse(hit.score), hit.doc));
}
