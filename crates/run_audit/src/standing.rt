//! The first documents of some scores, without an order of the others.

ghost use Rattle.std.specs.Prelude.{◌≡◌, ◌+◌, ◌-◌, ◌*◌, ◌≤◌, ◌<◌, ◌^◌, length, take, IfOk};
ghost use Rattle.ranking_model.specs.Order.{sorted};
ghost use Rattle.ranking_model.specs.Scores.{hits_from, least_untouched, rank_cmp, standing_of};

use jass_base::{Hit, NoMemory, Row};
use ranking_model::Standing;
use std::alloc::Global;
use std::cmp::Ordering;

/// The first `k` documents of these scores, with those that come next to them. The hits are scratch space.
pub fn standing_of(
    alloc: Global,
    scores: &[u32],
    hits: &mut [Hit],
    k: usize,
) -> Result<Standing, NoMemory>
    requires documents { length scores.now ≤ 2 ^ 32 }
    requires room { length scores.now ≤ length hits.old }
    requires count { k < 2 ^ 32 }
    ensures standing { IfOk result (λ standing. standing ≡ standing_of scores.now k) }
    ensures room { length hits.new ≡ length hits.old }
{
    let count = note_hits(scores, hits);
    let mut first = first_of(alloc, &mut hits[..count], k + 1)?;
    let runner_up = first.as_slice().get(k).copied();
    first.truncate(k);
    Ok(Standing {
        hits: first,
        runner_up,
        least_untouched: least_untouched(scores),
    })
}

/// Writes the documents that have a score, and says how many they are.
fn note_hits(scores: &[u32], hits: &mut [Hit]) -> usize
    requires documents { length scores.now ≤ 2 ^ 32 }
    requires room { length scores.now ≤ length hits.old }
    ensures hits { take result hits.new ≡ hits_from 0 scores.now }
    ensures within { result ≤ length hits.new }
    ensures room { length hits.new ≡ length hits.old }
{
    let mut count = 0;
    for (doc, score) in scores.iter().enumerate() {
        // Each is written, so that nothing branches.
        hits[count] = Hit {
            doc: doc as u32,
            score: *score,
        };
        if *score != 0 {
            count += 1;
        }
    }
    count
}

/// The first `count` of some hits, in order. The hits themselves are lost.
fn first_of(alloc: Global, hits: &mut [Hit], count: usize) -> Result<Row<Hit>, NoMemory>
    ensures first { IfOk result (λ first. first ≡ take count (sorted rank_cmp hits.old)) }
    ensures room { length hits.new ≡ length hits.old }
{
    if count >= hits.len() {
        rank(hits);
        return copy_of(alloc, hits);
    }
    let (front, _, _) = hits.select_nth_unstable_by(count, rank_order);
    rank(front);
    copy_of(alloc, front)
}

fn copy_of(alloc: Global, hits: &[Hit]) -> Result<Row<Hit>, NoMemory>
    ensures { IfOk result (λ row. row ≡ hits.now) }
{
    let mut row = Row::with_room(alloc, hits.len())?;
    row.extend(hits)?;
    Ok(row)
}

/// Puts hits in order.
fn rank(hits: &mut [Hit])
    ensures { hits.new ≡ sorted rank_cmp hits.old }
{
    hits.sort_unstable_by(rank_order);
}

/// The order of hits. One number of each is compared, since two comparisons would branch.
fn rank_order(a: &Hit, b: &Hit) -> Ordering
    ensures { result ≡ rank_cmp a.now b.now }
{
    rank_key(a).cmp(&rank_key(b))
}

fn rank_key(hit: &Hit) -> u64
    ensures key { result ≡ (4294967295 - hit.now.score) * 4294967296 + hit.now.doc }
    ensures fits { (hit.now.doc < 4294967296) × (hit.now.score < 4294967296) }
{
    u64::from(u32::MAX - hit.score) * (1 << 32) + u64::from(hit.doc)
}

/// The least document without a score; none where every document has one.
fn least_untouched(scores: &[u32]) -> Option<u32>
    requires { length scores.now ≤ 2 ^ 32 }
    ensures { result ≡ least_untouched scores.now }
{
    match first_zero(scores) {
        Some(doc) => Some(doc as u32),
        None => None,
    }
}

fn first_zero(scores: &[u32]) -> Option<usize>
    ensures { result ≡ least_untouched scores.now }
{
    scores.iter().position(|score| *score == 0)
}
