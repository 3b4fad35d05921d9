ghost use Rattle.std.specs.Prelude.{◌≡◌, ◌<◌, ◌++◌, [], ◌∷◌, IfOk, length, take};
ghost use Rattle.ranking_model.specs.Order.{sorted};
ghost use Rattle.ranking_model.specs.Scores.{rank_cmp};
ghost use Rattle.topk_heap.specs.Private.Rows.{rank_key, with_score};

use crate::counting::rank_by_counting;
use jass_base::{Hit, NoMemory};
use std::alloc::Global;
use std::cmp::Ordering;
use std::marker::Model;

/// From so many hits on, counting passes are quicker than a sort by comparisons.
const MANY: usize = 256;

/// Hits in a room of fixed size.
#[derive(Drop)]
pub struct Hits {
    row: Vec<Hit>,
    aside: Vec<Hit>,
}

impl Model for Hits {
    ghost use Rattle.std.specs.Prelude.{vec_capacity};
    ghost use Rattle.topk_heap.specs.Hits.{HitsView};

    ghost Value = { HitsView };

    ghost view = { λ h. record { hits = h.row.items; room = vec_capacity h.row } };
}

impl Hits {
    /// Room for so many hits, and aside for `few` more: where there are more than these, `keep_first` selects up to so
    /// many before it puts them in order. No other call takes memory.
    pub fn new(alloc: Global, room: usize, few: usize) -> Result<Hits, NoMemory>
        ensures hits { IfOk result (λ hits. hits.hits ≡ []) }
        ensures room { IfOk result (λ hits. hits.room ≡ room) }
    {
        let row = Vec::with_capacity(alloc, room)?;
        let aside = blank_row(alloc, few)?;
        Ok(Hits { row, aside })
    }

    /// How many hits there are.
    pub fn len(&self) -> usize
        ensures { result ≡ length self.now.hits }
    {
        self.row.len()
    }

    /// The hits.
    pub fn as_slice(&self) -> &[Hit]
        ensures { result.now ≡ self.now.hits }
    {
        self.row.as_slice()
    }

    /// Forgets all hits.
    pub fn clear(&mut self)
        ensures hits { self.new.hits ≡ [] }
        ensures room { self.new.room ≡ self.old.room }
    {
        self.row.clear();
    }

    /// Puts a hit behind the others.
    pub fn push(&mut self, hit: Hit)
        requires { length self.old.hits < self.old.room }
        ensures hits { self.new.hits ≡ self.old.hits ++ hit ∷ [] }
        ensures room { self.new.room ≡ self.old.room }
    {
        self.row.push_reserved(hit);
    }

    /// Changes the score of one hit.
    pub fn set_score(&mut self, index: usize, score: u32)
        requires { index < length self.old.hits }
        ensures hits { self.new.hits ≡ with_score self.old.hits index score }
        ensures room { self.new.room ≡ self.old.room }
    {
        let doc = self.row[index].doc;
        self.row[index] = Hit { doc, score };
    }

    /// Keeps the first `count` hits by falling score, then rising document, in this order.
    pub fn keep_first(&mut self, count: usize)
        ensures hits { self.new.hits ≡ take count (sorted rank_cmp self.old.hits) }
        ensures room { self.new.room ≡ self.old.room }
    {
        rank_first(&mut self.row, count, &mut self.aside);
        self.row.truncate(count);
    }
}

fn blank_row(alloc: Global, len: usize) -> Result<Vec<Hit>, NoMemory>
    ensures { IfOk result (λ row. length row.items ≡ len) }
{
    vec![in alloc; Hit { doc: 0, score: 0 }; len].map_err(|_| NoMemory)
}

/// Puts the first of the hits in order in front of the others.
fn rank_first(hits: &mut [Hit], count: usize, aside: &mut [Hit])
    ensures front { take count hits.new ≡ take count (sorted rank_cmp hits.old) }
    ensures len { length hits.new ≡ length hits.old }
    ensures aside { length aside.new ≡ length aside.old }
{
    // Where few of the hits go, a selection saves nothing.
    if count <= aside.len() && aside.len() < hits.len() {
        select_first(hits, &mut aside[..count]);
        hits[..count].copy_from_slice(&aside[..count]);
    } else {
        rank(hits, aside);
    }
}

/// Writes the first of the hits to `first`, in order. The hits themselves are lost: nothing tells what a selection
/// leaves.
fn select_first(hits: &mut [Hit], first: &mut [Hit])
    requires { length first.old < length hits.old }
    ensures first { first.new ≡ take (length first.old) (sorted rank_cmp hits.old) }
    ensures len { length hits.new ≡ length hits.old }
{
    let (front, _, _) = hits.select_nth_unstable_by(first.len(), rank_order);
    rank(front, first);
    first.copy_from_slice(front);
}

/// Puts hits in order.
fn rank(hits: &mut [Hit], aside: &mut [Hit])
    ensures hits { hits.new ≡ sorted rank_cmp hits.old }
    ensures aside { length aside.new ≡ length aside.old }
{
    let count = hits.len();
    // Places of counting passes have 32 bits.
    if MANY <= count && count <= aside.len() && count <= u32::MAX as usize {
        rank_by_counting(hits, &mut aside[..count]);
    } else {
        rank_by_comparing(hits);
    }
}

fn rank_by_comparing(hits: &mut [Hit])
    ensures { hits.new ≡ sorted rank_cmp hits.old }
{
    hits.sort_unstable_by(rank_order);
}

/// The order of hits. One number of each is compared, since two comparisons would branch.
fn rank_order(a: &Hit, b: &Hit) -> Ordering
    ensures { result ≡ rank_cmp a.now b.now }
{
    rank_key(a).cmp(&rank_key(b))
}

/// The number of a hit is less than that of another exactly where the hit is ahead.
pub fn rank_key(hit: &Hit) -> u64
    ensures key { result ≡ rank_key hit.now }
    ensures fits { (hit.now.doc < 4294967296) × (hit.now.score < 4294967296) }
{
    u64::from(u32::MAX - hit.score) * (1 << 32) + u64::from(hit.doc)
}
