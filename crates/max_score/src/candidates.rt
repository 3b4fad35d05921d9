ghost use Rattle.std.specs.Prelude.{◌≡◌, ◌+◌, ◌<◌, ◌≤◌, ◌^◌, List, length, take, vec_capacity, slice_index, IfOk, ℕ};
ghost use Rattle.ranking_model.specs.Order.{sorted};
ghost use Rattle.ranking_model.specs.Scores.{first_ranked, rank_cmp};
ghost use Rattle.max_score.specs.Private.Standing.{Stands};
ghost use Rattle.max_score.specs.Private.Room.{HasRoom};
ghost use Rattle.max_score.specs.Private.Selecting.{HasFirst};

use jass_base::{Hit, NoMemory};
use std::alloc::Global;
use std::cmp::Reverse;
use std::mem::swap;

/// Documents met so far, among which are the first of them.
#[derive(Drop)]
pub struct Candidates {
    pub hits: Vec<Hit>,
    /// Where the first k are put while they are chosen; what it holds is left open.
    pub spare: Vec<Hit>,
    /// How many documents are asked for.
    pub k: usize,
    /// How many hits there is room for, more than k.
    pub room: usize,
    /// No later document with at most this score is among the first k.
    pub threshold: u32,
}

impl Candidates {
    /// No candidates, and room for more than k. No other call takes memory.
    pub fn new(alloc: Global, k: u32) -> Result<Candidates, NoMemory>
        requires { 1 ≤ k }
        ensures none { IfOk result (λ c. length c.hits.items ≡ 0) }
        ensures k { IfOk result (λ c. c.k ≡ k) }
        ensures threshold { IfOk result (λ c. c.threshold ≡ 0) }
        ensures room { IfOk result HasRoom }
    {
        let k = k as usize;
        let room = k + k / 2 + 8;
        let hits = Vec::with_capacity(alloc, room)?;
        let spare = Vec::with_capacity(alloc, room)?;
        Ok(Candidates {
            hits,
            spare,
            k,
            room,
            threshold: 0,
        })
    }

    /// Takes in a document, and keeps the first k alone where there is no room for one more.
    pub fn offer(&mut self, hit: Hit)
        requires room { HasRoom self.old }
        ensures stands { (scores : List ℕ) → Stands scores self.old.k hit.doc self.old.threshold self.old.hits.items →
            hit.doc < length scores → hit.score ≡ slice_index scores hit.doc → 1 ≤ hit.score →
            Stands scores self.new.k (hit.doc + 1) self.new.threshold self.new.hits.items }
        ensures k { self.new.k ≡ self.old.k }
        ensures room { HasRoom self.new }
    {
        self.hits.push_reserved(hit);
        if self.hits.len() == self.room {
            self.cut();
        }
    }

    /// Keeps the first k, of more, in no stated order.
    fn cut(&mut self)
        requires some { 1 ≤ self.old.k }
        requires more { self.old.k < length self.old.hits.items }
        requires spare { self.old.k ≤ vec_capacity self.old.spare }
        ensures stands { (scores : List ℕ) (doc : ℕ) →
            Stands scores self.old.k doc self.old.threshold self.old.hits.items →
            Stands scores self.new.k doc self.new.threshold self.new.hits.items }
        ensures k { self.new.k ≡ self.old.k }
        ensures size { self.new.room ≡ self.old.room }
        ensures room { vec_capacity self.old.spare ≤ vec_capacity self.new.hits }
        ensures spare { vec_capacity self.new.spare ≡ vec_capacity self.old.hits }
        ensures left { length self.new.hits.items ≡ self.old.k }
    {
        self.threshold = copy_first(&mut self.hits, self.k, &mut self.spare);
        swap(&mut self.hits, &mut self.spare);
    }

    /// Keeps the first k, in order.
    pub fn finish(&mut self)
        ensures first { (scores : List ℕ) →
            Stands scores self.old.k (length scores) self.old.threshold self.old.hits.items →
            self.new.hits.items ≡ first_ranked scores self.old.k }
        ensures k { self.new.k ≡ self.old.k }
    {
        rank(&mut self.hits);
        self.hits.truncate(self.k);
    }
}

/// Copies the first k hits, in no stated order, in place of what `first` holds. The answer is the score of the last of
/// them. The hits themselves are left in some order.
fn copy_first(hits: &mut Vec<Hit>, k: usize, first: &mut Vec<Hit>) -> u32
    requires some { 1 ≤ k }
    requires more { k < length hits.old.items }
    requires room { k ≤ vec_capacity first.old }
    ensures first { HasFirst hits.old.items first.new.items k result }
    ensures room { vec_capacity first.old ≤ vec_capacity first.new }
    ensures same { vec_capacity hits.new ≡ vec_capacity hits.old }
{
    first.clear();
    let (front, last, _) = hits.select_nth_unstable_by_key(
        k - 1,
        |hit| (Reverse(hit.score), hit.doc),
    );
    let last = *last;
    // There is room for them.
    let _ = first.extend_from_slice(front);
    first.push_reserved(last);
    last.score
}

fn rank(hits: &mut Vec<Hit>)
    ensures items { hits.new.items ≡ sorted rank_cmp hits.old.items }
    ensures room { vec_capacity hits.new ≡ vec_capacity hits.old }
{
    hits.sort_unstable_by_key(|hit| (Reverse(hit.score), hit.doc));
}
