ghost use Rattle.std.specs.Prelude.{◌≡◌, ℕ, ◌+◌, ◌<◌, ◌≤◌, List, [], length, map, take, vec_capacity, IfOk};
ghost use Rattle.std.specs.Prelude.{slice_get, slice_index};
ghost use Rattle.std.specs.Option.{option_map};
ghost use Rattle.jass_base.specs.declared.limits.TheConstants.{MOST_HITS};
ghost use Rattle.ranking_model.specs.Scores.{first_ranked, hits_from};
ghost use Rattle.certain_hits.specs.Private.Room.{HasRoom};
ghost use Rattle.certain_hits.specs.Private.Foremost.{Holds, HasFirst};
ghost use Rattle.certain_hits.specs.Private.Reach.{hit_of};

use jass_base::NoMemory;
use std::alloc::Global;
use std::cmp::Reverse;
use std::mem::swap;

/// What a document may reach.
#[derive(Clone, Copy)]
pub struct Reach {
    pub doc: u32,
    pub reach: u64,
}

/// The first of reaches that come by rising document.
#[derive(Drop)]
pub struct Foremost {
    pub kept: Vec<Reach>,
    /// Where the first are put while they are chosen; what it holds is left open.
    pub spare: Vec<Reach>,
    /// How many are asked for.
    pub count: usize,
    /// How many there is room for, more than are asked for.
    pub room: usize,
    /// Nobody who comes later with at most so much is among the first.
    pub floor: u64,
}

impl Foremost {
    /// Nothing, and room for more than `count`. No other call takes memory.
    pub fn new(alloc: Global, count: usize) -> Result<Foremost, NoMemory>
        requires some { 1 ≤ count }
        requires few { count ≤ MOST_HITS + 1 }
        ensures count { IfOk result (λ f. f.count ≡ count) }
        ensures room { IfOk result HasRoom }
    {
        let room = count + count / 2 + 8;
        let kept = Vec::with_capacity(alloc, room)?;
        let spare = Vec::with_capacity(alloc, room)?;
        Ok(Foremost {
            kept,
            spare,
            count,
            room,
            floor: 0,
        })
    }

    /// Forgets all that came.
    pub fn clear(&mut self)
        requires room { HasRoom self.old }
        ensures holds { Holds self.new.count self.new.floor (map hit_of self.new.kept.items) [] }
        ensures count { self.new.count ≡ self.old.count }
        ensures room { HasRoom self.new }
    {
        self.kept.clear();
        self.floor = 0;
    }

    /// Takes in the next document, and keeps the first alone where there is no room for one more.
    pub fn offer(&mut self, next: Reach)
        requires room { HasRoom self.old }
        ensures holds { (scores : List ℕ) → next.doc < length scores → next.reach ≡ slice_index scores next.doc →
            Holds self.old.count self.old.floor (map hit_of self.old.kept.items)
            (hits_from 0 (take next.doc scores)) →
            Holds self.new.count self.new.floor (map hit_of self.new.kept.items)
            (hits_from 0 (take (next.doc + 1) scores)) }
        ensures count { self.new.count ≡ self.old.count }
        ensures room { HasRoom self.new }
    {
        if next.reach <= self.floor {
            return;
        }
        self.kept.push_reserved(next);
        if self.kept.len() == self.room {
            let last = self.cut();
            self.floor = last.reach;
        }
    }

    /// The last of the first, where so many came.
    pub fn last(&mut self) -> Option<Reach>
        requires room { HasRoom self.old }
        ensures last { (scores : List ℕ) (k : ℕ) → self.old.count ≡ k + 1 →
            Holds self.old.count self.old.floor (map hit_of self.old.kept.items) (hits_from 0 scores) →
            option_map hit_of result ≡ slice_get (first_ranked scores (k + 1)) k }
        ensures count { self.new.count ≡ self.old.count }
        ensures room { HasRoom self.new }
    {
        if self.kept.len() < self.count {
            return None;
        }
        Some(self.cut())
    }

    /// Keeps the first, in no stated order, and answers the last of them.
    fn cut(&mut self) -> Reach
        requires some { 1 ≤ self.old.count }
        requires more { self.old.count ≤ length self.old.kept.items }
        requires room { self.old.count < self.old.room }
        requires within { self.old.room ≤ vec_capacity self.old.kept }
        requires spare { self.old.room ≤ vec_capacity self.old.spare }
        ensures first { HasFirst (map hit_of self.old.kept.items) (map hit_of self.new.kept.items)
            self.old.count (hit_of result) }
        ensures count { self.new.count ≡ self.old.count }
        ensures floor { self.new.floor ≡ self.old.floor }
        ensures room { HasRoom self.new }
    {
        let last = copy_first(&mut self.kept, self.count, &mut self.spare);
        swap(&mut self.kept, &mut self.spare);
        last
    }
}

/// Copies the first of all, in no stated order, in place of what `first` holds, and answers the last of them. All are
/// left in some order.
fn copy_first(all: &mut Vec<Reach>, count: usize, first: &mut Vec<Reach>) -> Reach
    requires some { 1 ≤ count }
    requires more { count ≤ length all.old.items }
    requires room { count ≤ vec_capacity first.old }
    ensures first { HasFirst (map hit_of all.old.items) (map hit_of first.new.items) count (hit_of result) }
    ensures room { vec_capacity first.old ≤ vec_capacity first.new }
    ensures same { vec_capacity all.new ≡ vec_capacity all.old }
    ensures left { length first.new.items ≡ count }
{
    first.clear();
    let (front, last, _) = all.select_nth_unstable_by_key(
        count - 1,
        |reach| (Reverse(reach.reach), reach.doc),
    );
    let last = *last;
    // There is room for them.
    let _ = first.extend_from_slice(front);
    first.push_reserved(last);
    last
}
