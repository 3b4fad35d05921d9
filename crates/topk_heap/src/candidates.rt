ghost use Rattle.std.specs.Prelude.{◌≡◌, ℕ, ◌+◌, ◌<◌, ◌≤◌, ◌++◌, [], ◌∷◌, IfOk, IsPermutation, Some, length, map};
ghost use Rattle.std.specs.Prelude.{slice_get, slice_index, take};
ghost use Rattle.ranking_model.specs.Order.{sorted};
ghost use Rattle.ranking_model.specs.Scores.{rank_cmp};
ghost use Rattle.topk_heap.specs.Hits.{hit_docs};
ghost use Rattle.topk_heap.specs.Private.Rows.{doc_of_key, hit_of_key};

use crate::hits::rank_key;
use accumulator_pages::Reached;
use jass_base::{Hit, NoMemory};
use std::alloc::Global;
use std::marker::Model;

/// Hits that the first are selected from, in a room of fixed size. Each stands as the number that it is sorted by: to
/// compare two of them is to compare two numbers.
#[derive(Drop)]
pub struct Candidates {
    keys: Vec<u64>,
}

impl Model for Candidates {
    ghost use Rattle.std.specs.Prelude.{vec_capacity};
    ghost use Rattle.topk_heap.specs.Hits.{HitsView};
    ghost use Rattle.topk_heap.specs.Private.Rows.{keys_view};

    ghost Value = { HitsView };

    ghost view = { λ c. keys_view c.keys.items (vec_capacity c.keys) };
}

impl Candidates {
    /// Room for so many hits. No other call takes memory.
    pub fn new(alloc: Global, room: usize) -> Result<Candidates, NoMemory>
        ensures hits { IfOk result (λ candidates. candidates.hits ≡ []) }
        ensures room { IfOk result (λ candidates. candidates.room ≡ room) }
    {
        match Vec::with_capacity(alloc, room) {
            Ok(keys) => Ok(Candidates { keys }),
            Err(_) => Err(NoMemory),
        }
    }

    /// Forgets all hits.
    pub fn clear(&mut self)
        ensures hits { self.new.hits ≡ [] }
        ensures room { self.new.room ≡ self.old.room }
    {
        self.keys.clear();
    }

    /// Puts a hit behind the others.
    pub fn push(&mut self, hit: Hit)
        requires { length self.old.hits < self.old.room }
        ensures hits { self.new.hits ≡ self.old.hits ++ hit ∷ [] }
        ensures room { self.new.room ≡ self.old.room }
    {
        self.keys.push_reserved(rank_key(&hit));
    }

    /// Leaves noted, in no stated order, the documents of the first n hits by falling score, then rising document, and
    /// of the hit after them, and answers this hit, if there is one. The hits themselves are lost.
    pub fn select(&mut self, n: usize, noted: &mut Reached) -> Option<Hit>
        requires { length self.old.hits ≤ noted.old.room }
        ensures hit { result ≡ slice_get (sorted rank_cmp self.old.hits) n }
        ensures docs { IsPermutation (hit_docs (take (n + 1) (sorted rank_cmp self.old.hits))) noted.new.docs }
        ensures notes { noted.new.room ≡ noted.old.room }
        ensures room { self.new.room ≡ self.old.room }
    {
        noted.clear();
        if n >= self.keys.len() {
            note_docs(self.keys.as_slice(), noted);
            return None;
        }
        let key = select_key(&mut self.keys, n, noted);
        Some(hit_of_key(key))
    }
}

/// The number after the first n by size, which are noted with it.
fn select_key(keys: &mut [u64], n: usize, noted: &mut Reached) -> u64
    requires some { n < length keys.old }
    requires none { noted.old.docs ≡ [] }
    requires room { length keys.old ≤ noted.old.room }
    ensures key { slice_get (sorted rank_cmp (map hit_of_key keys.old)) n ≡ Some (hit_of_key result) }
    ensures docs { IsPermutation (hit_docs (take (n + 1) (sorted rank_cmp (map hit_of_key keys.old)))) noted.new.docs }
    ensures notes { noted.new.room ≡ noted.old.room }
    ensures len { length keys.new ≡ length keys.old }
{
    numbers_fit(keys);
    let (front, key, _) = keys.select_nth_unstable(n);
    note_docs(front, noted);
    noted.push(doc_of_key(*key));
    *key
}

/// Notes the documents of the hits that are sorted by some numbers.
fn note_docs(keys: &[u64], noted: &mut Reached)
    requires { length noted.old.docs + length keys.now ≤ noted.old.room }
    ensures docs { noted.new.docs ≡ noted.old.docs ++ map doc_of_key keys.now }
    ensures room { noted.new.room ≡ noted.old.room }
{
    for key in keys {
        noted.push(doc_of_key(*key));
    }
}

/// Numbers of 64 bits are below 2^64.
fn numbers_fit(keys: &[u64])
    ensures { (i : ℕ) → slice_index keys.now i < 18446744073709551616 }
{
    let _ = keys;
}

/// The hit that is sorted by a number.
fn hit_of_key(key: u64) -> Hit
    ensures { result ≡ hit_of_key key }
{
    Hit {
        doc: doc_of_key(key),
        score: u32::MAX - (key / (1 << 32)) as u32,
    }
}

/// The document of the hit that is sorted by a number.
fn doc_of_key(key: u64) -> u32
    ensures { result ≡ doc_of_key key }
{
    (key % (1 << 32)) as u32
}
