ghost use Rattle.std.specs.Prelude.{◌≡◌, ◌-◌, ◌<◌, ◌≤◌, ◌++◌, [], ◌∷◌, length, IfOk};
ghost use Rattle.accumulator_pages.specs.Adding.{crossed};

use jass_base::{Hit, NoMemory};
use std::alloc::Global;
use std::marker::Model;

/// Documents that passed a hit, in a room of fixed size.
#[derive(Drop)]
pub struct Reached {
    docs: Vec<u32>,
}

impl Model for Reached {
    ghost use Rattle.std.specs.Prelude.{vec_capacity};
    ghost use Rattle.accumulator_pages.specs.Reached.{ReachedView};

    ghost Value = { ReachedView };

    ghost view = { λ r. record { docs = r.docs.items; room = vec_capacity r.docs } };
}

impl Reached {
    /// Room for so many documents. No other call takes memory.
    pub fn new(alloc: Global, room: usize) -> Result<Reached, NoMemory>
        ensures docs { IfOk result (λ reached. reached.docs ≡ []) }
        ensures room { IfOk result (λ reached. reached.room ≡ room) }
    {
        match Vec::with_capacity(alloc, room) {
            Ok(docs) => Ok(Reached { docs }),
            Err(_) => Err(NoMemory),
        }
    }

    /// The documents noted since the last `clear`, in the order in which they came.
    pub fn as_slice(&self) -> &[u32]
        ensures docs { result.now ≡ self.now.docs }
        ensures within { length result.now ≤ self.now.room }
    {
        self.docs.as_slice()
    }

    /// Forgets all documents.
    pub fn clear(&mut self)
        ensures docs { self.new.docs ≡ [] }
        ensures room { self.new.room ≡ self.old.room }
    {
        self.docs.clear();
    }

    /// Notes a document whose score has risen by a weight to `score`, where it passed a hit by that. Any score passes
    /// document 0 with score 0.
    pub fn note(&mut self, doc: u32, score: u32, w: u32, last: Hit)
        requires room { length self.old.docs < self.old.room }
        requires rose { w ≤ score }
        ensures docs { self.new.docs ≡ self.old.docs ++ crossed doc (score - w) score last }
        ensures room { self.new.room ≡ self.old.room }
    {
        // Below the hit's score this wraps to a number above any weight, and above it before the weight was added too
        // it is more than the weight.
        let above = score.wrapping_sub(last.score);
        if above > w {
            return;
        }
        let passes = if doc < last.doc { above < w } else { above > 0 };
        if passes {
            self.docs.push_reserved(doc);
        }
    }

    /// Notes a document for which there is room.
    pub fn push(&mut self, doc: u32)
        requires { length self.old.docs < self.old.room }
        ensures docs { self.new.docs ≡ self.old.docs ++ doc ∷ [] }
        ensures room { self.new.room ≡ self.old.room }
    {
        self.docs.push_reserved(doc);
    }
}
