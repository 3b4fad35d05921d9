ghost use Rattle.std.specs.Prelude.{ℕ, ◌≡◌, ◌==◌, ◌||◌, [], OnOk};
ghost use Rattle.ciff_read.specs.Marks.{is_marked};

use jass_base::NoMemory;
use std::alloc::Global;

/// A set of document numbers: one bit for each, up to the greatest.
#[derive(Drop)]
pub struct DocSet {
    pub words: Vec<u64>,
}

impl DocSet {
    /// No numbers yet.
    pub fn new(alloc: Global) -> DocSet
        ensures { result.words.items ≡ [] }
    {
        DocSet {
            words: Vec::new(alloc),
        }
    }

    /// Whether the number is in the set.
    pub fn contains(&self, doc: u32) -> bool
        ensures { result ≡ is_marked self.now.words.items doc }
    {
        let place = (doc / 64) as usize;
        place < self.words.len() && (self.words[place] >> (doc % 64)) & 1 == 1
    }

    /// Puts the number into the set.
    pub fn insert(&mut self, doc: u32) -> Result<(), NoMemory>
        ensures { OnOk result ((n : ℕ) → is_marked self.new.words.items n
            ≡ (n == doc || is_marked self.old.words.items n)) }
    {
        let place = (doc / 64) as usize;
        'reaching: while self.words.len() <= place {
            self.words.push(0)?;
        }
        self.words[place] |= 1 << (doc % 64);
        Ok(())
    }
}
