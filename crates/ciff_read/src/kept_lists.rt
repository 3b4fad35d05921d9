ghost use Rattle.std.specs.Prelude.{◌≡◌, ◌<◌, ◌∷◌, [], ◌++◌, false, not, length, Some, IfSome, IsSome, IsTrue, OnOk, OnErr};
ghost use Rattle.std.specs.Prelude.{slice_get};
ghost use Rattle.std.specs.List.Sorted.{IsStrictlyIncreasing};
ghost use Rattle.ciff_read.specs.KeptEntries.{kept_as};
ghost use Rattle.ciff_read.specs.Private.KeptEntries.{places_in};
ghost use Rattle.ciff_read.specs.Private.Reached.{RisesBehind};
ghost use Rattle.ciff_read.specs.KeptLists.{entries_in, kept_in};
ghost use Rattle.ciff_read.specs.Walk.{HasKept, IsGiven};
ghost use Rattle.ciff_read.specs.Pieces.{terms_kept, places_kept};
ghost use Rattle.ciff_read.specs.Seen.{is_seen};

use crate::rising_lists::RisingLists;
use indexmap::IndexMap;
use jass_base::NoMemory;
use std::alloc::Global;

/// Where a list stands in a file, and how many postings it has.
#[derive(Clone, Copy)]
pub struct ListPlace {
    pub at: u64,
    pub count: u32,
}

/// The lists of a file that were given, by their terms and in the order of the file.
#[derive(Drop)]
pub struct KeptLists {
    /// The first lists, as far as each has a greater term than the one before.
    pub rising: RisingLists,
    /// The lists behind them.
    pub hashed: IndexMap<String, ListPlace>,
}

impl KeptLists {
    /// No lists yet.
    pub fn new(alloc: Global) -> KeptLists
        ensures { kept_in result ≡ [] }
    {
        KeptLists {
            rising: RisingLists::new(alloc),
            hashed: IndexMap::new(alloc),
        }
    }

    /// Whether no list of the term was given; and whether this is told by its being greater than the
    /// term of each list that was, which also rise. So it is in most files.
    pub fn judge(&self, term: &str) -> (bool, bool)
        ensures new { result.0 ≡ not (is_seen term.now (terms_kept (kept_in self.now))) }
        ensures rises { IsTrue result.1 → RisesBehind self.now term.now }
    {
        if self.rises(term) {
            return (true, true);
        }
        (!self.has(term), false)
    }

    /// Whether the terms of all lists rise, and then this one.
    fn rises(&self, term: &str) -> bool
        ensures rises { IsTrue result → RisesBehind self.now term.now }
        ensures new { IsTrue result → is_seen term.now (terms_kept (kept_in self.now)) ≡ false }
    {
        if self.hashed.is_empty() {
            return self.rising.are_before(term);
        }
        false
    }

    /// Whether a list of the term was given.
    fn has(&self, term: &str) -> bool
        ensures { result ≡ is_seen term.now (terms_kept (kept_in self.now)) }
    {
        if self.rising.has(term) {
            return true;
        }
        // Where all terms rise, none is hashed.
        if self.hashed.is_empty() {
            return false;
        }
        self.hashed.contains_key(term)
    }

    /// How many lists were given.
    pub fn len(&self) -> usize
        ensures { result ≡ length (kept_in self.now) }
    {
        self.rising.len() + self.hashed.len()
    }

    /// The number of postings of a list that was given, by its place, where the places rise, and which of
    /// the lists it is. Lists are mostly read again in their order: `guess` is looked at before the others.
    pub fn count_at(&self, at: u64, guess: usize) -> (u32, usize)
        requires rising { IsStrictlyIncreasing (places_kept (kept_in self.now)) }
        requires given { IsGiven (kept_in self.now) at }
        ensures count { HasKept (kept_in self.now) at result.0 }
        ensures within { result.1 < length (kept_in self.now) }
    {
        match self.guessed(at, guess) {
            Some(count) => (count, guess),
            None => self.found(at),
        }
    }

    /// The number of postings of one of the lists, where it is the one at a place.
    fn guessed(&self, at: u64, guess: usize) -> Option<u32>
        ensures count { IfSome result (HasKept (kept_in self.now) at) }
        ensures within { IsSome result → guess < length (kept_in self.now) }
    {
        if guess >= self.len() {
            return None;
        }
        let list = self.place(guess);
        if list.at == at {
            Some(list.count)
        } else {
            None
        }
    }

    /// The number of postings of the list at a place, and which of the lists it is.
    fn found(&self, at: u64) -> (u32, usize)
        requires rising { IsStrictlyIncreasing (places_kept (kept_in self.now)) }
        requires given { IsGiven (kept_in self.now) at }
        ensures count { HasKept (kept_in self.now) at result.0 }
        ensures within { result.1 < length (kept_in self.now) }
    {
        let mut low = 0;
        let mut high = self.len() - 1;
        while low < high {
            let middle = high - (high - low) / 2;
            if self.place(middle).at <= at {
                low = middle;
            } else {
                high = middle - 1;
            }
        }
        (self.place(low).count, low)
    }

    /// The place of one of the lists.
    fn place(&self, index: usize) -> ListPlace
        requires { index < length (kept_in self.now) }
        ensures { slice_get (places_in (entries_in self.now)) index ≡ Some result }
    {
        let first = self.rising.len();
        if index < first {
            return self.rising.place(index);
        }
        self.hashed[index - first]
    }

    /// Keeps one list more, whose term is new. Where it is told to rise, it isn't compared again.
    pub fn add(
        &mut self,
        alloc: Global,
        term: &str,
        place: ListPlace,
        rises: bool,
    ) -> Result<(), NoMemory>
        requires new { is_seen term.now (terms_kept (kept_in self.old)) ≡ false }
        requires rises { IsTrue rises → RisesBehind self.old term.now }
        ensures ok { OnOk result (kept_in self.new ≡ kept_in self.old ++ kept_as term.now place ∷ []) }
        ensures err { OnErr result (kept_in self.new ≡ kept_in self.old) }
    {
        if rises {
            return self.rising.push(term, place);
        }
        let Ok(term) = String::from_str(alloc, term) else {
            return Err(NoMemory);
        };
        match self.hashed.insert(term, place) {
            Ok(_) => {}
            Err(_) => return Err(NoMemory),
        }
        Ok(())
    }
}
