ghost use Rattle.std.specs.Prelude.{◌≡◌, ◌<◌, ◌≤◌, ◌^◌, ◌∷◌, ◌++◌, [], All, IsTrue, OnOk, OnErr, Some, length};
ghost use Rattle.std.specs.Prelude.{AllPairs, slice_get, slice_index_or};
ghost use Rattle.std.specs.Cmp.Lexicographic.{slice_cmp};
ghost use Rattle.std.specs.Ordering.{nat_cmp};
ghost use Rattle.jass_base.specs.Terms.{BytesRise};
ghost use Rattle.ciff_read.specs.Private.KeptEntries.{places_in, terms_in};
ghost use Rattle.ciff_read.specs.Seen.{is_seen};

use crate::kept_lists::ListPlace;
use jass_base::NoMemory;
use std::alloc::Global;
use std::cmp::Ordering;
use std::marker::Model;

/// The limit of lists; no file has so many.
const MOST_LISTS: usize = 1 << 32;

/// A list: where its term stands among the bytes of all terms, and the list's place.
#[derive(Clone, Copy)]
pub struct KeptTerm {
    pub from: usize,
    pub to: usize,
    pub place: ListPlace,
}

/// Lists in the order of the file, whose terms rise by their bytes.
#[derive(Drop)]
pub struct RisingLists {
    /// The terms one behind the other, so that none takes memory of its own.
    bytes: Vec<u8>,
    lists: Vec<KeptTerm>,
}

impl Model for RisingLists {
    ghost use Rattle.std.specs.Prelude.{ℕ, List};
    ghost use Rattle.ciff_read.specs.declared.kept_lists.ListPlace.{ListPlace};
    ghost use Rattle.ciff_read.specs.Private.RisingEntries.{AreRising, entries_at};

    ghost Value = { List (List ℕ × ListPlace) };

    ghost view = { λ r. entries_at r.bytes.items r.lists.items };

    ghost invariant = { λ r. AreRising r.bytes.items r.lists.items };
}

impl RisingLists {
    /// No lists yet.
    pub fn new(alloc: Global) -> RisingLists
        ensures { result ≡ [] }
    {
        RisingLists {
            bytes: Vec::new(alloc),
            lists: Vec::new(alloc),
        }
    }

    /// How many these are.
    pub fn len(&self) -> usize
        ensures len { result ≡ length self.now }
        ensures few { result ≤ 2 ^ 32 }
        ensures rises { AllPairs BytesRise (terms_in self.now) }
    {
        self.lists.len()
    }

    /// Whether the term is greater than that of each list.
    pub fn are_before(&self, term: &str) -> bool
        ensures { IsTrue result → All (λ t. BytesRise t term.now) (terms_in self.now) }
    {
        let len = self.len();
        if len == 0 {
            return true;
        }
        self.order(len - 1, term).is_lt()
    }

    /// Whether one of the lists has the term.
    pub fn has(&self, term: &str) -> bool
        ensures { result ≡ is_seen term.now (terms_in self.now) }
    {
        // In most files each term is greater than those before it.
        if self.are_before(term) {
            return false;
        }
        let mut from = 0;
        let mut to = self.len();
        'halves: while from < to {
            let middle = from + (to - from) / 2;
            match self.order(middle, term) {
                Ordering::Less => from = middle + 1,
                Ordering::Equal => return true,
                Ordering::Greater => to = middle,
            }
        }
        false
    }

    /// How the term of one of the lists compares with a term.
    fn order(&self, index: usize, term: &str) -> Ordering
        requires { index < length self.now }
        ensures { result ≡ slice_cmp nat_cmp (slice_index_or (terms_in self.now) index []) term.now }
    {
        let list = self.lists[index];
        self.bytes[list.from..list.to].cmp(term.as_bytes())
    }

    /// The place of one of the lists.
    pub fn place(&self, index: usize) -> ListPlace
        requires { index < length self.now }
        ensures { slice_get (places_in self.now) index ≡ Some result }
    {
        self.lists[index].place
    }

    /// Keeps one list more, whose term is greater than the others.
    pub fn push(&mut self, term: &str, place: ListPlace) -> Result<(), NoMemory>
        requires { All (λ t. BytesRise t term.now) (terms_in self.old) }
        ensures ok { OnOk result (self.new ≡ self.old ++ (term.now, place) ∷ []) }
        ensures err { OnErr result (self.new ≡ self.old) }
    {
        if self.lists.len() >= MOST_LISTS {
            return Err(NoMemory);
        }
        let from = self.bytes.len();
        self.bytes.extend_from_slice(term.as_bytes())?;
        let to = self.bytes.len();
        match self.lists.push(KeptTerm { from, to, place }) {
            Ok(()) => {}
            // The bytes stay behind the others, and are no list's.
            Err(_) => return Err(NoMemory),
        }
        Ok(())
    }
}
