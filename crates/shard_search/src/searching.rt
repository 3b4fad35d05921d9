ghost use Rattle.std.specs.Prelude.{◌≡◌, ◌≤◌, ◌<◌, ◌+◌, ◌^◌, length};
ghost use Rattle.std.specs.Ordering.{nat_cmp};
ghost use Rattle.std.specs.Cmp.Lexicographic.{slice_cmp};
ghost use Rattle.index_file.specs.Places.{term_at, texts_of};
ghost use Rattle.shard_search.specs.Union.{union_index};

use crate::joining::text_of;
use crate::shards::Shards;
use index_file::{NamedSource, Source};
use jass_base::Lexicon;
use std::cmp::Ordering;

impl Shards {
    /// How a term of the union stands to a text.
    fn order(&self, t: u32, text: &[u8]) -> Ordering
        requires { t < length (union_index self.now).terms }
        ensures { result ≡ slice_cmp nat_cmp (term_at (union_index self.now).terms t) text.now }
    {
        let row = self.table.terms.as_slice()[t as usize];
        text_of(self.parts.as_slice(), row).as_bytes().cmp(text)
    }
}

impl Lexicon for Shards {
    ghost terms = { λ shards. texts_of (union_index shards).terms };

    fn find(&self, term: &[u8]) -> Option<u32> {
        self.is_searchable();
        let mut from = 0;
        let mut to = self.terms;
        'halves: while from < to {
            let middle = middle_of(from, to);
            match self.order(middle, term) {
                Ordering::Less => from = middle + 1,
                Ordering::Equal => return Some(middle),
                Ordering::Greater => to = middle,
            }
        }
        None
    }
}

/// The number in the middle.
fn middle_of(from: u32, to: u32) -> u32
    requires { from < to }
    ensures from { from ≤ result }
    ensures to { result < to }
    ensures next { result + 1 < 2 ^ 32 }
{
    from + (to - from) / 2
}

impl NamedSource for Shards {
    fn tells_its_index(&self) {}
}
