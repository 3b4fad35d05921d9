ghost use Rattle.std.specs.Prelude.{◌≤◌, ◌<◌};
ghost use Rattle.index_file.specs.Places.{texts_of};

use crate::file::IndexFile;
use crate::samples::first_eight;
use jass_base::Lexicon;
use std::cmp::Ordering;

impl Lexicon for IndexFile {
    ghost terms = { λ file. texts_of file.index.terms };

    fn find(&self, term: &[u8]) -> Option<u32> {
        self.is_checked();
        let first = first_eight(term);
        let mut from = 0;
        let mut to = self.terms();
        'halves: while from < to {
            let middle = middle_of(from, to);
            match self.order(middle, term, first) {
                Ordering::Less => from = middle + 1,
                Ordering::Equal => return Some(middle),
                Ordering::Greater => to = middle,
            }
        }
        None
    }
}

/// A number near the middle, that of a sampled term where there is one on the left of it.
fn middle_of(from: u32, to: u32) -> u32
    requires { from < to }
    ensures from { from ≤ result }
    ensures to { result < to }
{
    let middle = from + (to - from) / 2;
    let sampled = middle / 64 * 64;
    if sampled >= from { sampled } else { middle }
}
