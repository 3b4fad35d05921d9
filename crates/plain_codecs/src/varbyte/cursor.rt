ghost use Rattle.std.specs.Prelude.{ℕ, ◌≡◌, List, length, take, drop};
ghost use Rattle.jass_base.specs.Codecs.{GivesAll, HandsOver};
ghost use Rattle.plain_codecs.specs.Varbyte.{varbyte_of};
ghost use Rattle.plain_codecs.specs.VarbyteCursor.{Gives};

use crate::varbyte::runs::{docs_of_gaps, read_run};
use jass_base::{known_gap, laws};

/// Where a reader of a payload stands. It holds no bytes: they are given at each call.
#[derive(Clone, Copy, Debug)]
pub struct Cursor {
    // the place of the next gap
    at: usize,
    // the documents that are left
    left: u32,
    // the least that the next document may be
    least: u32,
}

impl Cursor {
    /// A cursor in front of the payload of `count` documents, in an index of d documents.
    #[inline]
    pub fn new(count: u32, d: u32) -> Cursor
        ensures { GivesAll Gives varbyte_of d count result }
    {
        laws::gaps_and_docs_are_inverse();
        laws::gaps_of_docs();
        laws::docs_of_gaps();
        Cursor {
            at: 0,
            left: count,
            least: 0,
        }
    }

    /// Writes the next documents of the payload to the front of `out`, and returns how many
    /// they are: 128, or those that are left. None are left exactly where the answer is 0.
    /// What stands behind them in `out` is left open. `bytes` is the payload that the cursor
    /// was made for, at each call.
    pub fn next_block(&mut self, bytes: &[u8], out: &mut [u32; 128]) -> usize
        requires stands { (docs : List ℕ) × Gives self.old bytes.now docs }
        ensures { HandsOver Gives self.old self.new bytes.now out.new result }
    {
        laws::docs_of_gaps();
        if self.left == 1 {
            return self.last(bytes, out);
        }
        let count = self.left.min(128);
        self.at = read_run(bytes, self.at, count as usize, out);
        self.least = docs_of_gaps(self.least, count as usize, out);
        self.left -= count;
        count as usize
    }

    /// The last document, which is the only one of most segments.
    #[inline(always)]
    fn last(&mut self, bytes: &[u8], out: &mut [u32; 128]) -> usize
        requires one { self.old.left ≡ 1 }
        requires stands { (docs : List ℕ) × Gives self.old bytes.now docs }
        ensures one { result ≡ 1 }
        ensures block { (docs : List ℕ) → Gives self.old bytes.now docs → take 1 out.new ≡ take 1 docs }
        ensures rest { (docs : List ℕ) → Gives self.old bytes.now docs → Gives self.new bytes.now (drop 1 docs) }
        ensures more { (docs : List ℕ) → Gives self.old bytes.now docs → length docs ≡ 1 }
    {
        laws::gap_varints_are_read();
        let (gap, next) = known_gap(bytes, self.at);
        let doc = self.least + gap;
        out[0] = doc;
        *self = Cursor {
            at: next,
            left: 0,
            least: doc + 1,
        };
        1
    }
}
