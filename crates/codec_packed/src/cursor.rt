ghost use Rattle.std.specs.Prelude.{◌≡◌, ℕ, ◌+◌, ◌*◌, ◌<◌, ◌≤◌, List, [], take, drop};
ghost use Rattle.jass_base.specs.Codecs.{GivesAll, HandsOver};
ghost use Rattle.codec_packed.specs.Giving.{Gives};
ghost use Rattle.codec_packed.specs.Packing.{packed_of};

use crate::block::BLOCK;
use crate::laws::blocks_keep_their_gaps;
use jass_base::known_gap;
use jass_base::laws::gap_varints_are_read;
use lane_kernels::{running128, unpack128};

/// How far a payload has been read. It holds no bytes: each call is passed the same payload.
#[derive(Clone, Copy)]
pub struct Cursor {
    at: usize,
    least: u32,
    left: u32,
}

impl Cursor {
    /// A cursor at the first of `count` documents below `d`.
    pub fn new(count: u32, d: u32) -> Cursor
        ensures { GivesAll Gives packed_of d count result }
    {
        let _ = d;
        Cursor {
            at: 0,
            least: 0,
            left: count,
        }
    }

    /// Writes the next documents to the front of `out`, and returns how many: 1 to 128, or 0 at the
    /// end. What stands behind them in `out` is left open.
    pub fn next_block(&mut self, bytes: &[u8], out: &mut [u32; 128]) -> usize
        requires stands { (docs : List ℕ) × Gives self.old bytes.now docs }
        ensures { HandsOver Gives self.old self.new bytes.now out.new result }
    {
        if self.left >= 128 {
            self.full_block(bytes, out);
            BLOCK
        } else {
            self.last_gaps(bytes, out)
        }
    }

    fn full_block(&mut self, bytes: &[u8], out: &mut [u32; 128])
        requires stands { (docs : List ℕ) × Gives self.old bytes.now docs }
        requires full { 128 ≤ self.old.left }
        ensures block { (docs : List ℕ) → Gives self.old bytes.now docs → out.new ≡ take 128 docs }
        ensures rest { (docs : List ℕ) → Gives self.old bytes.now docs → Gives self.new bytes.now (drop 128 docs) }
    {
        blocks_keep_their_gaps();
        let width = bytes[self.at];
        let start = self.at + 1;
        let end = start + 16 * usize::from(width);
        unpack128(&bytes[start..end], width, out);
        running128(self.least, out);
        self.at = end;
        self.least = out[127] + 1;
        self.left -= 128;
    }

    fn last_gaps(&mut self, bytes: &[u8], out: &mut [u32; 128]) -> usize
        requires stands { (docs : List ℕ) × Gives self.old bytes.now docs }
        requires few { self.old.left < 128 }
        ensures count { result ≡ self.old.left }
        ensures block { (docs : List ℕ) → Gives self.old bytes.now docs → take result out.new ≡ docs }
        ensures rest { (docs : List ℕ) → Gives self.old bytes.now docs → Gives self.new bytes.now [] }
    {
        gap_varints_are_read();
        let count = self.left as usize;
        for i in 0..count {
            let (gap, behind) = known_gap(bytes, self.at);
            let doc = self.least + gap;
            out[i] = doc;
            self.at = behind;
            self.least = doc + 1;
            self.left -= 1;
        }
        count
    }
}
