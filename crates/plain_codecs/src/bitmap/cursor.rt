ghost use Rattle.std.specs.Prelude.{ℕ, List};
ghost use Rattle.jass_base.specs.Codecs.{GivesAll, HandsOver};
ghost use Rattle.plain_codecs.specs.Bitmap.{bitmap_of};
ghost use Rattle.plain_codecs.specs.BitmapCursor.{Gives};

use crate::bitmap::laws::bits_are_documents;
use lane_kernels::bits_to_docs;
use lane_kernels::laws::set_bits_rise;

/// Where a reader of a payload stands. It holds no bytes: they are given at each call.
#[derive(Clone, Copy, Debug)]
pub struct Cursor {
    // the place of the next byte
    at: usize,
}

impl Cursor {
    /// A cursor in front of the payload of `count` documents, in an index of d documents.
    #[inline]
    pub fn new(count: u32, d: u32) -> Cursor
        ensures { GivesAll Gives (bitmap_of d) d count result }
    {
        bits_are_documents();
        Cursor { at: 0 }
    }

    /// Writes the next documents of the payload to the front of `out`, and returns how many
    /// they are, 128 at most. None are left exactly where the answer is 0. What stands behind
    /// them in `out` is left open. `bytes` is the payload that the cursor was made for, at
    /// each call.
    pub fn next_block(&mut self, bytes: &[u8], out: &mut [u32; 128]) -> usize
        requires stands { (docs : List ℕ) × Gives self.old bytes.now docs }
        ensures { HandsOver Gives self.old self.new bytes.now out.new result }
    {
        set_bits_rise();
        while self.at < bytes.len() {
            let end = (self.at + 16).min(bytes.len());
            let count = bits_to_docs(&bytes[self.at..end], 8 * self.at as u32, out);
            self.at = end;
            if count > 0 {
                return count;
            }
        }
        0
    }
}
