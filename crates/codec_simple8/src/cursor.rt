ghost use Rattle.std.specs.Prelude.{◌≡◌, ℕ, ◌+◌, ◌<◌, ◌≤◌, List};
ghost use Rattle.jass_base.specs.Codecs.{GivesAll, HandsOver};
ghost use Rattle.codec_simple8.specs.Cursor.{Gives};
ghost use Rattle.codec_simple8.specs.Private.Cursor.{Moved};
ghost use Rattle.codec_simple8.specs.Simple8.{simple8_of};

use crate::rows::put_fields;
use crate::selector::Selector;
use crate::word::word_at;

/// The most documents of a word whose gaps have bits.
const MOST: usize = 60;

/// The documents of a payload, block by block. It holds no bytes: each call passes the same ones.
#[derive(Clone, Copy, Debug)]
pub struct Cursor {
    // the place of the next word
    at: usize,
    // how many documents the words from there on have
    left: u32,
    // the least that the next document can be
    least: u32,
    // how many gaps of 0 come before the next word
    zeros: u32,
}

impl Cursor {
    /// A cursor over the payload of `count` documents, in an index of `d` documents.
    #[inline(always)]
    pub fn new(count: u32, d: u32) -> Cursor
        ensures { GivesAll Gives simple8_of d count result }
    {
        Cursor {
            at: 0,
            left: count,
            least: 0,
            zeros: 0,
        }
    }

    /// Writes the next documents to the front of `out` and returns how many there are: 1 to 128,
    /// and 0 exactly at the end. What stands behind them in `out` is left open.
    pub fn next_block(&mut self, bytes: &[u8], out: &mut [u32; 128]) -> usize
        requires stands { (docs : List ℕ) × Gives self.old bytes.now docs }
        ensures { HandsOver Gives self.old self.new bytes.now out.new result }
    {
        if self.left == 1 && self.zeros == 0 {
            self.put_last(bytes, out);
            return 1;
        }
        let mut filled = self.put_zeros(out, 0);
        while self.left > 0 && filled <= 128 - MOST {
            filled = self.put_word(bytes, out, filled);
        }
        filled
    }

    /// Writes the one document that is left: most segments have no other.
    #[inline(always)]
    fn put_last(&mut self, bytes: &[u8], out: &mut [u32; 128])
        requires stands { (docs : List ℕ) × Gives self.old bytes.now docs }
        requires zeros { self.old.zeros ≡ 0 }
        requires last { self.old.left ≡ 1 }
        ensures { Moved self.old self.new bytes.now 0 1 out.old out.new }
    {
        let doc = self.least + (word_at(bytes, self.at) / 16) as u32;
        out[0] = doc;
        *self = Cursor {
            at: self.at + 8,
            left: 0,
            least: doc + 1,
            zeros: 0,
        };
    }

    /// Reads a word, and writes its documents, or as many of them as there is room for, where all
    /// its gaps are 0.
    #[inline(always)]
    fn put_word(&mut self, bytes: &[u8], out: &mut [u32; 128], filled: usize) -> usize
        requires stands { (docs : List ℕ) × Gives self.old bytes.now docs }
        requires zeros { self.old.zeros ≡ 0 }
        requires some { 0 < self.old.left }
        requires room { filled ≤ 68 }
        ensures moved { Moved self.old self.new bytes.now filled result out.old out.new }
        ensures left { self.new.left < self.old.left }
        ensures more { filled < result }
    {
        let word = word_at(bytes, self.at);
        let selector = Selector::of(word);
        let count = selector.count();
        self.at += 8;
        self.left -= count as u32;
        if selector.number < 2 {
            self.zeros = count as u32;
            return self.put_zeros(out, filled);
        }
        self.least = put_fields(word / 16, selector, self.least, out, filled);
        filled + count
    }

    /// Writes documents for the gaps of 0 that are held, as many as there is room for.
    #[inline(always)]
    fn put_zeros(&mut self, out: &mut [u32; 128], filled: usize) -> usize
        requires stands { (bytes docs : List ℕ) × Gives self.old bytes docs }
        requires room { filled ≤ 128 }
        ensures moved { (bytes : List ℕ) → Moved self.old self.new bytes filled result out.old out.new }
        ensures left { self.new.left ≡ self.old.left }
        ensures more { 0 < self.old.zeros → filled < 128 → filled < result }
    {
        if self.zeros == 0 {
            return filled;
        }
        let count = self.zeros.min((128 - filled) as u32);
        let least = self.least;
        for i in 0..count {
            out[filled + i as usize] = least + i;
        }
        self.zeros -= count;
        self.least += count;
        filled + count as usize
    }
}
