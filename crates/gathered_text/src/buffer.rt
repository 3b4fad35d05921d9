ghost use Rattle.std.specs.Prelude.{◌≡◌, ◌+◌, ◌≤◌, ◌<◌, [], ◌∷◌, ◌++◌, codes, length, decimal, drop};
ghost use Rattle.gathered_text.specs.declared.buffer.TheConstants.{PIECE, ROOM};

use crate::parts::{put_byte, put_number, put_short, put_text};
use crate::short_text::ShortText;
use std::marker::Model;

/// The size of the pieces that go to a sink. Where they begin at multiples of it, no page of a file is written in two
/// parts, and a system takes many pages at once.
pub(crate) const PIECE: usize = 131_072;

/// The room for gathered bytes: a piece, and the 16 KiB for which a block of run lines asks. A call that asks for more
/// puts all that was gathered.
pub const ROOM: usize = 147_456;

/// Bytes on their way to a sink, for one text or many: `flush` puts the last of them. Contracts see it as their list.
#[derive(Drop)]
pub struct Buffer {
    bytes: [u8; ROOM],
    len: usize,
    /// How far the first of these bytes stands behind a multiple of a piece, counted from the first byte that was put.
    /// Untold once a put failed.
    phase: usize,
}

impl Model for Buffer {
    ghost use Rattle.std.specs.Prelude.{List, ℕ, take, ◌≤◌, ◌<◌};
    ghost use Rattle.gathered_text.specs.declared.buffer.TheConstants.{PIECE, ROOM};

    ghost Value = { List ℕ };

    ghost view = { λ b. take b.len b.bytes };

    ghost invariant = { λ b. (b.len ≤ ROOM) × (b.phase < PIECE) };
}

impl Buffer {
    pub fn new() -> Buffer
        ensures { result ≡ [] }
    {
        Buffer {
            bytes: [0; ROOM],
            len: 0,
            phase: 0,
        }
    }

    /// How many bytes there is room for.
    pub fn room(&self) -> usize
        ensures { result + length self.now ≡ ROOM }
    {
        ROOM - self.len
    }

    pub fn as_slice(&self) -> &[u8]
        ensures { result.now ≡ self.now }
    {
        &self.bytes[..self.len]
    }

    pub(crate) fn clear(&mut self)
        ensures { self.new ≡ [] }
    {
        self.phase = (self.phase + self.len) % PIECE;
        self.len = 0;
    }

    /// Takes bytes into account that go to the sink past the buffer, when it is empty.
    pub(crate) fn pass(&mut self, count: usize)
        ensures { self.new ≡ self.old }
    {
        self.phase = (self.phase + count % PIECE) % PIECE;
    }

    /// How many bytes from the front on end at the last multiple of a piece that lies behind some of them; 0 where none
    /// does. Fewer than a piece stand behind them.
    pub(crate) fn whole_pieces(&self) -> usize
        ensures within { result ≤ length self.now }
        ensures near { length self.now < result + PIECE }
    {
        self.len.saturating_sub((self.phase + self.len) % PIECE)
    }

    /// Forgets so many bytes from the front on; the others move there.
    pub(crate) fn drop_front(&mut self, count: usize)
        requires { count ≤ length self.old }
        ensures { self.new ≡ drop count self.old }
    {
        self.bytes.copy_within(count..self.len, 0);
        self.phase = (self.phase + count) % PIECE;
        self.len -= count;
    }

    /// Puts bytes for which there is room behind the others.
    #[inline(always)]
    pub fn push(&mut self, bytes: &[u8])
        requires { length self.old + length bytes.now ≤ ROOM }
        ensures { self.new ≡ self.old ++ bytes.now }
    {
        self.len = put_text(&mut self.bytes, self.len, bytes);
    }

    /// Puts a byte for which there is room behind the others.
    pub fn push_byte(&mut self, byte: u8)
        requires { length self.old < ROOM }
        ensures { self.new ≡ self.old ++ byte ∷ [] }
    {
        self.len = put_byte(&mut self.bytes, self.len, byte);
    }

    /// Puts a line's parts behind the others: a short text, a text, a blank, a number and a short text. The length is
    /// stored once, since each store of it would have to be waited for. Beside the text it has to find room for 149
    /// bytes: two rows of 64, a blank and 20 digits.
    #[inline(always)]
    pub fn push_line(&mut self, front: &ShortText, text: &[u8], number: u64, ending: &ShortText)
        requires { length self.old + length text.now + 149 ≤ ROOM }
        ensures line { self.new ≡ self.old ++ (front.now ++ (text.now ++ (codes " "
            ++ (decimal number ++ ending.now)))) }
        ensures few { length self.new ≤ length self.old + length text.now + 149 }
    {
        let room = &mut self.bytes;
        let named = put_short(room, self.len, front);
        let parted = put_text(room, named, text);
        let numbered = put_byte(room, parted, b' ');
        let ended = put_number(room, numbered, number);
        self.len = put_short(room, ended, ending);
    }
}
