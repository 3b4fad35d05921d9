ghost use Rattle.std.specs.Prelude.{◌≡◌, ◌+◌, ◌≤◌, [], ◌++◌, codes, decimal, length, take};

use crate::parts::{put_byte, put_number, put_text};
use std::marker::Model;

/// The most bytes of a short text.
const ROOM: usize = 64;

/// A text of few bytes in a row of fixed size, of which the half or all is copied: such a copy takes a few moves and no
/// call. Contracts see it as its list.
#[derive(Drop)]
pub struct ShortText {
    bytes: [u8; ROOM],
    len: usize,
}

impl Model for ShortText {
    ghost use Rattle.std.specs.Prelude.{List, ℕ, take, ◌≤◌};

    ghost Value = { List ℕ };

    ghost view = { λ t. take t.len t.bytes };

    ghost invariant = { λ t. t.len ≤ 64 };
}

impl ShortText {
    pub fn new() -> ShortText
        ensures { result ≡ [] }
    {
        ShortText {
            bytes: [0; ROOM],
            len: 0,
        }
    }

    pub(crate) fn len(&self) -> usize
        ensures count { result ≡ length self.now }
        ensures few { result ≤ 64 }
    {
        self.len
    }

    /// The text and the rest of its row.
    pub(crate) fn row(&self) -> &[u8; ROOM]
        ensures { take (length self.now) result.now ≡ self.now }
    {
        &self.bytes
    }

    /// Puts bytes for which there is room behind the others.
    pub fn push(&mut self, bytes: &[u8])
        requires { length self.old + length bytes.now ≤ 64 }
        ensures { self.new ≡ self.old ++ bytes.now }
    {
        self.len = put_text(&mut self.bytes, self.len, bytes);
    }

    /// Becomes a blank, a number and a text of at most 53 bytes. The row is written where it stands, and not cleared before.
    #[inline(always)]
    pub fn set_numbered(&mut self, number: u32, text: &ShortText)
        requires { length text.now ≤ 53 }
        ensures { self.new ≡ codes " " ++ (decimal number ++ text.now) }
    {
        let row = &mut self.bytes;
        let at = put_byte(row, 0, b' ');
        let numbered = put_number(row, at, u64::from(number));
        self.len = put_text(row, numbered, &text.row()[..text.len()]);
    }
}
