ghost use Rattle.std.specs.Prelude.{◌≡◌, ◌<◌, ◌≤◌, take, length, false, ◌+◌, IfOk, nat_eq};
ghost use Rattle.std.specs.Str.Lines.{strip_carriage_return};
ghost use Rattle.jass_base.specs.Outside.{HasCause};
ghost use Rattle.feed_lines.specs.Waiting.{Fills, FirstEnd, nothing_yet, passed_to};

use crate::filled::Filled;
use crate::held::Held;
use jass_base::{Feed, NoMemory, ReadFault};
use memchr::memchr;
use std::alloc::Global;
use std::marker::Model;

/// The lines of an input, as far as it was taken. Each ends by LF (byte 10), and behind the last LF the bytes up to the
/// end of the input are a line too. There is room for 1,048,578 bytes: a line of 1,048,576 bytes with a CR (byte 13)
/// and its LF. Of a line that has no LF within that room the front is dropped while it is read; `is_long` tells so.
///
/// Contracts see it as the bytes that wait, whether the line that they begin has lost bytes, and how many bytes may
/// still be taken.
#[derive(Drop)]
pub struct FeedLines {
    held: Held,
    long: bool,
    left: u64,
}

impl Model for FeedLines {
    ghost use Rattle.std.specs.Prelude.{length, ◌≤◌};
    ghost use Rattle.feed_lines.specs.Waiting.{Waiting};

    ghost Value = { Waiting };

    ghost view = { λ f. record { bytes = f.held; long = f.long; left = f.left } };

    ghost invariant = { λ f. length f.held ≤ 1048578 };
}

impl FeedLines {
    /// Takes the memory for one line, 1,048,578 bytes; no other call takes any. All calls of `fill` together take at
    /// most `limit` bytes from the input; 0 lets none be taken. `NoMemory` where the memory is refused.
    pub fn new(alloc: Global, limit: u64) -> Result<FeedLines, NoMemory>
        ensures { IfOk result (λ lines. lines ≡ nothing_yet limit) }
    {
        Ok(FeedLines {
            held: Held::new(alloc)?,
            long: false,
            left: limit,
        })
    }

    /// Where the first line that waits ends: the place of its LF, counted in bytes from 0 at the first byte that waits.
    /// `None` where no LF waits.
    pub fn end_of_line(&self) -> Option<usize>
        ensures { FirstEnd self.now.bytes result }
    {
        memchr(b'\n', self.held.as_slice())
    }

    /// The bytes that wait before `end`, without the one CR that may stand last among them. `end` is what `end_of_line`
    /// gave, or any place up to the number of bytes that wait. Of a line that has lost bytes these are the last.
    pub fn line(&self, end: usize) -> &[u8]
        requires { end ≤ length self.now.bytes }
        ensures { result.now ≡ strip_carriage_return (take end self.now.bytes) }
    {
        match &self.held.as_slice()[..end] {
            [front @ .., b'\r'] => front,
            line => line,
        }
    }

    /// Whether no byte waits. This can be so within a line that has lost bytes, too, where `is_long` is true.
    pub fn is_empty(&self) -> bool
        ensures { result ≡ nat_eq (length self.now.bytes) 0 }
    {
        self.held.as_slice().is_empty()
    }

    /// All that waits, without one CR at its end: behind the last LF of an input this is a line too.
    pub fn rest(&self) -> &[u8]
        ensures { result.now ≡ strip_carriage_return self.now.bytes }
    {
        match self.held.as_slice() {
            [front @ .., b'\r'] => front,
            line => line,
        }
    }

    /// Whether the line that waits has lost bytes. Such a line has more than 1,048,576 bytes without its CR and LF; one
    /// of 1,048,577 bytes and no CR has lost none, and waits whole.
    pub fn is_long(&self) -> bool
        ensures { result ≡ self.now.long }
    {
        self.long
    }

    /// Drops the bytes before `end` and the one at it: a line and its LF, where `end` is what `end_of_line` gave. The
    /// line behind them has lost no bytes.
    pub fn pass(&mut self, end: usize)
        requires { end < length self.old.bytes }
        ensures { self.new ≡ passed_to end self.old }
    {
        self.held.drop_front(end + 1);
        self.long = false;
    }

    /// Takes more bytes from the input by one read of it, at most as many as there is room for and as `limit` still
    /// lets. All that waits is dropped first where the line has lost bytes or fills the room of 1,048,578 bytes, so it
    /// is called where no LF waits. `ReadFault` where the read failed; nothing was taken then. Once `limit` bytes were
    /// taken it gives `Filled::Limit` and doesn't touch the input, also at the end of that.
    pub fn fill<I: Feed>(&mut self, input: &mut I) -> Result<Filled, ReadFault>
        ensures fills { Fills (I.left input.old) (I.left input.new) self.old self.new result }
        ensures cause { HasCause (I.faults input.old) (I.faults input.new) result }
    {
        if self.left == 0 {
            return Ok(Filled::Limit);
        }
        if self.long || self.held.is_full() {
            self.held.clear();
            self.long = true;
        }
        match self.held.read(input, self.left) {
            Ok(0) => Ok(Filled::End),
            Ok(count) => {
                self.left -= count as u64;
                Ok(Filled::More)
            }
            Err(_) => Err(ReadFault),
        }
    }
}
