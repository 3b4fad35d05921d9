//! Bytes on their way to a file, which go there in pieces.

ghost use Rattle.std.specs.Prelude.{ℕ, ◌≡◌, ◌+◌, ◌≤◌, List, [], ◌++◌, length, false};
ghost use Rattle.index_write.specs.Private.Pieces.{Adds, IsSent, with_more};
ghost use Rattle.index_write.specs.declared.pieces.TheConstants.{ROOM};

use jass_base::Cabinet;
use std::marker::Model;

/// The room for bytes that wait.
const ROOM: usize = 65_536;

/// Bytes that wait to be written, and whether a write failed: from then on none is tried, so that
/// only the end asks.
#[derive(Drop)]
pub struct Pieces {
    bytes: [u8; ROOM],
    len: usize,
    failed: bool,
}

impl Model for Pieces {
    ghost use Rattle.std.specs.Prelude.{take, ◌≤◌};
    ghost use Rattle.index_write.specs.Private.Pieces.{Waiting};
    ghost use Rattle.index_write.specs.declared.pieces.TheConstants.{ROOM};

    ghost Value = { Waiting };

    ghost view = { λ p. record { bytes = take p.len p.bytes; failed = p.failed } };

    ghost invariant = { λ p. p.len ≤ ROOM };
}

impl Pieces {
    pub fn new() -> Pieces
        ensures bytes { result.bytes ≡ [] }
        ensures failed { result.failed ≡ false }
    {
        Pieces {
            bytes: [0; ROOM],
            len: 0,
            failed: false,
        }
    }

    pub fn failed(&self) -> bool
        ensures { result ≡ self.now.failed }
    {
        self.failed
    }

    fn as_slice(&self) -> &[u8]
        ensures { result.now ≡ self.now.bytes }
    {
        &self.bytes[..self.len]
    }

    /// How many bytes there is room for.
    fn room(&self) -> usize
        ensures { result + length self.now.bytes ≡ ROOM }
    {
        ROOM - self.len
    }

    /// Puts bytes for which there is room behind the others.
    #[inline(always)]
    fn push(&mut self, bytes: &[u8])
        requires { length self.old.bytes + length bytes.now ≤ ROOM }
        ensures { self.new ≡ with_more self.old bytes.now }
    {
        let end = self.len + bytes.len();
        self.bytes[self.len..end].copy_from_slice(bytes);
        self.len = end;
    }

    /// No bytes wait any longer.
    fn clear(&mut self, failed: bool)
        ensures bytes { self.new.bytes ≡ [] }
        ensures failed { self.new.failed ≡ failed }
    {
        self.len = 0;
        self.failed = failed;
    }
}

/// Makes a file empty. The answer is whether that failed.
pub fn create<C: Cabinet>(files: &mut C, name: &str) -> bool
    ensures { IsSent C.Cabinet files.old files.new name.now result [] }
{
    match files.create(name) {
        Ok(()) => false,
        Err(_) => true,
    }
}

/// Appends bytes to a file, unless writing it failed before. The answer is whether it failed.
pub fn append<C: Cabinet>(bytes: &[u8], failed: bool, files: &mut C, name: &str) -> bool
    ensures { (start : C) (text : List ℕ) → IsSent C.Cabinet start files.old name.now failed text
        → IsSent C.Cabinet start files.new name.now result (text ++ bytes.now) }
{
    if failed {
        return true;
    }
    match files.append(name, bytes) {
        Ok(()) => false,
        Err(_) => true,
    }
}

/// Sends what waits to the file.
pub fn send<C: Cabinet>(pieces: &mut Pieces, files: &mut C, name: &str)
    ensures same { Adds C.Cabinet files.old files.new name.now pieces.old pieces.new [] }
    ensures none { pieces.new.bytes ≡ [] }
{
    let failed = append(pieces.as_slice(), pieces.failed(), files, name);
    pieces.clear(failed);
}

/// Sends what waits to the file, and then bytes.
fn send_behind<C: Cabinet>(bytes: &[u8], pieces: &mut Pieces, files: &mut C, name: &str)
    ensures adds { Adds C.Cabinet files.old files.new name.now pieces.old pieces.new bytes.now }
    ensures none { pieces.new.bytes ≡ [] }
{
    send(pieces, files, name);
    let failed = append(bytes, pieces.failed(), files, name);
    pieces.clear(failed);
}

/// Makes room for so many bytes.
#[inline(always)]
fn make_room<C: Cabinet>(count: usize, pieces: &mut Pieces, files: &mut C, name: &str)
    requires { count ≤ ROOM }
    ensures same { Adds C.Cabinet files.old files.new name.now pieces.old pieces.new [] }
    ensures room { length pieces.new.bytes + count ≤ ROOM }
{
    if count <= pieces.room() {
        return;
    }
    send(pieces, files, name);
}

/// Puts few bytes behind those that wait. Inlined, so that a fixed number of them is copied by a few
/// moves and no call.
#[inline(always)]
pub fn put<C: Cabinet>(bytes: &[u8], pieces: &mut Pieces, files: &mut C, name: &str)
    requires { length bytes.now ≤ ROOM }
    ensures { Adds C.Cabinet files.old files.new name.now pieces.old pieces.new bytes.now }
{
    make_room(bytes.len(), pieces, files, name);
    pieces.push(bytes);
}

/// Puts a text of any length behind four bytes. A text that finds no room in all of it goes to the
/// file at once.
pub fn put_text<C: Cabinet>(
    head: &[u8; 4],
    text: &[u8],
    pieces: &mut Pieces,
    files: &mut C,
    name: &str,
)
    ensures { Adds C.Cabinet files.old files.new name.now pieces.old pieces.new (head.now ++ text.now) }
{
    if text.len() > ROOM - 4 {
        put(head, pieces, files, name);
        send_behind(text, pieces, files, name);
        return;
    }
    make_room(4 + text.len(), pieces, files, name);
    pieces.push(head);
    pieces.push(text);
}
