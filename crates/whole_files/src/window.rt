ghost use Rattle.std.specs.Prelude.{ℕ, ◌≡◌, ◌+◌, ◌-◌, ◌<◌, ◌≤◌, ◌^◌, ◌⊎◌, [], List, length, drop, IsTrue, IsErrOf, OnOk};
ghost use Rattle.jass_base.specs.Outside.{Rose, IsMissing};
ghost use Rattle.whole_files.specs.Windows.{AreFrom, Shows, IsAt, KeepsFrom, StaysShown, ReachesTold};

use jass_base::{Cabinet, ReadStop};
use std::alloc::Global;

/// How many bytes of a file are read at a time.
const PIECE: usize = 65_536;

/// A part of a file that is held in memory: its bytes, and the place of the first.
#[derive(Drop)]
pub struct Window {
    pub bytes: Vec<u8>,
    pub start: u64,
}

impl Window {
    /// Nothing of a file, at its front.
    pub fn new(alloc: Global) -> Window
        ensures bytes { result.bytes.items ≡ [] }
        ensures start { result.start ≡ 0 }
    {
        Window::at(alloc, 0)
    }

    /// Nothing of a file, at a place.
    pub fn at(alloc: Global, start: u64) -> Window
        ensures bytes { result.bytes.items ≡ [] }
        ensures start { result.start ≡ start }
    {
        Window {
            bytes: Vec::new(alloc),
            start,
        }
    }

    /// Sees to it that so many bytes from a place on are held, or all up to the end of the
    /// file. What was held before the place may be dropped.
    pub fn reach<C: Cabinet>(
        &mut self,
        files: &mut C,
        name: &str,
        at: u64,
        count: usize,
    ) -> Result<(), ReadStop>
        requires { at + count ≤ 2 ^ 63 }
        ensures at { OnOk result (IsAt at self.new) }
        ensures shown { StaysShown (C.told files.old) name.now self.old self.new }
        ensures reached { OnOk result (ReachesTold (C.told files.old) name.now self.old self.new at count) }
        ensures keeps { OnOk result (KeepsFrom at self.old self.new) }
        ensures there { OnOk result (self.old.bytes.items ≡ [] → 1 ≤ count → ¬ IsMissing (C.told files.old) name.now) }
        ensures fault { IsErrOf result ReadStop.ReadFault
            → Rose (C.read_faults files.old) (C.read_faults files.new) ⊎ IsMissing (C.told files.old) name.now }
        ensures stays { C.told files.new ≡ C.told files.old }
        ensures later { C.read_faults files.old ≤ C.read_faults files.new }
        ensures others { C.write_faults files.old ≤ C.write_faults files.new }
    {
        if self.holds(at, count) {
            return Ok(());
        }
        self.begin_at(at);
        self.fill(files, name, count)
    }

    /// Whether so many bytes from a place on are held.
    fn holds(&self, at: u64, count: usize) -> bool
        ensures at { IsTrue result → IsAt at self.now }
        ensures all { IsTrue result → at + count ≤ self.now.start + length self.now.bytes.items }
    {
        let len = self.bytes.len();
        at >= self.start
            && at - self.start <= len as u64
            && count <= len - (at - self.start) as usize
    }

    /// Drops what is held before a place, and all where the place isn't held.
    fn begin_at(&mut self, at: u64)
        ensures start { self.new.start ≡ at }
        ensures fewer { length self.new.bytes.items ≤ length self.old.bytes.items }
        ensures rest { IsAt at self.old → self.new.bytes.items ≡ drop (at - self.old.start) self.old.bytes.items }
        ensures shown { (content : List ℕ) → Shows content self.old → Shows content self.new }
    {
        if at < self.start || at - self.start > self.bytes.len() as u64 {
            self.bytes.clear();
            self.start = at;
            return;
        }
        self.drop_front((at - self.start) as usize);
        self.start = at;
    }

    /// Drops the first bytes.
    fn drop_front(&mut self, cut: usize)
        requires { cut ≤ length self.old.bytes.items }
        ensures bytes { self.new.bytes.items ≡ drop cut self.old.bytes.items }
        ensures start { self.new.start ≡ self.old.start }
    {
        let len = self.bytes.len() - cut;
        self.bytes.copy_within(cut.., 0);
        self.bytes.truncate(len);
    }

    /// Reads on until so many bytes are held, or the file ends; nothing is dropped. It isn't inlined, so that a
    /// call of `reach` that finds all held stays short.
    #[inline(never)]
    pub fn fill<C: Cabinet>(
        &mut self,
        files: &mut C,
        name: &str,
        count: usize,
    ) -> Result<(), ReadStop>
        requires { self.old.start + count ≤ 2 ^ 63 }
        ensures start { self.new.start ≡ self.old.start }
        ensures shown { StaysShown (C.told files.old) name.now self.old self.new }
        ensures reached { OnOk result (ReachesTold (C.told files.old) name.now self.old self.new self.old.start count) }
        ensures keeps { OnOk result (AreFrom self.new.bytes.items 0 self.old.bytes.items) }
        ensures there { OnOk result (length self.old.bytes.items < count → ¬ IsMissing (C.told files.old) name.now) }
        ensures fault { IsErrOf result ReadStop.ReadFault
            → Rose (C.read_faults files.old) (C.read_faults files.new) ⊎ IsMissing (C.told files.old) name.now }
        ensures stays { C.told files.new ≡ C.told files.old }
        ensures later { C.read_faults files.old ≤ C.read_faults files.new }
        ensures others { C.write_faults files.old ≤ C.write_faults files.new }
    {
        'pieces: while self.bytes.len() < count {
            let held = self.bytes.len();
            let at = self.start + held as u64;
            match self.bytes.resize(held + PIECE, 0) {
                Ok(()) => {}
                Err(_) => return Err(ReadStop::NoMemory),
            }
            let Ok(read) = files.read_at(name, at, &mut self.bytes[held..]) else {
                self.bytes.truncate(held);
                return Err(ReadStop::ReadFault);
            };
            self.bytes.truncate(held + read);
            if read == 0 {
                return Ok(());
            }
        }
        Ok(())
    }
}
