ghost use Rattle.std.specs.Prelude.{ℕ, ◌≡◌, ◌≤◌, ◌+◌, ◌-◌, ◌^◌, min, List, length, IfErr, OnOk};
ghost use Rattle.whole_files.specs.Windows.{IsAt, Reaches, Shows};
ghost use Rattle.index_file.specs.Contents.{IsContent, Reads, outside};
ghost use Rattle.index_file.specs.Answers.{IsNotRefused};
ghost use Rattle.index_file.specs.Pieces.{IsPiece};
ghost use Rattle.index_check.specs.Private.Pieces.{Holds};

use index_layout::OpenFault;
use jass_base::{Cabinet, ReadStop};
use std::alloc::Global;
use whole_files::Window;

/// What is held of a file of so many bytes.
#[derive(Drop)]
pub(crate) struct Held {
    pub(crate) window: Window,
    pub(crate) size: usize,
}

impl Held {
    /// Nothing of a file, at its front.
    pub(crate) fn new(alloc: Global, size: usize) -> Held
        ensures size { result.size ≡ size }
        ensures nothing { (content : List ℕ) → Shows content result.window }
    {
        Held {
            window: Window::new(alloc),
            size,
        }
    }

    /// Sees to it that so many bytes from a place on are held, or all up to the end of the file.
    #[inline(always)]
    pub(crate) fn reach<C: Cabinet>(
        &mut self,
        files: &mut C,
        name: &str,
        at: usize,
        count: usize,
    ) -> Result<(), OpenFault>
        requires at { at ≤ 2 ^ 40 }
        requires count { count ≤ 2 ^ 40 }
        ensures at { OnOk result (IsAt at self.new.window) }
        ensures size { self.new.size ≡ self.old.size }
        ensures shown { (content : List ℕ) → IsContent (C.told files.old) name.now content
            → Shows content self.old.window → Shows content self.new.window }
        ensures reached { OnOk result ((content : List ℕ) → IsContent (C.told files.old) name.now content
            → Shows content self.old.window → Reaches content self.new.window at count) }
        ensures unrefused { IfErr result (λ fault. IsNotRefused fault) }
        ensures reads { Reads (outside C.Cabinet files.old) (outside C.Cabinet files.new) name.now result }
    {
        match self.window.reach(files, name, at as u64, count) {
            Ok(()) => Ok(()),
            Err(ReadStop::ReadFault) => Err(OpenFault::ReadFault),
            Err(ReadStop::NoMemory) => Err(OpenFault::NoMemory),
        }
    }

    /// What is held from a place on, without what stands behind the size.
    #[inline(always)]
    pub(crate) fn from(&self, at: usize) -> &[u8]
        requires at { IsAt at self.now.window }
        requires within { at ≤ self.now.size }
        ensures few { at + length result.now ≤ self.now.size }
        ensures all { length result.now
            ≡ min (self.now.size - at) (self.now.window.start + length self.now.window.bytes.items - at) }
        ensures piece { (content : List ℕ) (count : ℕ) → Holds content self.now
            → Reaches content self.now.window at count → IsPiece content at count result.now }
    {
        let bytes = self.window.bytes.as_slice();
        let from = at - self.window.start as usize;
        let most = self.size - at;
        let end = from + most.min(bytes.len() - from);
        &bytes[from..end]
    }
}
