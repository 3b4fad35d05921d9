ghost use Rattle.std.specs.Prelude.{◌≡◌, ◌≤◌, ◌⊎◌, ◌↔◌, ◌++◌, Some, None, IsSome, IsErr, IsTrue, OnOk, OnErr, MatchOption};
ghost use Rattle.std.specs.Io.{ReadsAtMost};
ghost use Rattle.std.specs.BTreeMap.{get_by_text};
ghost use Rattle.std.specs.FinMap.{empty, get, insert};
ghost use Rattle.jass_base.specs.FilesOf.{files_of};
ghost use Rattle.std.specs.Bool.{OnTrue};
ghost use Rattle.std.specs.Option.{option_map};
ghost use Rattle.jass_base.specs.Outside.{Rose, Sets, IsMissing, OnContent, content_or_empty};
ghost use Rattle.jass_base.specs.Outside.{GivesBytes, ReadCause, HasCause, Creates, Appended};
ghost use Rattle.jass_base.specs.Scripts.{uncalled, called, FailsNext};

use crate::cabinet::Cabinet;
use crate::copy_at::copy_at;
use crate::faults::{Failed, NoMemory};
use crate::row::Row;
use crate::scripted::Scripted;
use std::alloc::Global;
use std::collections::BTreeMap;

/// A cabinet in memory, some of whose calls fail. A refused growth inside `create` or
/// `append` counts as a write fault. What is written stands at once, so that `finish` changes
/// no content.
#[derive(Debug, Drop)]
pub struct MemCabinet {
    alloc: Global,
    files: BTreeMap<String, Vec<u8>>,
    bad_reads: Row<u64>,
    bad_writes: Row<u64>,
    reads: u64,
    writes: u64,
    read_faults: u64,
    write_faults: u64,
}

impl MemCabinet {
    /// The lists name the calls that fail, counted from 0: the reads, and the calls of
    /// `create`, `append` and `finish` together.
    pub fn new(alloc: Global, bad_reads: Row<u64>, bad_writes: Row<u64>) -> MemCabinet
        ensures told { ⟦<MemCabinet as Cabinet>⟧.told result ≡ Some empty }
        ensures read_faults { ⟦<MemCabinet as Cabinet>⟧.read_faults result ≡ 0 }
        ensures write_faults { ⟦<MemCabinet as Cabinet>⟧.write_faults result ≡ 0 }
        ensures reads { ⟦<MemCabinet as Scripted>⟧.reads result ≡ uncalled bad_reads }
        ensures writes { ⟦<MemCabinet as Scripted>⟧.writes result ≡ uncalled bad_writes }
    {
        MemCabinet {
            alloc,
            files: BTreeMap::new(alloc),
            bad_reads,
            bad_writes,
            reads: 0,
            writes: 0,
            read_faults: 0,
            write_faults: 0,
        }
    }

    /// Gives a name its content. This is no call that fails or is counted.
    pub fn store(&mut self, name: &str, bytes: &[u8]) -> Result<(), NoMemory>
        ensures ok { OnOk result (Sets (⟦<MemCabinet as Cabinet>⟧.told self.old)
            (⟦<MemCabinet as Cabinet>⟧.told self.new) name.now bytes.now) }
        ensures err { OnErr result (⟦<MemCabinet as Cabinet>⟧.told self.new ≡ ⟦<MemCabinet as Cabinet>⟧.told self.old) }
        ensures read_faults { ⟦<MemCabinet as Cabinet>⟧.read_faults self.new
            ≡ ⟦<MemCabinet as Cabinet>⟧.read_faults self.old }
        ensures write_faults { ⟦<MemCabinet as Cabinet>⟧.write_faults self.new
            ≡ ⟦<MemCabinet as Cabinet>⟧.write_faults self.old }
        ensures script_of_reads { ⟦<MemCabinet as Scripted>⟧.reads self.new
            ≡ ⟦<MemCabinet as Scripted>⟧.reads self.old }
        ensures script_of_writes { ⟦<MemCabinet as Scripted>⟧.writes self.new
            ≡ ⟦<MemCabinet as Scripted>⟧.writes self.old }
    {
        set(self.alloc, &mut self.files, name, bytes)
    }

    /// The content of a name; None exactly where it is missing.
    pub fn content(&self, name: &str) -> Option<&[u8]>
        ensures { MatchOption result (IsMissing (⟦<MemCabinet as Cabinet>⟧.told self.now) name.now)
            (λ content. OnContent (⟦<MemCabinet as Cabinet>⟧.told self.now) name.now (λ bytes. bytes ≡ content.now)) }
    {
        content_of(&self.files, name)
    }

    /// Counts a call of `create`, `append` or `finish`, and answers whether it is to fail.
    fn fails_to_write(&mut self) -> bool
        ensures told { ⟦<MemCabinet as Cabinet>⟧.told self.new ≡ ⟦<MemCabinet as Cabinet>⟧.told self.old }
        ensures reads { ⟦<MemCabinet as Cabinet>⟧.read_faults self.new
            ≡ ⟦<MemCabinet as Cabinet>⟧.read_faults self.old }
        ensures later { ⟦<MemCabinet as Cabinet>⟧.write_faults self.old
            ≤ ⟦<MemCabinet as Cabinet>⟧.write_faults self.new }
        ensures failed { OnTrue result (Rose (⟦<MemCabinet as Cabinet>⟧.write_faults self.old)
            (⟦<MemCabinet as Cabinet>⟧.write_faults self.new)) }
        ensures named { IsTrue result ↔ FailsNext (⟦<MemCabinet as Scripted>⟧.writes self.old) }
        ensures next { ⟦<MemCabinet as Scripted>⟧.writes self.new
            ≡ called (⟦<MemCabinet as Scripted>⟧.writes self.old) }
        ensures stays { ⟦<MemCabinet as Scripted>⟧.reads self.new ≡ ⟦<MemCabinet as Scripted>⟧.reads self.old }
    {
        let write = self.writes;
        self.writes = self.writes.saturating_add(1);
        let fails = self.bad_writes.as_slice().contains(&write);
        if fails {
            self.write_faults = self.write_faults.saturating_add(1);
        }
        fails
    }
}

/// The content of a name; None exactly where it is missing.
fn content_of<'a>(files: &'a BTreeMap<String, Vec<u8>>, name: &str) -> Option<&'a [u8]>
    ensures { option_map (λ content. content.now) result ≡ get (files_of files.now) name.now }
{
    match files.get(name) {
        Some(content) => Some(content.as_slice()),
        None => None,
    }
}

/// Puts bytes behind the content of a name that is there.
fn extend_there(
    files: &mut BTreeMap<String, Vec<u8>>,
    name: &str,
    bytes: &[u8],
) -> Result<(), NoMemory>
    requires { IsSome (get_by_text files.old name.now) }
    ensures ok { OnOk result (files_of files.new
        ≡ insert (files_of files.old) name.now (content_or_empty (files_of files.old) name.now ++ bytes.now)) }
    ensures err { OnErr result (files_of files.new ≡ files_of files.old) }
{
    match files.get_mut(name).unwrap().extend_from_slice(bytes) {
        Ok(()) => Ok(()),
        Err(_) => Err(NoMemory),
    }
}

/// Puts bytes behind the content of a name, which is made first where it is missing.
fn put_behind(
    alloc: Global,
    files: &mut BTreeMap<String, Vec<u8>>,
    name: &str,
    bytes: &[u8],
) -> Result<(), NoMemory>
    ensures ok { OnOk result (files_of files.new
        ≡ insert (files_of files.old) name.now (content_or_empty (files_of files.old) name.now ++ bytes.now)) }
    ensures err { OnErr result (files_of files.new ≡ files_of files.old) }
{
    if files.contains_key(name) {
        extend_there(files, name, bytes)?;
        Ok(())
    } else {
        set(alloc, files, name, bytes)?;
        Ok(())
    }
}

/// Gives a name its content.
fn set(
    alloc: Global,
    files: &mut BTreeMap<String, Vec<u8>>,
    name: &str,
    bytes: &[u8],
) -> Result<(), NoMemory>
    ensures ok { OnOk result (files_of files.new ≡ insert (files_of files.old) name.now bytes.now) }
    ensures err { OnErr result (files_of files.new ≡ files_of files.old) }
{
    let Ok(key) = String::from_str(alloc, name) else {
        return Err(NoMemory);
    };
    let Ok(content) = Vec::from_slice(alloc, bytes) else {
        return Err(NoMemory);
    };
    match files.insert(key, content) {
        Ok(_) => Ok(()),
        Err(_) => Err(NoMemory),
    }
}

impl Scripted for MemCabinet {
    ghost reads = { λ m. record { bad = m.bad_reads; calls = m.reads } };

    ghost writes = { λ m. record { bad = m.bad_writes; calls = m.writes } };
}

impl Cabinet for MemCabinet {
    ghost told = { λ m. Some (files_of m.files) };

    ghost read_faults = { λ m. m.read_faults };

    ghost write_faults = { λ m. m.write_faults };

    fn read_at(&mut self, name: &str, at: u64, buf: &mut [u8]) -> Result<usize, Failed>
        ensures bound { ReadsAtMost result buf.new }
        ensures bytes { GivesBytes (⟦<MemCabinet as Cabinet>⟧.told self.old) name.now at result buf.new }
        ensures stays { ⟦<MemCabinet as Cabinet>⟧.told self.new ≡ ⟦<MemCabinet as Cabinet>⟧.told self.old }
        ensures cause { ReadCause (⟦<MemCabinet as Cabinet>⟧.told self.old) name.now
            (⟦<MemCabinet as Cabinet>⟧.read_faults self.old) (⟦<MemCabinet as Cabinet>⟧.read_faults self.new) result }
        ensures missing { IsMissing (⟦<MemCabinet as Cabinet>⟧.told self.old) name.now →
            ⟦<MemCabinet as Cabinet>⟧.read_faults self.new ≡ ⟦<MemCabinet as Cabinet>⟧.read_faults self.old }
        ensures others { ⟦<MemCabinet as Cabinet>⟧.write_faults self.old
            ≤ ⟦<MemCabinet as Cabinet>⟧.write_faults self.new }
        ensures named { IsErr result ↔ (IsMissing (⟦<MemCabinet as Cabinet>⟧.told self.old) name.now
            ⊎ FailsNext (⟦<MemCabinet as Scripted>⟧.reads self.old)) }
        ensures next { ⟦<MemCabinet as Scripted>⟧.reads self.new ≡ called (⟦<MemCabinet as Scripted>⟧.reads self.old) }
        ensures script_stays { ⟦<MemCabinet as Scripted>⟧.writes self.new ≡ ⟦<MemCabinet as Scripted>⟧.writes self.old }
    {
        let read = self.reads;
        self.reads = self.reads.saturating_add(1);
        let Some(content) = content_of(&self.files, name) else {
            return Err(Failed);
        };
        if self.bad_reads.as_slice().contains(&read) {
            self.read_faults = self.read_faults.saturating_add(1);
            return Err(Failed);
        }
        Ok(copy_at(content, at as usize, buf))
    }

    fn create(&mut self, name: &str) -> Result<(), Failed>
        ensures content { Creates (⟦<MemCabinet as Cabinet>⟧.told self.old)
            (⟦<MemCabinet as Cabinet>⟧.told self.new) name.now result }
        ensures cause { HasCause (⟦<MemCabinet as Cabinet>⟧.write_faults self.old)
            (⟦<MemCabinet as Cabinet>⟧.write_faults self.new) result }
        ensures others { ⟦<MemCabinet as Cabinet>⟧.read_faults self.old
            ≤ ⟦<MemCabinet as Cabinet>⟧.read_faults self.new }
        ensures named { FailsNext (⟦<MemCabinet as Scripted>⟧.writes self.old) → IsErr result }
        ensures next { ⟦<MemCabinet as Scripted>⟧.writes self.new
            ≡ called (⟦<MemCabinet as Scripted>⟧.writes self.old) }
        ensures script_stays { ⟦<MemCabinet as Scripted>⟧.reads self.new ≡ ⟦<MemCabinet as Scripted>⟧.reads self.old }
    {
        if self.fails_to_write() {
            return Err(Failed);
        }
        match set(self.alloc, &mut self.files, name, b"") {
            Ok(()) => Ok(()),
            Err(_) => {
                self.write_faults = self.write_faults.saturating_add(1);
                Err(Failed)
            }
        }
    }

    fn append(&mut self, name: &str, bytes: &[u8]) -> Result<(), Failed>
        ensures content { Appended (⟦<MemCabinet as Cabinet>⟧.told self.old)
            (⟦<MemCabinet as Cabinet>⟧.told self.new) name.now bytes.now result }
        ensures cause { HasCause (⟦<MemCabinet as Cabinet>⟧.write_faults self.old)
            (⟦<MemCabinet as Cabinet>⟧.write_faults self.new) result }
        ensures others { ⟦<MemCabinet as Cabinet>⟧.read_faults self.old
            ≤ ⟦<MemCabinet as Cabinet>⟧.read_faults self.new }
        ensures named { FailsNext (⟦<MemCabinet as Scripted>⟧.writes self.old) → IsErr result }
        ensures next { ⟦<MemCabinet as Scripted>⟧.writes self.new
            ≡ called (⟦<MemCabinet as Scripted>⟧.writes self.old) }
        ensures script_stays { ⟦<MemCabinet as Scripted>⟧.reads self.new ≡ ⟦<MemCabinet as Scripted>⟧.reads self.old }
    {
        if self.fails_to_write() {
            return Err(Failed);
        }
        match put_behind(self.alloc, &mut self.files, name, bytes) {
            Ok(()) => Ok(()),
            Err(_) => {
                self.write_faults = self.write_faults.saturating_add(1);
                Err(Failed)
            }
        }
    }

    fn finish(&mut self, _name: &str) -> Result<(), Failed>
        ensures stays { ⟦<MemCabinet as Cabinet>⟧.told self.new ≡ ⟦<MemCabinet as Cabinet>⟧.told self.old }
        ensures cause { HasCause (⟦<MemCabinet as Cabinet>⟧.write_faults self.old)
            (⟦<MemCabinet as Cabinet>⟧.write_faults self.new) result }
        ensures others { ⟦<MemCabinet as Cabinet>⟧.read_faults self.old
            ≤ ⟦<MemCabinet as Cabinet>⟧.read_faults self.new }
        ensures named { IsErr result ↔ FailsNext (⟦<MemCabinet as Scripted>⟧.writes self.old) }
        ensures next { ⟦<MemCabinet as Scripted>⟧.writes self.new
            ≡ called (⟦<MemCabinet as Scripted>⟧.writes self.old) }
        ensures script_stays { ⟦<MemCabinet as Scripted>⟧.reads self.new ≡ ⟦<MemCabinet as Scripted>⟧.reads self.old }
    {
        if self.fails_to_write() {
            return Err(Failed);
        }
        Ok(())
    }
}
