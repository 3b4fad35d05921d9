ghost use Rattle.std.specs.Prelude.{◌≡◌, ◌≤◌, None};
ghost use Rattle.jass_base.specs.Outside.{Rose};

use crate::host_files::HostFiles;
use jass_base::{Cabinet, Failed};
use std::io;

/// The host's files as a cabinet. It tells no content. Each Err of the host raises a count, which
/// stays at its last value.
#[derive(Drop)]
pub struct HostCabinet<'a> {
    files: HostFiles<'a>,
    read_faults: u64,
    write_faults: u64,
    reason: Option<io::Error>,
}

impl<'a> HostCabinet<'a> {
    pub fn new(rt: &'a HostRuntime) -> HostCabinet<'a>
        ensures read { ⟦<HostCabinet<'a> as Cabinet>⟧.read_faults result ≡ 0 }
        ensures written { ⟦<HostCabinet<'a> as Cabinet>⟧.write_faults result ≡ 0 }
    {
        HostCabinet {
            files: HostFiles::new(rt),
            read_faults: 0,
            write_faults: 0,
            reason: None,
        }
    }

    /// Why the host failed last, if it did.
    pub fn reason(&self) -> Option<io::Error> {
        self.reason
    }

    fn read_fault(&mut self, reason: io::Error) -> Failed
        ensures rose { Rose self.old.read_faults self.new.read_faults }
        ensures later { self.old.read_faults ≤ self.new.read_faults }
        ensures others { self.new.write_faults ≡ self.old.write_faults }
    {
        self.reason = Some(reason);
        self.read_faults = self.read_faults.saturating_add(1);
        Failed
    }

    fn write_fault(&mut self, reason: io::Error) -> Failed
        ensures rose { Rose self.old.write_faults self.new.write_faults }
        ensures later { self.old.write_faults ≤ self.new.write_faults }
        ensures others { self.new.read_faults ≡ self.old.read_faults }
    {
        self.reason = Some(reason);
        self.write_faults = self.write_faults.saturating_add(1);
        Failed
    }
}

impl<'a> Cabinet for HostCabinet<'a> {
    ghost told = { λ _. None };

    ghost read_faults = { λ c. c.read_faults };

    ghost write_faults = { λ c. c.write_faults };

    fn read_at(&mut self, name: &str, at: u64, buf: &mut [u8]) -> Result<usize, Failed> {
        match self.files.read_at(name, at, buf) {
            Ok(count) => Ok(count),
            Err(reason) => Err(self.read_fault(reason)),
        }
    }

    fn create(&mut self, name: &str) -> Result<(), Failed> {
        match self.files.create(name) {
            Ok(()) => Ok(()),
            Err(reason) => Err(self.write_fault(reason)),
        }
    }

    fn append(&mut self, name: &str, bytes: &[u8]) -> Result<(), Failed> {
        match self.files.append(name, bytes) {
            Ok(()) => Ok(()),
            Err(reason) => Err(self.write_fault(reason)),
        }
    }

    fn finish(&mut self, name: &str) -> Result<(), Failed> {
        match self.files.finish(name) {
            Ok(()) => Ok(()),
            Err(reason) => Err(self.write_fault(reason)),
        }
    }
}
