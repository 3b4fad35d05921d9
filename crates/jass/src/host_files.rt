ghost use Rattle.std.specs.Io.{ReadsAtMost};

use crate::file_identity::{FileIdentity, identity_at, look};
use crate::part_file::PartFile;
use crate::target::Target;
use std::fs::{File, OpenOptions};
use std::io;
use std::io::{ErrorKind, Write};
use std::os::unix::fs::FileExt;

/// The host's files by path. The file that was read last stays open, and so does the one that is
/// being written: a file that is replaced on the way is read to its end as it was.
///
/// A file that is made appears whole or not at all: it is written beside its place (`PartFile`)
/// and put there by `finish`. Nothing is made in place of a file that was read, or of the one that
/// standard output goes to.
#[derive(Drop)]
pub struct HostFiles<'a> {
    rt: &'a HostRuntime,
    reading: Option<Reading>,
    writing: Option<Writing<'a>>,
    /// The plain files that were opened to read, each once.
    read: Vec<FileIdentity>,
}

/// A file that is open to read, and the name by which it was opened.
#[derive(Drop)]
struct Reading {
    name: String,
    file: File,
}

/// What is being written, and the name by which it was made.
#[derive(Drop)]
struct Writing<'a> {
    name: String,
    place: Place<'a>,
}

/// Where bytes of a name go.
#[derive(Drop)]
enum Place<'a> {
    /// A file that will take the place of another.
    Part(PartFile<'a>),
    /// What is written as it stands: a device, a pipe, a socket.
    Stream(File),
}

impl<'a> HostFiles<'a> {
    pub fn new(rt: &'a HostRuntime) -> HostFiles<'a> {
        HostFiles {
            rt,
            reading: None,
            writing: None,
            read: Vec::new(rt.alloc()),
        }
    }

    /// Reads from a place on, as `FileExt::read_at`, and again where a signal interrupts that.
    pub fn read_at(&mut self, name: &str, at: u64, buf: &mut [u8]) -> io::Result<usize>
        ensures { ReadsAtMost result buf.new }
    {
        self.open(name)?;
        match &self.reading {
            Some(reading) => read_through(&reading.file, at, buf),
            None => Err(io::Error::from(ErrorKind::NotFound)),
        }
    }

    /// Opens a file to read, unless it is the one that is open.
    fn open(&mut self, name: &str) -> io::Result<()> {
        if let Some(reading) = &self.reading {
            if reading.name.as_str() == name {
                return Ok(());
            }
        }
        self.reading = None;
        let file = File::open(self.rt, name)?;
        let found = file.metadata()?;
        if found.is_file() {
            self.remember(FileIdentity::of(&found))?;
        }
        let name = String::from_str(self.rt.alloc(), name)?;
        self.reading = Some(Reading { name, file });
        Ok(())
    }

    /// Keeps a file that is read from being replaced.
    fn remember(&mut self, file: FileIdentity) -> io::Result<()> {
        if !self.read.contains(&file) {
            self.read.push(file)?;
        }
        Ok(())
    }

    /// Begins the writing of a name, and gives up what is being written and wasn't finished.
    pub fn create(&mut self, name: &str) -> io::Result<()> {
        self.writing = None;
        let place = self.begin(name)?;
        let name = String::from_str(self.rt.alloc(), name)?;
        self.writing = Some(Writing { name, place });
        Ok(())
    }

    fn begin(&self, name: &str) -> io::Result<Place<'a>> {
        let Some(target) = Target::of(self.rt, name)? else {
            return Ok(Place::Stream(File::create(self.rt, name)?));
        };
        self.require_spare(&target)?;
        Ok(Place::Part(PartFile::new(self.rt, target)?))
    }

    /// Fails where the file, or what stands where its part will, was read or gets the output.
    fn require_spare(&self, target: &Target) -> io::Result<()> {
        let old = target.old.as_ref().map(FileIdentity::of);
        let part = identity_at(self.rt, &target.part)?;
        let output = self.output();
        for file in [old, part] {
            let Some(file) = file else {
                continue;
            };
            if self.read.contains(&file) || output == Some(file) {
                return Err(io::Error::from(ErrorKind::AlreadyExists));
            }
        }
        Ok(())
    }

    /// The plain file that standard output goes to, if it goes to one. std has no look at an open
    /// descriptor that isn't a `File`; the system has this path, where it has `/proc`.
    fn output(&self) -> Option<FileIdentity> {
        match look(self.rt, "/dev/stdout") {
            Ok(Some(found)) if found.is_file() => Some(FileIdentity::of(&found)),
            _ => None,
        }
    }

    /// Puts bytes behind what was written of the name that was made last. Another name's file gets
    /// them as it stands.
    pub fn append(&mut self, name: &str, bytes: &[u8]) -> io::Result<()> {
        match &mut self.writing {
            Some(writing) if writing.name.as_str() == name => writing.place.append(bytes),
            _ => append_behind(self.rt, name, bytes),
        }
    }

    /// Puts a file that was made in its place. A name that isn't being written has nothing to put.
    pub fn finish(&mut self, name: &str) -> io::Result<()> {
        match self.writing.take() {
            Some(writing) if writing.name.as_str() == name => writing.place.finish(),
            other => {
                self.writing = other;
                Ok(())
            }
        }
    }
}

impl<'a> Place<'a> {
    fn append(&mut self, bytes: &[u8]) -> io::Result<()> {
        match self {
            Place::Part(part) => part.append(bytes),
            Place::Stream(file) => file.write_all(bytes),
        }
    }

    /// A stream has nothing that could be put on a disk: it is closed.
    fn finish(self) -> io::Result<()> {
        match self {
            Place::Part(part) => part.place(),
            Place::Stream(_) => Ok(()),
        }
    }
}

/// One read of a file, made again where a signal interrupts it.
fn read_through(file: &File, at: u64, buf: &mut [u8]) -> io::Result<usize>
    ensures { ReadsAtMost result buf.new }
{
    for _ in 0..u64::MAX {
        match file.read_at(buf, at) {
            Err(e) if e.kind() == ErrorKind::Interrupted => {}
            done => return done,
        }
    }
    Err(io::Error::from(ErrorKind::TimedOut))
}

/// Puts bytes behind a file's content, and makes it where it is missing.
fn append_behind(rt: &HostRuntime, name: &str, bytes: &[u8]) -> io::Result<()> {
    let mut file = OpenOptions::new().append(true).create(true).open(rt, name)?;
    file.write_all(bytes)
}
