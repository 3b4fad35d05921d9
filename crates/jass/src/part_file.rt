use crate::file_identity::FileIdentity;
use crate::target::Target;
use std::fs::{File, Metadata, OpenOptions, Permissions, remove_file, rename, symlink_metadata};
use std::io;
use std::io::{ErrorKind, Write};
use std::os::unix::fs::{MetadataExt, OpenOptionsExt, PermissionsExt, fchown};
use std::path::{Path, PathBuf};

/// The rights of a new file, of which the umask takes some.
const NEW_MODE: u32 = 0o666;

/// The rights of a file that will get those of an old one.
const OWN_MODE: u32 = 0o600;

/// The bits of a mode that say who may read, write and run a file.
const RIGHTS: u32 = 0o777;

/// A file that is written beside the one whose place it will take. Where it doesn't come to that
/// it is removed.
pub struct PartFile<'a> {
    rt: &'a HostRuntime,
    file: File,
    folder: File,
    target: Target,
    own: FileIdentity,
    /// No write failed.
    whole: bool,
}

impl<'a> PartFile<'a> {
    /// Makes the file, empty, with the old file's rights. A part that a run left behind is removed.
    pub fn new(rt: &'a HostRuntime, target: Target) -> io::Result<PartFile<'a>> {
        let folder = File::open(rt, folder_of(&target.path))?;
        // Where this fails and something stands there, the next call fails.
        let _ = remove_file(rt, &target.part);
        let (file, own) = make(rt, &target)?;
        let part = PartFile {
            rt,
            file,
            folder,
            target,
            own,
            whole: true,
        };
        if let Some(old) = &part.target.old {
            take_rights(&part.file, old)?;
        }
        Ok(part)
    }

    /// Puts bytes behind its content. After an Err every further call fails.
    pub fn append(&mut self, bytes: &[u8]) -> io::Result<()> {
        self.require_whole()?;
        self.whole = false;
        self.file.write_all(bytes)?;
        self.whole = true;
        Ok(())
    }

    /// Puts it in its place, once its content is on the disk, and has the folder's entry written
    /// there too. An Err of that last step is the only one behind which the new file stands.
    ///
    /// std tells no fault of closing a file; what a close could tell of the content, `sync_all`
    /// told before. Between the look at the part and the renaming another run may replace it.
    pub fn place(self) -> io::Result<()> {
        self.require_whole()?;
        self.file.sync_all()?;
        if !self.stands() {
            return Err(io::Error::from(ErrorKind::NotFound));
        }
        rename(self.rt, &self.target.part, &self.target.path)?;
        sync_folder(&self.folder)
    }

    fn require_whole(&self) -> io::Result<()> {
        if self.whole {
            Ok(())
        } else {
            Err(io::Error::from(ErrorKind::WriteZero))
        }
    }

    /// Whether what stands at the part's path is this file, and not that of another run.
    fn stands(&self) -> bool {
        match symlink_metadata(self.rt, &self.target.part) {
            Ok(found) => FileIdentity::of(&found) == self.own,
            Err(_) => false,
        }
    }
}

impl<'a> Drop for PartFile<'a> {
    fn drop(self) {
        if self.stands() {
            let _ = remove_file(self.rt, &self.target.part);
        }
        let PartFile {
            rt: _,
            file: _,
            folder: _,
            target: _,
            own: _,
            whole: _,
        } = self;
    }
}

/// Makes a part's file, where nothing stands.
fn make(rt: &HostRuntime, target: &Target) -> io::Result<(File, FileIdentity)> {
    let mode = if target.old.is_some() {
        OWN_MODE
    } else {
        NEW_MODE
    };
    let file = OpenOptions::new()
        .write(true)
        .create_new(true)
        .mode(mode)
        .open(rt, &target.part)?;
    match file.metadata() {
        Ok(found) => Ok((file, FileIdentity::of(&found))),
        Err(e) => {
            let _ = remove_file(rt, &target.part);
            Err(e)
        }
    }
}

/// The folder of a path.
fn folder_of(path: &PathBuf) -> Path<'_> {
    match path.parent() {
        Some(folder) if !folder.as_str().is_empty() => folder,
        _ => Path::new("."),
    }
}

/// Gives a file the rights of an old one, and its group and owner where this user can.
fn take_rights(file: &File, old: &Metadata) -> io::Result<()> {
    let new = file.metadata()?;
    if new.gid() != old.gid() {
        let _ = fchown(file, None, Some(old.gid()));
    }
    if new.uid() != old.uid() {
        let _ = fchown(file, Some(old.uid()), None);
    }
    file.set_permissions(Permissions::from_mode(old.mode() & RIGHTS))
}

/// Has a folder's entries written to the disk. A file system that has no such call says that it
/// can't be asked for, which is no fault.
fn sync_folder(folder: &File) -> io::Result<()> {
    match folder.sync_all() {
        Err(e) if e.kind() == ErrorKind::InvalidInput => Ok(()),
        done => done,
    }
}
