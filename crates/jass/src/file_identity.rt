use std::fs::{Metadata, metadata};
use std::io;
use std::os::unix::fs::MetadataExt;
use std::path::AsPath;

/// Which file it is, by whatever name it is reached: its number, and that of its device.
#[derive(Clone, Copy, PartialEq, Eq)]
pub struct FileIdentity {
    device: u64,
    inode: u64,
}

impl FileIdentity {
    pub fn of(found: &Metadata) -> FileIdentity {
        FileIdentity {
            device: found.dev(),
            inode: found.ino(),
        }
    }
}

/// What stands at a path, with links followed; None where nothing does.
pub fn look<P: AsPath>(rt: &HostRuntime, path: P) -> io::Result<Option<Metadata>> {
    match metadata(rt, path) {
        Ok(found) => Ok(Some(found)),
        Err(e) if e.kind() == io::ErrorKind::NotFound => Ok(None),
        Err(e) => Err(e),
    }
}

/// Which file stands at a path, with links followed; None where none does.
pub fn identity_at<P: AsPath>(rt: &HostRuntime, path: P) -> io::Result<Option<FileIdentity>> {
    Ok(look(rt, path)?.map(|found| FileIdentity::of(&found)))
}
