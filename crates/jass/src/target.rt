use crate::file_identity::{FileIdentity, look};
use std::fs::{Metadata, OpenOptions, read_link};
use std::io;
use std::io::ErrorKind;
use std::path::PathBuf;

/// The most links that Linux follows on the way to a file.
const MOST_LINKS: u32 = 40;

/// The plain file that a name to be written leads to.
#[derive(Drop)]
pub struct Target {
    /// Where it stands, or will stand, behind all links.
    pub path: PathBuf,
    /// Where it is written before it stands there, in the same folder.
    pub part: PathBuf,
    /// What stands there already, if anything does.
    pub old: Option<Metadata>,
}

impl Target {
    /// None where what stands there is no plain file: a device, a pipe, a socket, a folder. An Err
    /// where the system refuses a look, where a link's text isn't UTF-8, where links lead on and
    /// on, or where the file that stands there may not be written.
    pub fn of(rt: &HostRuntime, name: &str) -> io::Result<Option<Target>> {
        let old = look(rt, name)?;
        if old.as_ref().is_some_and(|found| !found.is_file()) {
            return Ok(None);
        }
        let path = behind_links(rt, name)?;
        if let Some(found) = &old {
            require_writable(rt, &path, FileIdentity::of(found))?;
        }
        let part = path.with_added_extension(rt.alloc(), "part")?;
        Ok(Some(Target { path, part, old }))
    }
}

/// The path that a name leads to through its links, where a file stands or can be made.
fn behind_links(rt: &HostRuntime, name: &str) -> io::Result<PathBuf> {
    let mut path = PathBuf::from_str(rt.alloc(), name)?;
    for _ in 0..MOST_LINKS {
        match next_path(rt, &path)? {
            Some(next) => path = next,
            None => return Ok(path),
        }
    }
    Err(io::Error::from(ErrorKind::FilesystemLoop))
}

/// Where a link points, seen from its own folder; None where the path is no link.
fn next_path(rt: &HostRuntime, path: &PathBuf) -> io::Result<Option<PathBuf>> {
    let text = match read_link(rt, path) {
        Ok(text) => text,
        Err(e) if e.kind() == ErrorKind::InvalidInput => return Ok(None),
        Err(e) if e.kind() == ErrorKind::NotFound => return Ok(None),
        Err(e) => return Err(e),
    };
    let mut next = path.to_path_buf(rt.alloc())?;
    next.pop();
    next.push(&text)?;
    Ok(Some(next))
}

/// Opens the file to write, which changes nothing, and holds it against the one that was looked
/// at: the path of a link such as those in /proc/self/fd may lead elsewhere.
fn require_writable(rt: &HostRuntime, path: &PathBuf, wanted: FileIdentity) -> io::Result<()> {
    let file = OpenOptions::new().write(true).open(rt, path)?;
    if FileIdentity::of(&file.metadata()?) == wanted {
        Ok(())
    } else {
        Err(io::Error::from(ErrorKind::NotFound))
    }
}
