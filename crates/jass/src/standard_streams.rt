use std::fs::{File, OpenOptions};
use std::os::fd::{AsFd, AsRawFd};

/// Linux's error number of a call on a descriptor that isn't open.
const NOT_OPEN: i32 = 9;

/// The descriptors 0 to 2. One that was closed when the program began would be given to the next
/// file that is opened, and get what is put on a standard stream: so its number is taken, as long
/// as this stands, by a file on which the stream's use fails.
#[derive(Drop)]
pub struct StandardStreams {
    pub input: Stream,
    pub output: Stream,
    pub notes: Stream,
}

impl StandardStreams {
    /// To be called before any file is opened: the system gives the least number that is free.
    pub fn hold(rt: &HostRuntime) -> StandardStreams {
        let mut writing = OpenOptions::new();
        writing.write(true);
        let mut reading = OpenOptions::new();
        reading.read(true);
        let input = Stream::hold(rt, &rt.stdin(), &writing);
        let output = Stream::hold(rt, &rt.stdout(), &reading);
        let notes = Stream::hold(rt, &rt.stderr(), &reading);
        StandardStreams {
            input,
            output,
            notes,
        }
    }
}

/// How a standard stream's number is taken.
#[derive(Drop)]
pub enum Stream {
    /// The stream was open.
    Open,
    /// It was closed, and every use of the number fails.
    Closed(File),
    /// It was closed, and the number couldn't be taken: the stream is not to be used.
    Lost,
}

impl Stream {
    /// `how` opens a file for the other use than the stream's.
    fn hold<S: AsFd + AsRawFd>(rt: &HostRuntime, stream: &S, how: &OpenOptions) -> Stream {
        if is_open(stream) {
            return Stream::Open;
        }
        match how.open(rt, "/dev/null") {
            Ok(file) if file.as_raw_fd() == stream.as_raw_fd() => Stream::Closed(file),
            _ => Stream::Lost,
        }
    }

    /// What reads or writes the stream, unless it is not to be used.
    pub fn usable<T: Drop>(&self, stream: T) -> Option<T> {
        match self {
            Stream::Lost => None,
            _ => Some(stream),
        }
    }
}

/// Whether a descriptor can be duplicated. A call that fails for want of descriptors says nothing
/// of this one, and then no file can be opened either.
fn is_open<S: AsFd>(stream: &S) -> bool {
    match stream.as_fd().try_clone_to_owned() {
        Ok(_) => true,
        Err(e) => e.raw_os_error() != Some(NOT_OPEN),
    }
}
