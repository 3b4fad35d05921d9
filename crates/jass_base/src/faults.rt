use std::alloc::{AllocError, AllocFailed};
use thiserror::Error;

/// Memory was refused. The one answer that may come from any call that takes an allocator.
#[derive(Debug, Drop, Error)]
#[error("no memory")]
pub struct NoMemory;

/// What room that is asked for, and a sort, may answer.
impl From<AllocError> for NoMemory {
    fn from(_refused: AllocError) -> NoMemory {
        NoMemory
    }
}

/// Drops what a vector had no room for.
impl<T: Drop> From<AllocFailed<T>> for NoMemory {
    fn from(_refused: AllocFailed<T>) -> NoMemory {
        NoMemory
    }
}

/// Drops what a row had no room for.
impl<T: Drop> From<(T, NoMemory)> for NoMemory {
    fn from(_refused: (T, NoMemory)) -> NoMemory {
        NoMemory
    }
}

/// An input could not be read.
#[derive(Debug, Drop, Error)]
#[error("read fault")]
pub struct ReadFault;

/// An output could not be written.
#[derive(Debug, Drop, Error)]
#[error("write fault")]
pub struct WriteFault;

/// A call on an outside object didn't do its work. The clauses of the call say which count
/// of the object tells why.
#[derive(Debug, Drop, Error)]
#[error("failed")]
pub struct Failed;

/// Why bytes of a file were not read.
#[derive(Clone, Copy, Debug, PartialEq, Eq)]
pub enum ReadStop {
    /// A read failed, or the name is missing.
    ReadFault,
    NoMemory,
}
