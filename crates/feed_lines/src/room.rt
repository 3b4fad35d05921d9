//! The room for bytes that wait.

/// The most bytes that wait, and so the most that one read gives: a line of 1,048,576 bytes with its CR and LF.
pub const ROOM: usize = 1_048_578;
