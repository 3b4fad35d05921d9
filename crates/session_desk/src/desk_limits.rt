//! The limits of a desk.

/// The most sessions that are open at one time.
pub const MOST_SESSIONS: usize = 64;

/// The most bytes of a session's name.
pub const LONGEST_SESSION_NAME: usize = 32;
