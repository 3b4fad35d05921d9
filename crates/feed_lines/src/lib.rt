#![tactic(auto)]

//! The lines of an input that is taken piece by piece, up to a limit of bytes: a buffer of 1,048,578 bytes, taken once,
//! holds one line and what was read behind it. Lines end by LF, and one CR before it is no part of them. A line for
//! which there is no room loses its front and is told as such, and the next begins behind its LF. The laws say which
//! lines of the whole input were passed so far, and what of it waits.

mod feed_lines;
mod filled;
mod held;
pub mod laws;
pub mod room;

pub use feed_lines::FeedLines;
pub use filled::Filled;
