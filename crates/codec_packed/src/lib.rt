#![tactic(auto)]

//! Packed lanes: the gaps between the documents of a segment in blocks of 128, each packed at the
//! least width that holds its gaps, and the gaps that are left as shortest varints.

mod block;
mod checking;
mod cursor;
mod encoding;
pub mod laws;
mod sizes;
mod tail;

pub use checking::check;
pub use cursor::Cursor;
pub use encoding::encode;
pub use sizes::length;
