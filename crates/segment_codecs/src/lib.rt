#![tactic(auto)]

//! The four codecs of a segment's documents behind one type: which one a list takes, the bytes of
//! its payload, the check of bytes that are to be one, and a cursor over them.

mod choosing;
mod codec;
mod cursor;
mod handing;
pub mod laws;
mod payloads;
mod putting;

pub use choosing::{Choice, choose, shortest};
pub use codec::Codec;
pub use cursor::SegmentCursor;
pub use handing::{check_front_into, check_into};
pub use payloads::{check, encode, length};
pub use putting::put_shortest;
