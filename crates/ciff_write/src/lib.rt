#![tactic(auto)]

//! A collection is written as a CIFF file, in the one canonical spelling. Nothing here takes
//! memory: the length of a message is computed before its bytes are put, and small pieces
//! are gathered in a fixed buffer.

mod collection;
mod document;
mod gather;
mod header;
pub mod laws;
mod lengths;
mod postings_list;
mod spelling;

pub use collection::write_collection;
