#![tactic(auto)]

//! The first k + 1 documents of a session by score, then number. A session ranks those that it has noted once a grant,
//! and keeps the first k + 1 of them alone where it has noted many. A caller that keeps a heap settles it instead: heap
//! places in its pages tell which documents are in it. No call but `new` takes memory.

mod candidates;
mod counting;
mod hits;
pub mod laws;
mod settling;
mod top;

pub use top::{Top, just_behind};
