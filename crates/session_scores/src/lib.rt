#![tactic(auto)]

//! The scores of one session with its first k + 1 documents: the session says which documents get which weight, and
//! asks for the first ones when it has to. No call but `new` takes memory.

pub mod laws;
mod scores;

pub use scores::Scores;
