#![tactic(auto)]

//! Whether an answer can still change: what the documents at its edges tell of all gains up to a
//! bound.

mod certificate;
pub mod laws;

pub use certificate::grade;
