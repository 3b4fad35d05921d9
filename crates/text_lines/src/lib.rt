#![tactic(auto)]

//! The lines of a text, each with its number: they end by LF, and one CR before a line's end is no
//! part of it. Query files, runs and the commands of a desk are divided alike.

pub mod examples;
pub mod laws;
mod lines;

pub use lines::{Line, Lines};
