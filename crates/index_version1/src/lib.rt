#![tactic(auto)]

//! An index file of version 1, which is only read to be written in the later version.

mod docs;
mod front;
mod head;
pub mod laws;
mod marks;
mod names;
mod number;
mod offsets;
mod old_term;
mod parts;
mod payload;
mod reading;
mod segment;
mod sums;
mod term;

pub use reading::read_version1;
