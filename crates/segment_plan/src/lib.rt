#![tactic(auto)]

//! The plan of a query: the segments of its terms in the order in which they are scored, with the
//! number of postings and the bound after each. All tables are made once, so that a prefix is
//! found in logarithmic and a bound in constant time, and neither takes memory.

mod entry;
pub mod examples;
pub mod laws;
mod plan;
mod runs;
mod tables;

pub use entry::{PlanEntry, PlanHead};
pub use plan::Plan;
