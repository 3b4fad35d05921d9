#![tactic(auto)]

//! A collection of any size from a number, on which the engine is tried: the postings of each term
//! are drawn in turn from a small generator, and queries over the terms behind them.

mod documents;
mod draws;
pub mod examples;
pub mod laws;
mod lists;
mod making;
mod names;
mod postings;
mod questions;

pub use draws::Draws;
pub use making::{make, make_with_draws};
pub use questions::draw_query;
