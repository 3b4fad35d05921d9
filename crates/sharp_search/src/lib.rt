#![tactic(auto)]

//! A search that stops as soon as its answer can't change, over any source of segments.

mod deciding;
mod front;
pub mod laws;
mod stopping;
mod weights;

pub use stopping::SharpSearch;
