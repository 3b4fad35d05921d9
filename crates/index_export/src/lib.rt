#![tactic(auto)]

//! The collection that an index is exported as: its impacts stand as term frequencies, and of the
//! documents nothing is known but their names.

mod documents;
pub mod examples;
mod exporting;
mod gathering;
pub mod laws;
mod lists;

pub use exporting::export_collection;
