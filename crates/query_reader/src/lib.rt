#![tactic(auto)]

//! Queries over the terms of an index: the mentions of a text, which known terms they name, in the
//! order of first mention, how often, and how many of them name no term; and the files that hold
//! such queries.

pub mod examples;
mod file;
mod folded;
pub mod laws;
mod line;
mod mode;
mod naming;
mod plain;
mod query;
mod refusal;
mod tally;

pub use file::read_queries;
pub use mode::Mode;
pub use naming::name_terms;
pub use query::read_terms;
pub use refusal::{QueryFault, QueryRefusal, QueryWhy};
