#![tactic(auto)]

//! The auditor: whether a run and its reports are those of a search. It sums the postings of each query over an array of
//! scores and sorts, and has nothing of the engine that may have printed them.

mod adding;
mod answer;
mod audit;
mod bound;
mod budgets;
mod given;
mod grading;
pub mod laws;
mod place;
mod reading;
mod reports;
mod row;
mod rows;
mod search;
mod standing;
mod verdict;
mod workspace;

pub use audit::check_answers;
pub use search::{MOST_BUDGETS, Search};
pub use verdict::Verdict;
