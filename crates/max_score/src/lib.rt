#![tactic(auto)]

//! The exhaustive answer to a query by another road than that of sessions: document at a time, by MaxScore (Turtle and
//! Flood, "Query Evaluation: Strategies and Optimizations", 1995). It has nothing of the engine.

mod candidates;
mod cursor;
mod filling;
mod posting;
mod reading;
mod search;
mod starting;
mod term_list;
mod walk;

pub use cursor::TermCursor;
pub use posting::Posting;
pub use search::MaxScore;
