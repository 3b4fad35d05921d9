#![tactic(auto)]

//! The program as one call: it reads the command's words, runs the command over a cabinet,
//! an input, an output and notes, and answers a status.

mod audit;
mod audit_input;
mod check;
mod collection_file;
mod command;
mod content_input;
mod engine;
mod exhaust;
mod exhaust_file;
mod exhaust_queries;
mod export;
mod fixed_text;
mod help;
mod import;
mod index_input;
mod input;
pub mod laws;
mod memory_file;
mod migrate;
mod named_words;
mod note;
mod once;
mod program;
mod queries_input;
mod rewrite;
mod saving;
mod search;
mod search_budgets;
mod search_file;
mod search_queries;
mod search_stop;
mod serve;
mod serve_lines;
mod serve_stop;
mod shards;
mod shards_input;
mod status;
mod stop;
mod trial;
mod trial_lines;
mod trial_queries;
mod trial_sums;
mod version;

pub use program::run;
pub use status::Status;
