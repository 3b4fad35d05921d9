#![tactic(auto)]

//! The words of the command line as a command, or the first word that is at fault.

mod budgets;
mod command;
mod files;
mod grants;
mod keys;
pub mod laws;
mod names;
mod option_words;
mod options;
mod readers;
mod reading;
mod slots;
mod term_words;
mod until;
mod word_fault;
pub mod word_limits;

pub use command::{Asked, Audit, Command, Import, Once, Serve, Shards, Trial};
pub use grants::Grants;
pub use keys::Key;
pub use names::{NAMES, Name, Row};
pub use reading::read_words;
pub use until::Until;
pub use word_fault::WordFault;
