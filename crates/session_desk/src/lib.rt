#![tactic(auto)]

//! A desk: up to 64 sessions over one source of segments and one pool of frames, opened, granted postings, asked and
//! closed by lines of text. A reply depends on the lines that name its session alone, but for whether another session
//! may be opened.

mod answering;
mod command;
mod desk;
pub mod desk_limits;
pub mod laws;
mod opening;
mod reading;
mod refusal;
mod table;
mod texts;
mod told;
mod went;
mod words;

pub use desk::Desk;
pub use went::Went;
