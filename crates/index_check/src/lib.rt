#![tactic(auto)]

//! The check of an index file that is read by pieces. The part that is looked at is held, and up to
//! 64 KiB behind it: a name, a term, the heads of a term, or a payload.

mod check;
mod ends;
mod held;
mod names;
mod payloads;
mod segments;
mod term;
mod terms;

pub use check::check_file;
