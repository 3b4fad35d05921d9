#![tactic(auto)]

//! How many of the first k documents of a search stand whatever is still unscored.

mod certainty;
mod examples;
mod foremost;
pub mod laws;
mod limits;

pub use certainty::CertainRoom;
pub use limits::{Limits, MaskLimits, OneLimit};
