#![tactic(auto)]

//! Files of a cabinet: the front of one read into memory, and a window that moves over one.

mod front;
mod window;

pub use front::read_front;
pub use window::Window;
