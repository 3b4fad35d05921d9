#![tactic(auto)]

//! Texts on their way to a sink, gathered in a fixed buffer, since each put on a sink is a
//! system call in the end. Nothing here takes memory.

mod buffer;
mod copying;
mod digit_count;
mod gather;
mod parts;
mod short_text;

pub use buffer::Buffer;
pub use gather::{flush, gather_all, make_room, put_all, put_bytes};
pub use short_text::ShortText;
