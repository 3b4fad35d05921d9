//! The parts of an index file, each checked where it stands in some bytes, and the front, which is read by the file's
//! name: what a check is made of that doesn't hold the whole file.

pub use crate::following::follows;
pub use crate::front::{Front, check_front};
pub use crate::heads::read_heads;
pub use crate::marks::next_mark;
pub use crate::moved::moved;
pub use crate::name::name_end;
pub use crate::number::{u16_at, u32_at, u64_at};
pub use crate::payload::check_apart;
pub use crate::segment_head::{SegmentHead, head_of};
pub use crate::sums::Sums;
pub use crate::term::is_term_text;
