#![tactic(auto)]

//! Simple-8b: the documents of a segment as gaps in words of 64 bits. A word's lowest 4 bits
//! select one of 16 layouts, and each word takes the least selector that its gaps permit.

mod checking;
mod cursor;
mod eights;
mod encoding;
mod handing;
pub mod laws;
mod limits;
mod rows;
mod selector;
mod spelling;
mod sums;
mod values;
mod word;

pub use checking::check;
pub use cursor::Cursor;
pub use encoding::{encode, length, length_below};
pub use handing::check_into;
