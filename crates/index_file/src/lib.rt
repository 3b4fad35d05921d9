#![tactic(auto)]

//! A file of an index, checked once; then it is held as its names, its payloads, and tables of its terms and heads.

mod cursor;
mod ends;
mod figures;
mod file;
mod following;
mod front;
mod handing;
mod head;
mod head_table;
mod heads;
mod held_terms;
mod holding;
mod marks;
mod moved;
mod name;
mod named_source;
mod names;
mod number;
mod opening;
mod outline;
pub mod parts;
mod payload;
mod payloads;
mod piece;
mod plain;
mod probing;
mod samples;
mod searching;
mod segment_head;
mod small;
mod source;
mod span;
mod sums;
mod term;
mod term_payloads;
mod term_reader;
mod term_row;
mod term_table;
mod terms;
mod uses;

pub use cursor::Cursor;
pub use figures::{CodecUse, Head};
pub use file::IndexFile;
pub use handing::Handing;
pub use named_source::NamedSource;
pub use opening::open;
pub use piece::Piece;
pub use source::Source;
