#![tactic(auto)]

//! Several index files searched as one: the documents of a part stand behind those of the parts before it.

mod building;
mod cursor;
mod handing;
mod joining;
mod merging;
mod naming;
mod raising;
mod rows;
mod searching;
mod shards;
mod stop;
mod sums;
mod table;

pub use cursor::ShardCursor;
pub use rows::PartSegment;
pub use shards::Shards;
pub use stop::ShardStop;
