#![tactic(auto)]

//! The bytes of an index file, and how they are written: each segment in its shortest codec.

mod blocks;
mod bytes;
mod change;
mod fault;
mod file;
mod front;
mod head;
mod head_row;
pub mod laws;
mod lengths;
mod payloads;
mod pieced_front;
mod pieces;
mod spelled_names;
mod spelled_terms;
mod sums;
mod term_heads;
mod whole;
mod writer;

pub use blocks::Blocks;
pub use bytes::{bytes_within, index_bytes};
pub use fault::{SaveFault, TermFault};
pub use file::write_index;
pub use head::{PayloadHead, payload_heads};
pub use payloads::put_payloads;
pub use spelled_names::SpelledNames;
pub use spelled_terms::SpelledTerms;
pub use sums::totals;
pub use term_heads::TermHeads;
pub use whole::write_parts;
pub use writer::IndexWriter;
