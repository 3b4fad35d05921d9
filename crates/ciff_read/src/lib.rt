#![tactic(auto)]

//! Reads a whole file of the Common Index File Format (CIFF, uncompressed) into a
//! collection, or answers the first refusal with its place.

mod body;
mod ciff_walk;
mod collection;
mod doc_fields;
mod doc_set;
mod doc_table;
mod document;
mod documents;
pub mod examples;
mod file_head;
mod gathered;
mod header;
mod kept_lists;
mod known_field;
pub mod laws;
mod list_fields;
mod message;
mod moved_fault;
mod piece;
mod posting_fields;
mod postings_list;
mod reached_doc;
mod reached_header;
mod reached_list;
mod reaching;
mod refusal;
mod rising_lists;
mod terms;
mod text;
mod usual;
mod walked_doc;
mod walked_list;

pub use ciff_walk::CiffWalk;
pub use collection::read_collection;
pub use piece::Piece;
pub use refusal::{CiffFault, CiffRefusal, CiffWhy};
