#![tactic(auto)]

//! The bytes of an index file, and how they are read: the layout, the first refusal of bytes that
//! are no index file, and the laws that tie the two. The definitions stand in `specs/`.

pub mod examples;
pub mod laws;
mod refusal;

pub use refusal::{OpenFault, OpenRefusal, OpenWhy, refused};
