#![tactic(auto)]

//! An index as plain data: the names of its documents, and its terms with their segments. The
//! definitions stand in `specs/`: what such data keeps, its flat list, the segments that a query
//! names, and the union of the parts of a collection; the laws tie them to what an answer is.

pub mod examples;
pub mod laws;
pub mod union_laws;
