#![tactic(auto)]

//! The lists of a collection that a query of words asks for. An index of them alone answers the
//! query as the index of the whole collection does. And whether the index file of a collection fits
//! for certain, before any of it is made.

mod asked;
mod fitting;
pub mod laws;

pub use asked::asked_collection;
pub use fitting::fits_surely;
