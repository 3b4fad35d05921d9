#![tactic(auto)]

//! The scores and heap places of one session, in frames of a pool that many sessions share: a frame for each page of
//! 256 documents that has one with a score. No call but the two `new` takes memory.

pub mod laws;
mod near;
mod pages;
mod reached;

pub use pages::Pages;
pub use reached::Reached;
