#![tactic(auto)]

//! When an answer is final by what each document is still unseen in, and not by one bound for all:
//! a document that a term gave its posting gains nothing more of this term.

pub mod examples;
pub mod laws;
pub mod mask_laws;
mod masks;
pub mod out_laws;
mod unseen;

pub use masks::Masks;
pub use unseen::unseen_sum;
