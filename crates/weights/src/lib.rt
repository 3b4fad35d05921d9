// Weights and impacts: what a posting adds to the score of its document, by term frequency or by BM25 in whole numbers,
// and how the weights of a collection become impacts of a few bits.
#![tactic(auto)]

mod impact_limit;
pub mod laws;
mod logarithm;
mod quantizing;
mod weighting;

pub use logarithm::lg;
pub use quantizing::{Bits, Range, impact_of};
pub use weighting::{Rule, idf, length_norm, saturated, weight_of};
