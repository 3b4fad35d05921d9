#![tactic(auto)]

//! The impact-ordered index of a collection: the weight of each posting as an impact, and the
//! postings of a term in segments of equal impact.

mod bounds;
mod building;
mod doc_impact;
pub mod examples;
mod grouping;
mod impact_table;
pub mod laws;
mod list_segments;
mod listing;
mod one_list;
mod places;
mod postings_by_place;
mod scratch;
mod segments;
mod terms;
mod weighing;

pub use bounds::{can_widen, most_tf, norm_ends};
pub use building::build;
pub use doc_impact::DocImpact;
pub use grouping::group;
pub use list_segments::ListSegments;
pub use one_list::{SegmentsFault, length_norms, widen_by_norms, widen_list};
pub use postings_by_place::PostingsByPlace;
pub use scratch::Scratch;
pub use segments::{segments_into, segments_of};
