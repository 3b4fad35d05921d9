#![tactic(auto)]

//! What an answer is: the weighted postings of a query, its plan, the scores and the ranking after
//! a prefix of the plan, and the report beside it, as short definitions (in `specs/`) over the
//! flat list of an index. Beside each definition that computes stands the plain, slow function
//! whose contract is that definition.

mod bound;
mod budget;
mod entry;
pub mod examples;
pub mod graded;
pub mod laws;
pub mod order_laws;
mod plan;
mod plan_segment;
mod posting;
mod prefix;
pub mod prefix_laws;
mod rank;
mod report;
mod scores;
mod standing;
pub mod texts;

pub use bound::bound_after;
pub use budget::{granted_sum, granted_with};
pub use entry::Entry;
pub use plan::{QueryPlan, plan_of, top_k};
pub use plan_segment::{PlanSegment, plan_segments};
pub use posting::{WeightedPosting, weighted_postings};
pub use prefix::{cutoff_after, next_after, prefix_within, size_of_first};
pub use rank::first_ranked;
pub use report::report_of;
pub use scores::scores_after;
pub use standing::{Standing, standing_of};
