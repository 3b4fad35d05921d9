#![tactic(auto)]

//! One query answered over a source of segments, such as an opened index file, in parts. A session scores the segments
//! of its plan as far as its grants of postings pay for them, whole and in order, and can answer and report after each
//! grant. Its scores stand in frames of a pool that is shared with other sessions.

mod entries;
mod frames_needed;
mod heads;
pub mod laws;
mod marks;
mod reporting;
mod scoring;
mod session;
mod stop;

pub use entries::score_entries;
pub use frames_needed::need;
pub use marks::{Marks, NoMarks};
pub use reporting::report_at;
pub use session::{Session, plan_of};
pub use stop::OpenStop;
