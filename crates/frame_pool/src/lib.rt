#![tactic(auto)]

//! The frames in which many sessions keep their scores: one pool holds them all, and each session takes those of its
//! chain. A frame holds the scores and the heap places of one page, which is 256 documents, and is cleared when it is
//! taken.

mod chain;
mod frame;
pub mod laws;
mod lease;
mod pool;
mod refusal;
mod store;

pub use chain::Chain;
pub use frame::FrameId;
pub use pool::FramePool;
pub use refusal::PoolRefusal;
