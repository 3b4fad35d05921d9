//! The limits of the command line's options and numbers.

/// The most budgets of a search.
pub const MOST_BUDGETS: usize = 16;

/// The fewest parts of a collection that are searched as one.
pub const LEAST_PARTS: u32 = 2;

/// The most parts of a collection that are searched as one.
pub const MOST_PARTS: u32 = 16;

/// The most terms of a query that is searched until its answer is final.
pub const MOST_FINAL_TERMS: u32 = 64;

/// The most bits of an impact.
pub const MOST_BITS: u64 = 16;

/// The most bytes of a tag.
pub const LONGEST_TAG: usize = 64;

/// The greatest seed of a trial: 2^31 - 1.
pub const MOST_SEED: u32 = 0x7fff_ffff;

/// The most queries of a trial.
pub const MOST_QUERIES: u32 = 10_000;

/// The most bytes that a run of `serve` takes of its input: 2^30.
pub const MOST_TAKEN: u64 = 1_073_741_824;
