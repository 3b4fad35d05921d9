//! The limit of impacts.

/// The greatest impact, as in `jass_base::limits`; this crate doesn't stand on `jass_base`.
pub const GREATEST_IMPACT: u64 = 65_535;
