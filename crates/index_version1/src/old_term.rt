ghost use Rattle.std.specs.Prelude.{◌≤◌, length};
ghost use Rattle.jass_base.specs.Limits.{IsText};
ghost use Rattle.jass_base.specs.declared.limits.TheConstants.{LONGEST_TERM};

use crate::head::Head;
use jass_base::{Row, Text};

/// A term and the heads of its segments.
#[derive(Drop)]
pub struct OldTerm {
    /// At most 65,535 bytes.
    pub term: Text,
    pub heads: Row<Head>,
    pub ghost fits: { length term ≤ LONGEST_TERM },
    pub ghost is_text: { IsText term },
}
