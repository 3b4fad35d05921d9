ghost use Rattle.std.specs.Prelude.{◌<◌, ◌≤◌, length, AllPairs};
ghost use Rattle.jass_base.specs.Limits.{IsText};
ghost use Rattle.jass_base.specs.Segments.{FallsTo, SharesNoDocument};
ghost use Rattle.jass_base.specs.declared.limits.TheConstants.{LONGEST_TERM};

use crate::row::Row;
use crate::segment::Segment;
use crate::text::Text;

/// A term and its segments, by falling impact. A document stands at most once in a term.
#[derive(Debug, Drop)]
pub struct TermSegments {
    /// At most 65,535 bytes.
    pub term: Text,
    /// At least one segment.
    pub segments: Row<Segment>,
    pub ghost term_fits: { length term ≤ LONGEST_TERM },
    pub ghost term_is_text: { IsText term },
    pub ghost some: { 1 ≤ length segments },
    pub ghost falling: { AllPairs FallsTo segments },
    pub ghost once: { AllPairs SharesNoDocument segments },
}
