ghost use Rattle.std.specs.Prelude.{◌<◌, ◌≤◌, length};
ghost use Rattle.std.specs.List.Sorted.{IsStrictlyIncreasing};

use crate::row::Row;

/// All postings of a term that have the same impact: their documents, in rising order.
#[derive(Debug, Drop)]
pub struct Segment {
    /// At least 1.
    pub impact: u16,
    /// At least one document.
    pub docs: Row<u32>,
    pub ghost positive: { 1 ≤ impact },
    pub ghost some: { 1 ≤ length docs },
    pub ghost rising: { IsStrictlyIncreasing docs },
}
