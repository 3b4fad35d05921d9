/// A segment of one of a query's terms, before it is weighed.
#[derive(Clone, Copy, Debug, PartialEq, Eq)]
pub struct PlanHead {
    /// The term's place in the query.
    pub term_place: u32,
    /// The segment's place among those of its term.
    pub segment: u32,
    /// At least 1; within a term it falls as the segment rises.
    pub impact: u16,
    /// The number of postings, at least 1.
    pub count: u32,
}

/// A segment of a plan.
#[derive(Clone, Copy, Debug, PartialEq, Eq)]
pub struct PlanEntry {
    /// The term's place in the query.
    pub term_place: u32,
    /// The segment's place among those of its term.
    pub segment: u32,
    /// The impact times how often the query names the term.
    pub weight: u32,
    /// The number of postings.
    pub count: u32,
}
