/// A document and its score.
#[derive(Clone, Copy, Debug, PartialEq, Eq)]
pub struct Hit {
    pub doc: u32,
    pub score: u32,
}

/// How many postings may be scored. Segments are scored whole or not at all.
#[derive(Clone, Copy, Debug, PartialEq, Eq)]
pub enum Budget {
    Postings(u64),
    All,
}

/// What the unscored postings can still change of an answer.
#[derive(Clone, Copy, Debug, PartialEq, Eq)]
pub enum Grade {
    /// Neither its documents nor their order.
    Final,
    /// The order of its documents, but not which they are.
    Set,
    /// Its documents.
    Open,
}

/// What is said of an answer beside it.
#[derive(Clone, Copy, Debug, PartialEq, Eq)]
pub struct Report {
    /// Postings scored.
    pub postings: u64,
    /// Segments scored.
    pub segments: u32,
    /// Segments of the query's plan.
    pub of: u32,
    /// The weight of the last scored segment; 0 where none is scored.
    pub cutoff: u32,
    /// The weight of the first unscored segment; 0 where there is none.
    pub next: u32,
    /// The most that a document can still gain: the sum, over the query's terms, of the
    /// greatest weight among the term's unscored segments.
    pub bound: u32,
    pub grade: Grade,
}

/// The size of an index: documents, terms, postings, and the greatest impact (0 where
/// there is no posting).
#[derive(Clone, Copy, Debug, PartialEq, Eq)]
pub struct Totals {
    pub docs: u32,
    pub terms: u32,
    pub postings: u64,
    pub greatest: u16,
}
