use crate::cursor::TermCursor;

/// The postings of a query's term, and what they add to scores at the most.
#[derive(Drop)]
pub struct TermList {
    pub cursor: TermCursor,
    /// How often the query names the term.
    pub times: u8,
    /// The greatest weight of its postings.
    pub greatest: u32,
    /// The sum of the greatest weights of this list and of those before it.
    pub bound: u32,
}
