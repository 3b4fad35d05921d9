/// A query's known term: its number in the index, and how often the query names it, which
/// is the sum of the factors of its mentions, 1 to 255.
#[derive(Clone, Copy, Debug, PartialEq, Eq)]
pub struct QueryTerm {
    pub term: u32,
    pub times: u8,
}
