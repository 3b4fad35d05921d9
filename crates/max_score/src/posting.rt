/// A document of a term, and its impact, which is 1 to 65,535.
#[derive(Clone, Copy, Debug, PartialEq, Eq)]
pub struct Posting {
    pub doc: u32,
    pub impact: u16,
}
