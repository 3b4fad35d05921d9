/// A document and its impact in a list.
#[derive(Clone, Copy, Debug, PartialEq, Eq)]
pub struct DocImpact {
    pub doc: u32,
    pub impact: u16,
}
