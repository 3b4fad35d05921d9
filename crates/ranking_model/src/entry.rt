/// One posting of an index: a document and its impact in a term. The term is its number, its
/// place among the terms of the index, or its text.
#[derive(Clone, Copy, Debug)]
pub struct Entry<T> {
    pub term: T,
    pub doc: u32,
    pub impact: u16,
}
