/// Where a term begins in the text of all terms, which of all heads is its first, and which group of
/// payloads is its first. A group has four payloads, the last of a term may have fewer. One more row
/// stands behind the last term, so that each term's text and heads end where the next row's begin.
#[derive(Clone, Copy)]
pub(crate) struct TermRow {
    pub(crate) text: u32,
    pub(crate) head: u32,
    pub(crate) group: u32,
}
