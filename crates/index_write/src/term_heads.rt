use crate::head::PayloadHead;
use jass_base::{Row, Text};

/// A term, and the heads of its segments by falling impact.
#[derive(Debug, Drop)]
pub struct TermHeads {
    pub term: Text,
    pub heads: Row<PayloadHead>,
}
