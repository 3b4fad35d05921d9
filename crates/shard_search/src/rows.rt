/// A segment of a term of a part.
#[derive(Clone, Copy)]
pub struct PartSegment {
    pub part: u32,
    pub term: u32,
    pub segment: u32,
}

/// A segment of the union: its impact, how many documents it has, and where among the part segments those that it joins
/// begin and end.
#[derive(Clone, Copy)]
pub(crate) struct SegmentRow {
    pub impact: u16,
    pub count: u32,
    pub from: u32,
    pub to: u32,
}

/// A term of the union: that of a part, and where its segments begin and end.
#[derive(Clone, Copy)]
pub(crate) struct TermRow {
    pub part: u32,
    pub term: u32,
    pub span: Span,
}

/// Where rows begin and end among others.
#[derive(Clone, Copy)]
pub(crate) struct Span {
    pub from: u32,
    pub to: u32,
}
