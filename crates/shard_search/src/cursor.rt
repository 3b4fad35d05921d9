use index_file::Cursor;

/// How far the documents of a segment of the union have been handed out: how far a part's segment was read and how many
/// documents it still has, and where among the part segments those behind it begin and end.
#[derive(Clone, Copy)]
pub struct ShardCursor {
    pub(crate) inner: Cursor,
    pub(crate) part: u32,
    pub(crate) left: u32,
    pub(crate) next: u32,
    pub(crate) end: u32,
}
