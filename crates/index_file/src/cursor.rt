use segment_codecs::SegmentCursor;

/// How far a segment of a file has been read. It holds no bytes.
#[derive(Clone, Copy)]
pub struct Cursor {
    pub(crate) segment: SegmentCursor,
    pub(crate) from: u32,
    pub(crate) size: u32,
}
