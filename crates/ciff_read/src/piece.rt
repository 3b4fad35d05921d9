use jass_base::{DocRecord, Header, PostingsList};

/// What a walk over a CIFF file gives, one after the other.
#[derive(Debug, Drop)]
pub enum Piece {
    /// The header, and how many lists and documents' records follow.
    Start {
        header: Header,
        lists: u32,
        docs: u32,
    },
    /// A list, and its place in the file.
    List {
        at: u64,
        list: PostingsList,
    },
    /// A document's number and its record.
    Doc {
        number: u32,
        item: DocRecord,
    },
    /// The file was read to its end.
    End,
}
