/// Why files aren't searched as one.
#[derive(Clone, Copy, Debug, PartialEq, Eq)]
pub enum ShardStop {
    /// The files have more than 2^26 documents. The part is the first with which they pass that, and the sum is that of
    /// the documents of the parts up to this one.
    Documents { part: u32, sum: u64 },
    /// The files have more than 2^29 postings; part and sum likewise.
    Postings { part: u32, sum: u64 },
    NoMemory,
}
