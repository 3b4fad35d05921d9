//! The limits of collections, index files, queries, pools of frames, trials and the command line.

/// The most terms of an index, and lists of a collection: 2^24.
pub const MOST_TERMS: u32 = 16_777_216;

/// The most documents: 2^26.
pub const MOST_DOCUMENTS: u32 = 67_108_864;

/// The most postings of a collection and of an index: 2^29.
pub const MOST_POSTINGS: u64 = 536_870_912;

/// The most bytes of a term.
pub const LONGEST_TERM: usize = 65_535;

/// The most bytes of a document's name: 2^20.
pub const LONGEST_NAME: usize = 1_048_576;

/// The most bytes of a document's name in an index file of version 1.
pub const LONGEST_OLD_NAME: u32 = 65_535;

/// The greatest impact.
pub const GREATEST_IMPACT: u32 = 65_535;

/// The most bytes of a CIFF file and of an index file: 2^32.
pub const LONGEST_FILE: u64 = 4_294_967_296;

/// The most known terms of a query.
pub const MOST_QUERY_TERMS: usize = 256;

/// The greatest factor of a query's term.
pub const MOST_TIMES: u64 = 255;

/// The most hits that can be asked for.
pub const MOST_HITS: u32 = 100_000;

/// The most bytes of a line of a query file and of the input of `serve`, without its end: 2^20.
pub const LONGEST_LINE: usize = 1_048_576;

/// The most bytes of a query file: 2^28.
pub const LONGEST_QUERY_FILE: usize = 268_435_456;

/// The most frames of a pool: 2^20.
pub const MOST_FRAMES: u64 = 1_048_576;

/// The most documents, and the most terms, of a trial: 2^20.
pub const MOST_TRIAL: u32 = 1_048_576;

/// The most terms of a query on the command line.
pub const MOST_TERM_WORDS: usize = 255;

/// The most bytes of a file's name on the command line.
pub const LONGEST_FILE_NAME: usize = 4_096;
