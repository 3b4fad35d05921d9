ghost use Rattle.std.specs.Prelude.{◌≡◌};
ghost use Rattle.query_reader.specs.Refusals.{number_of};
ghost use Rattle.query_reader.specs.Private.Lines.{fault_at};

/// Why bytes are no query file. The number of each refusal stands beside it.
#[derive(Clone, Copy, Debug, PartialEq, Eq)]
pub enum QueryWhy {
    /// 50: a line that isn't UTF-8.
    Text,
    /// 51: a line that begins with a blank.
    NoId,
    /// 52: a mention of a 257th known term.
    Terms,
    /// 53: a mention that brings the factors of its term above 255.
    Times,
    /// 54: a line of more than 1,048,576 bytes.
    LineLong,
    /// 55: a file of more than 2^28 bytes.
    FileLong,
}

impl QueryWhy {
    /// The number that is printed for the refusal.
    pub fn number(self) -> u32
        ensures { result ≡ number_of self }
    {
        match self {
            QueryWhy::Text => 50,
            QueryWhy::NoId => 51,
            QueryWhy::Terms => 52,
            QueryWhy::Times => 53,
            QueryWhy::LineLong => 54,
            QueryWhy::FileLong => 55,
        }
    }
}

/// A refusal and its line, counted from 1; line 0 stands for the whole file.
#[derive(Clone, Copy, Debug, PartialEq, Eq)]
pub struct QueryRefusal {
    pub line: u32,
    pub why: QueryWhy,
}

/// Why no queries were read.
#[derive(Clone, Copy, Debug, PartialEq, Eq)]
pub enum QueryFault {
    Refused(QueryRefusal),
    NoMemory,
}

/// Why no query was read from one line.
#[derive(Clone, Copy, Debug, PartialEq, Eq)]
pub enum LineFault {
    Refused(QueryWhy),
    NoMemory,
}

impl LineFault {
    /// The fault with its line.
    pub fn at(self, line: u32) -> QueryFault
        ensures { result ≡ fault_at line self }
    {
        match self {
            LineFault::Refused(why) => QueryFault::Refused(QueryRefusal { line, why }),
            LineFault::NoMemory => QueryFault::NoMemory,
        }
    }
}
