ghost use Rattle.std.specs.Prelude.{◌≡◌};
ghost use Rattle.trec_run.specs.Runs.{number_of};

use jass_base::Text;

/// A line of a run: the query's id, the document's name, its rank, its score, and the tag.
#[derive(Debug, Drop)]
pub struct RunLine {
    pub id: Text,
    pub name: Text,
    pub rank: u64,
    pub score: u64,
    pub tag: Text,
}

/// Why a line is no line of a run. The number of each refusal stands beside it.
#[derive(Clone, Copy, Debug, PartialEq, Eq)]
pub enum RunWhy {
    /// 80: the line isn't UTF-8, hasn't six columns, or its second column isn't `Q0`.
    Columns,
    /// 81: the fourth or the fifth column isn't a number below 2^64 of 1 to 20 digits.
    Number,
}

impl RunWhy {
    /// The number that is printed for the refusal.
    pub fn number(self) -> u32
        ensures { result ≡ number_of self }
    {
        match self {
            RunWhy::Columns => 80,
            RunWhy::Number => 81,
        }
    }
}

/// Why no run was read.
#[derive(Clone, Copy, Debug, PartialEq, Eq)]
pub enum RunFault {
    /// The first line that is refused, counted from 1, lines without bytes included.
    Refused { line: u64, why: RunWhy },
    NoMemory,
}
