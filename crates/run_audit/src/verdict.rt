/// What is said of a run and of reports.
#[derive(Clone, Copy, Debug, PartialEq, Eq)]
pub enum Verdict {
    /// They are those of the search.
    Yes,
    /// The reports differ in this line, counted from 1.
    Report { line: u64 },
    /// The reports are those of the search, and the run differs in this line, counted from 1 among the lines that have
    /// bytes, or ends before it, or should.
    Run { line: u64 },
}
