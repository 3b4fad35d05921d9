/// An output of a search that could not be written.
#[derive(Clone, Copy, Debug, PartialEq, Eq)]
pub enum SearchOutput {
    Run,
    Reports,
}

/// Why a search stopped.
#[derive(Clone, Copy, Debug, PartialEq, Eq)]
pub enum SearchStop {
    NoMemory,
    Unwritten(SearchOutput),
}
