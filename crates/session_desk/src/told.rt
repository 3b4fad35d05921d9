use jass_base::Report;

/// What is told of a session in a report line, beside its name.
#[derive(Clone, Copy)]
pub struct Told {
    pub report: Report,
    /// The number of mentions of terms that the index hasn't.
    pub unknown: u32,
}
