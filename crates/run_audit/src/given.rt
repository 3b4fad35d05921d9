use crate::place::Place;
use trec_run::RunLine;

/// What is checked.
#[derive(Clone, Copy)]
pub struct Given<'a> {
    pub run: &'a [RunLine],
    pub reports: &'a [u8],
}

/// How far what is checked agrees with what a search leaves.
#[derive(Clone, Copy)]
pub struct Places {
    pub run: Place,
    pub reports: Place,
}
