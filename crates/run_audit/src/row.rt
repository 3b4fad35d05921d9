ghost use Rattle.std.specs.Prelude.{◌≡◌, ◌≤◌, ◌↔◌, [], ◌∷◌, length, IsTrue};
ghost use Rattle.run_audit.specs.Private.Places.{Advances};
ghost use Rattle.run_audit.specs.Private.Texts.{wanted_row};

use crate::place::Place;
use trec_run::RunLine;

/// The columns that a line of a run is to have, beside `Q0`.
#[derive(Clone, Copy)]
pub struct Wanted<'a> {
    pub id: &'a str,
    pub name: &'a str,
    pub rank: u64,
    pub score: u32,
    pub tag: &'a [u8],
}

/// Compares a row with the line of the run that comes next.
pub fn check_row(run: &[RunLine], wanted: &Wanted<'_>, place: &mut Place)
    requires within { place.old.at ≤ length run.now }
    ensures within { place.new.at ≤ length run.now }
    ensures advances { Advances run.now place.old place.new (wanted_row wanted.now ∷ []) }
{
    if place.same {
        if place.at < run.len() && is_row(&run[place.at], wanted) {
            place.at += 1;
        } else {
            place.same = false;
        }
    }
}

/// Whether a line has the columns that it is to have.
fn is_row(line: &RunLine, wanted: &Wanted<'_>) -> bool
    ensures { IsTrue result ↔ line.now ≡ wanted_row wanted.now }
{
    line.rank == wanted.rank
        && line.score == u64::from(wanted.score)
        && line.name.as_str() == wanted.name
        && line.id.as_str() == wanted.id
        && line.tag.as_str().as_bytes() == wanted.tag
}
