ghost use Rattle.std.specs.Prelude.{◌≡◌, ◌∷◌, [], ◌++◌, not, map, IfOk, if◌then◌else◌};
ghost use Rattle.ciff_read.specs.Seen.{is_seen};

use indexmap::IndexSet;
use jass_base::NoMemory;

/// Adds a term to those of the lists so far, and says whether it is new.
pub fn add_term<'a>(terms: &mut IndexSet<&'a str>, term: &'a str) -> Result<bool, NoMemory>
    ensures new { IfOk result (λ new. new ≡ not (is_seen term.now (map (λ t. t.now) terms.old.keys))) }
    ensures added { IfOk result (λ new. map (λ t. t.now) terms.new.keys
        ≡ (if new then map (λ t. t.now) terms.old.keys ++ term.now ∷ [] else map (λ t. t.now) terms.old.keys)) }
{
    match terms.insert(term) {
        Ok(new) => Ok(new),
        Err(_) => Err(NoMemory),
    }
}
