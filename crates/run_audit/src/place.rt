ghost use Rattle.std.specs.Prelude.{◌≡◌, ◌≢◌, ◌<◌, ◌≤◌, true, length, take, slice_get};
ghost use Rattle.run_audit.specs.Private.Places.{Advances};

/// How far a list that was given agrees with one that is known piece by piece.
#[derive(Clone, Copy)]
pub struct Place {
    /// How many items agree, from the front.
    pub at: usize,
    /// Whether all that is known so far agrees.
    pub same: bool,
}

impl Place {
    /// The place before anything is known.
    pub fn start() -> Place
        ensures { result ≡ record { at = 0; same = true } }
    {
        Place { at: 0, same: true }
    }

    /// Compares the next piece of a text.
    pub fn compare(&mut self, given: &[u8], piece: &[u8])
        requires within { self.old.at ≤ length given.now }
        ensures within { self.new.at ≤ length given.now }
        ensures advances { Advances given.now self.old self.new piece.now }
    {
        if self.same {
            let count = agreeing(&given[self.at..], piece);
            self.at += count;
            self.same = count == piece.len();
        }
    }
}

/// How many bytes two texts have in common, from the front.
fn agreeing(first: &[u8], second: &[u8]) -> usize
    ensures first { result ≤ length first.now }
    ensures second { result ≤ length second.now }
    ensures before { take result first.now ≡ take result second.now }
    ensures there { result < length second.now → slice_get first.now result ≢ slice_get second.now result }
{
    let mut count = 0;
    while count < first.len() && count < second.len() && first[count] == second[count] {
        count += 1;
    }
    count
}
