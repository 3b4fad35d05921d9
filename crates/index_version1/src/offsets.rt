//! The offsets of the names.

ghost use Rattle.std.specs.Prelude.{ℕ, ◌≡◌, ◌≤◌, ◌<◌, ◌+◌, length, IfOk};
ghost use Rattle.index_layout.specs.Refusals.{Answers};
ghost use Rattle.index_version1.specs.Reading.{names_place, offset_in, offset_place, read_offsets};
ghost use Rattle.jass_base.specs.declared.limits.TheConstants.{LONGEST_FILE, MOST_DOCUMENTS};

use crate::number::u32_at;
use index_layout::{OpenFault, OpenWhy, refused};
use jass_base::limits::LONGEST_OLD_NAME;

/// The offset with a number.
#[tactic(auto, unfolding(crate::specs::Reading::offset_in))]
pub fn offset_at(bytes: &[u8], i: usize) -> u32
    requires inside { offset_place (i + 1) ≤ length bytes.now }
    requires few { length bytes.now ≤ LONGEST_FILE }
    ensures { result ≡ offset_in bytes.now i }
{
    u32_at(bytes, 40 + 4 * i)
}

/// The place behind the offsets of so many names, each of 1 to 65,535 bytes.
#[tactic(auto, unfolding(crate::specs::Reading::read_offsets))]
pub fn read_offsets(bytes: &[u8], docs: u32) -> Result<usize, OpenFault>
    requires few { length bytes.now ≤ LONGEST_FILE }
    requires docs { docs ≤ MOST_DOCUMENTS }
    ensures exact { Answers (λ place. place) result (read_offsets bytes.now docs) }
    ensures place { IfOk result (λ place. place ≡ names_place docs) }
    ensures within { IfOk result (λ place. place ≤ length bytes.now) }
    ensures rising { IfOk result (λ _. (i : ℕ) → i < docs → offset_in bytes.now i < offset_in bytes.now (i + 1)) }
{
    let place = 44 + 4 * docs as usize;
    if bytes.len() < place {
        return Err(refused(40, OpenWhy::Length));
    }
    if offset_at(bytes, 0) != 0 {
        return Err(refused(40, OpenWhy::Names));
    }
    let mut before = 0;
    'offsets: for i in 0..docs as usize {
        let offset = offset_at(bytes, i + 1);
        if offset <= before || offset - before > LONGEST_OLD_NAME {
            return Err(refused(44 + 4 * i, OpenWhy::Names));
        }
        before = offset;
    }
    Ok(place)
}
