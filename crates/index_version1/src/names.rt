ghost use Rattle.std.specs.Prelude.{nat_lt, not, ℕ, ◌≡◌, ◌==◌, ◌&&◌, ◌<◌, ◌≤◌, ◌+◌, [], ◌∷◌, length, IfOk};
ghost use Rattle.std.specs.List.{list_all};
ghost use Rattle.index_layout.specs.Reading.{is_name_text};
ghost use Rattle.index_layout.specs.Refusals.{Answers, check, judged};
ghost use Rattle.index_layout.specs.declared.refusal.OpenWhy.TheVariants.{Names};
ghost use Rattle.index_version1.specs.Reading.{name1_in, names_place, offset_in, offset_place, read_texts};
ghost use Rattle.jass_base.specs.declared.limits.TheConstants.{LONGEST_FILE};

use crate::offsets::offset_at;
use index_layout::{OpenFault, OpenWhy, refused};
use jass_base::{Row, Text};
use std::alloc::Global;

/// Whether no byte is a blank or a control character.
fn is_visible(bytes: &[u8]) -> bool
    ensures { result ≡ list_all (λ b. nat_lt 32 b && not (b == 127)) bytes.now }
{
    bytes.iter().all(|b| *b > 32 && *b != 127)
}

/// The name with these bytes, which stand at a place.
fn read_name(alloc: Global, bytes: &[u8], at: usize) -> Result<Text, OpenFault>
    ensures { Answers (λ name. name) result (judged (check (not (is_name_text bytes.now)) at Names ∷ []) bytes.now) }
{
    let Ok(name) = std::str::from_utf8(bytes) else {
        return Err(refused(at, OpenWhy::Names));
    };
    if !is_visible(bytes) {
        return Err(refused(at, OpenWhy::Names));
    }
    match Text::from_str(alloc, name) {
        Ok(name) => Ok(name),
        Err(_) => Err(OpenFault::NoMemory),
    }
}

/// The bytes of the name with a number; names begin at a place.
#[tactic(auto, unfolding(crate::specs::Reading::name1_in))]
fn name_at(bytes: &[u8], place: usize, i: usize) -> &[u8]
    requires few { length bytes.now ≤ LONGEST_FILE }
    requires offsets { offset_place (i + 2) ≤ length bytes.now }
    requires order { offset_in bytes.now i ≤ offset_in bytes.now (i + 1) }
    requires within { place + offset_in bytes.now (i + 1) ≤ length bytes.now }
    ensures { result.now ≡ name1_in bytes.now place i }
{
    let from = offset_at(bytes, i) as usize;
    let to = offset_at(bytes, i + 1) as usize;
    &bytes[place + from..place + to]
}

/// So many names from a place on, and the place behind the last.
#[tactic(auto, unfolding(crate::specs::Reading::read_texts))]
pub fn read_texts(
    alloc: Global,
    bytes: &[u8],
    docs: u32,
    place: usize,
) -> Result<(Row<Text>, usize), OpenFault>
    requires few { length bytes.now ≤ LONGEST_FILE }
    requires place { place ≡ names_place docs }
    requires within { place ≤ length bytes.now }
    requires rising { (i : ℕ) → i < docs → offset_in bytes.now i < offset_in bytes.now (i + 1) }
    ensures exact { Answers (λ x. record { names = x.0; end = x.1 }) result (read_texts bytes.now docs place) }
    ensures end { IfOk result (λ x. x.1 ≤ length bytes.now) }
{
    let last = offset_at(bytes, docs as usize) as usize;
    if bytes.len() - place < last {
        return Err(refused(place, OpenWhy::Length));
    }
    let mut names = Row::new(alloc);
    'names: for i in 0..docs as usize {
        let at = place + offset_at(bytes, i) as usize;
        let name = read_name(alloc, name_at(bytes, place, i), at)?;
        match names.push(name) {
            Ok(()) => {}
            Err(_) => return Err(OpenFault::NoMemory),
        }
    }
    Ok((names, place + last))
}
