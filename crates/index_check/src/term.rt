ghost use Rattle.std.specs.Prelude.{◌≡◌, ◌≤◌, ◌+◌, ◌++◌, ◌==◌, ◌&&◌, length, take, IfOk, OnOk};
ghost use Rattle.index_layout.specs.Bytes.{u16_in};
ghost use Rattle.index_layout.specs.Layout.{shared_with};
ghost use Rattle.index_layout.specs.Reading.{before_bytes, heads_in, rises_behind, term_end, term_in};
ghost use Rattle.index_layout.specs.Refusals.{Answers};
ghost use Rattle.index_check.specs.Private.Answers.{before_of};
ghost use Rattle.jass_base.specs.declared.limits.TheConstants.{LONGEST_FILE};

use index_file::parts::{follows, is_term_text, u16_at, u32_at};
use index_layout::{OpenFault, OpenWhy, refused};
use jass_base::Row;

/// Checks the term at the front of some bytes, which takes the place of the one before, and gives the place
/// of its heads and their number.
#[tactic(auto, unfolding(index_layout::specs::Reading::term_end, index_layout::specs::Reading::term_checks, index_layout::specs::Reading::term_in, index_layout::specs::Reading::heads_in))]
pub(crate) fn check_term(
    term: &mut Row<u8>,
    is_first: bool,
    bytes: &[u8],
) -> Result<(usize, u32), OpenFault>
    requires few { length bytes.now ≤ LONGEST_FILE }
    ensures exact { Answers (λ x. x.0) result (term_end bytes.now (before_of is_first term.old) 0) }
    ensures term { OnOk result (term.new ≡ term_in bytes.now (before_of is_first term.old) 0) }
    ensures heads { IfOk result (λ x. x.1 ≡ heads_in bytes.now 0) }
    ensures within { IfOk result (λ x. x.0 ≤ length bytes.now) }
{
    if bytes.len() < 4 {
        return Err(refused(0, OpenWhy::Length));
    }
    let shared = u16_at(bytes, 0) as usize;
    let size = u16_at(bytes, 2) as usize;
    if bytes.len() - 4 < size + 4 {
        return Err(refused(0, OpenWhy::Length));
    }
    let rest = &bytes[4..4 + size];
    if !may_follow(term.as_slice(), is_first, shared, rest) {
        return Err(refused(0, OpenWhy::TermOrder));
    }
    match replace_behind(term, is_first, shared, rest) {
        Ok(()) => {}
        Err(_) => return Err(OpenFault::NoMemory),
    }
    if !is_term_text(term.as_slice()) {
        return Err(refused(0, OpenWhy::TermOrder));
    }
    let count = u32_at(bytes, 4 + size);
    if count == 0 {
        return Err(refused(4 + size, OpenWhy::Heads));
    }
    Ok((4 + size + 4, count))
}

/// Whether a term with so many bytes of the one before and this rest is above it, and shares no more.
fn may_follow(before: &[u8], is_first: bool, shared: usize, rest: &[u8]) -> bool
    ensures { result ≡ (shared_with (before_bytes (before_of is_first before.now))
        (take shared (before_bytes (before_of is_first before.now)) ++ rest.now) == shared
        && rises_behind (before_of is_first before.now)
        (take shared (before_bytes (before_of is_first before.now)) ++ rest.now)) }
{
    if is_first {
        return shared == 0;
    }
    follows(before, shared, rest)
}

/// Keeps so many bytes of the term before, and puts a rest behind them.
fn replace_behind(
    term: &mut Row<u8>,
    is_first: bool,
    shared: usize,
    rest: &[u8],
) -> Result<(), OpenFault>
    requires shared { shared ≤ length (before_bytes (before_of is_first term.old)) }
    ensures { OnOk result (term.new ≡ take shared (before_bytes (before_of is_first term.old)) ++ rest.now) }
{
    term.truncate(shared);
    match term.extend(rest) {
        Ok(()) => Ok(()),
        Err(_) => Err(OpenFault::NoMemory),
    }
}

/// How many bytes the term at the front of some bytes has up to its heads; 8 where there are fewer than
/// four bytes.
pub(crate) fn term_room(bytes: &[u8]) -> usize
    ensures most { (8 ≤ result) × (result ≤ 8 + 65535) }
    ensures room { 4 ≤ length bytes.now → result ≡ 8 + u16_in bytes.now 2 }
{
    if bytes.len() < 4 {
        return 8;
    }
    8 + u16_at(bytes, 2) as usize
}
