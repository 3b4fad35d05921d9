ghost use Rattle.std.specs.Prelude.{◌≡◌, ◌≤◌, ◌+◌, ◌-◌, length, map, None, IfOk};
ghost use Rattle.std.specs.Ordering.{is_lt, nat_cmp};
ghost use Rattle.std.specs.Cmp.Lexicographic.{slice_cmp};
ghost use Rattle.jass_base.specs.Limits.{IsText};
ghost use Rattle.index_layout.specs.Reading.{rises_behind};
ghost use Rattle.index_layout.specs.Refusals.{Answers};
ghost use Rattle.index_version1.specs.Reading.{heads1_in, read_terms1, term1_end, term1_in};
ghost use Rattle.index_version1.specs.Private.Tables.{before_of, term_heads};
ghost use Rattle.jass_base.specs.declared.limits.TheConstants.{LONGEST_FILE, LONGEST_TERM};

use crate::head::read_heads;
use crate::number::{u16_at, u32_at};
use crate::old_term::OldTerm;
use index_layout::{OpenFault, OpenWhy, refused};
use jass_base::{Row, Text};
use std::alloc::Global;
use std::cmp::Ordering;

/// Whether bytes are below later ones.
fn is_below(bytes: &[u8], later: &[u8]) -> bool
    ensures { result ≡ is_lt (slice_cmp nat_cmp bytes.now later.now) }
{
    match bytes.cmp(later) {
        Ordering::Less => true,
        _ => false,
    }
}

/// Whether a term is above the last of the terms before.
fn rises(before: &[OldTerm], term: &[u8]) -> bool
    ensures { result ≡ rises_behind (before_of before.now) term.now }
{
    if before.is_empty() {
        return true;
    }
    let last = before[before.len() - 1].term.as_str();
    is_below(last.as_bytes(), term)
}

/// The term at a place behind others, the place of its heads and their number.
#[tactic(auto, unfolding(crate::specs::Reading::term1_end, crate::specs::Reading::term1_checks, crate::specs::Reading::term1_in, crate::specs::Reading::heads1_in))]
fn read_term(
    alloc: Global,
    before: &[OldTerm],
    bytes: &[u8],
    at: usize,
) -> Result<(Text, usize, u32), OpenFault>
    requires at { at ≤ length bytes.now }
    requires few { length bytes.now ≤ LONGEST_FILE }
    ensures exact { Answers (λ x. x.1) result (term1_end bytes.now (before_of before.now) at) }
    ensures term { IfOk result (λ x. x.0 ≡ term1_in bytes.now at) }
    ensures fits { IfOk result (λ x. length x.0 ≤ LONGEST_TERM) }
    ensures text { IfOk result (λ x. IsText x.0) }
    ensures heads { IfOk result (λ x. x.2 ≡ heads1_in bytes.now at) }
    ensures within { IfOk result (λ x. x.1 ≤ length bytes.now) }
{
    if bytes.len() - at < 2 {
        return Err(refused(at, OpenWhy::Length));
    }
    let size = u16_at(bytes, at) as usize;
    if bytes.len() - at - 2 < size + 4 {
        return Err(refused(at, OpenWhy::Length));
    }
    let term = &bytes[at + 2..at + 2 + size];
    let Ok(text) = std::str::from_utf8(term) else {
        return Err(refused(at, OpenWhy::TermOrder));
    };
    if !rises(before, term) {
        return Err(refused(at, OpenWhy::TermOrder));
    }
    let count = u32_at(bytes, at + 2 + size);
    if count == 0 {
        return Err(refused(at + 2 + size, OpenWhy::Heads));
    }
    match Text::from_str(alloc, text) {
        Ok(term) => Ok((term, at + 2 + size + 4, count)),
        Err(_) => Err(OpenFault::NoMemory),
    }
}

/// So many terms with their heads from a place on, and the place behind the last.
pub fn read_terms(
    alloc: Global,
    bytes: &[u8],
    docs: u32,
    count: u32,
    from: usize,
) -> Result<(Row<OldTerm>, usize), OpenFault>
    requires from { from ≤ length bytes.now }
    requires few { length bytes.now ≤ LONGEST_FILE }
    ensures exact { Answers (λ x. record { terms = map term_heads x.0; end = x.1 }) result
        (read_terms1 bytes.now docs count None from) }
    ensures end { IfOk result (λ x. x.1 ≤ length bytes.now) }
{
    let mut terms = Row::new(alloc);
    let mut at = from;
    'terms: for _ in 0..count {
        let (term, place, heads) = read_term(alloc, terms.as_slice(), bytes, at)?;
        let (heads, end) = read_heads(alloc, bytes, docs, heads, place)?;
        match terms.push(OldTerm { term, heads }) {
            Ok(()) => {}
            Err(_) => return Err(OpenFault::NoMemory),
        }
        at = end;
    }
    Ok((terms, at))
}
