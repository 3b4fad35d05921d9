ghost use Rattle.std.specs.Str.{is_utf8};
ghost use Rattle.std.specs.Prelude.{nat_le, ◌≡◌, ◌≤◌, ◌+◌, ◌++◌, ◌==◌, ◌&&◌, length, take, drop, IfOk, OnOk, IfSome};
ghost use Rattle.index_layout.specs.Layout.{shared_with};
ghost use Rattle.index_layout.specs.Reading.{before_bytes, rises_behind, term_end, term_in, heads_in};
ghost use Rattle.index_layout.specs.Refusals.{Answers};
ghost use Rattle.jass_base.specs.declared.limits.TheConstants.{LONGEST_FILE, LONGEST_TERM};
ghost use Rattle.index_file.specs.Private.Tables.{IsSpan, before_in, part_of};

use crate::following::follows;
use crate::name::is_text;
use crate::number::{u16_at, u32_at};
use crate::plain::is_plain;
use crate::span::Span;
use index_layout::{OpenFault, OpenWhy, refused};
use jass_base::limits::LONGEST_TERM;
use jass_base::{NoMemory, Row};

/// Appends so many bytes of the text itself.
fn repeat(text: &mut Row<u8>, from: usize, count: usize) -> Result<(), NoMemory>
    requires { from + count ≤ length text.old }
    ensures { OnOk result (text.new ≡ text.old ++ take count (drop from text.old)) }
{
    'bytes: for i in 0..count {
        let byte = text.as_slice()[from + i];
        text.push(byte)?;
    }
    Ok(())
}

/// Whether a term with these bytes of the one before and this rest is above it, and shares no more.
#[tactic(auto, unfolding(crate::specs::Private::Tables::part_of))]
fn may_follow(text: &[u8], before: Option<Span>, shared: usize, rest: &[u8]) -> bool
    requires { IfSome before (IsSpan text.now) }
    ensures { result ≡ (shared_with (before_bytes (before_in text.now before))
        (take shared (before_bytes (before_in text.now before)) ++ rest.now) == shared
        && rises_behind (before_in text.now before)
        (take shared (before_bytes (before_in text.now before)) ++ rest.now)) }
{
    match before {
        Some(span) => follows(&text[span.from as usize..span.to as usize], shared, rest),
        None => shared == 0,
    }
}

/// Appends a term, whose first bytes are those of the one before.
#[tactic(auto, unfolding(crate::specs::Private::Tables::part_of))]
fn append_term(
    text: &mut Row<u8>,
    before: Option<Span>,
    shared: usize,
    rest: &[u8],
) -> Result<(), NoMemory>
    requires before { IfSome before (IsSpan text.old) }
    requires shared { shared ≤ length (before_bytes (before_in text.old before)) }
    ensures { OnOk result (text.new ≡
        text.old ++ (take shared (before_bytes (before_in text.old before)) ++ rest.now)) }
{
    if let Some(span) = before {
        repeat(text, span.from as usize, shared)?;
    }
    match text.extend(rest) {
        Ok(()) => Ok(()),
        Err(_) => Err(NoMemory),
    }
}

/// Whether bytes are the text of a term.
pub fn is_term_text(bytes: &[u8]) -> bool
    ensures { result ≡ (nat_le (length bytes.now) LONGEST_TERM && is_utf8 bytes.now) }
{
    bytes.len() <= LONGEST_TERM && (is_plain(bytes) || is_text(bytes))
}

/// Appends the term at a place behind the one before, and gives the place of its heads and their
/// number.
#[tactic(auto, unfolding(index_layout::specs::Reading::term_end, index_layout::specs::Reading::term_checks, index_layout::specs::Reading::term_in, index_layout::specs::Reading::heads_in))]
pub(crate) fn read_term(
    text: &mut Row<u8>,
    before: Option<Span>,
    bytes: &[u8],
    at: usize,
) -> Result<(usize, u32), OpenFault>
    requires before { IfSome before (IsSpan text.old) }
    requires at { at ≤ length bytes.now }
    requires few { length bytes.now ≤ LONGEST_FILE }
    ensures exact { Answers (λ x. x.0) result (term_end bytes.now (before_in text.old before) at) }
    ensures term { OnOk result (text.new ≡ text.old ++ term_in bytes.now (before_in text.old before) at) }
    ensures heads { IfOk result (λ x. x.1 ≡ heads_in bytes.now at) }
    ensures some { IfOk result (λ x. 1 ≤ x.1) }
    ensures within { IfOk result (λ x. x.0 ≤ length bytes.now) }
{
    if bytes.len() - at < 4 {
        return Err(refused(at, OpenWhy::Length));
    }
    let shared = u16_at(bytes, at) as usize;
    let size = u16_at(bytes, at + 2) as usize;
    if bytes.len() - at - 4 < size + 4 {
        return Err(refused(at, OpenWhy::Length));
    }
    let rest = &bytes[at + 4..at + 4 + size];
    if !may_follow(text.as_slice(), before, shared, rest) {
        return Err(refused(at, OpenWhy::TermOrder));
    }
    let start = text.len();
    match append_term(text, before, shared, rest) {
        Ok(()) => {}
        Err(_) => return Err(OpenFault::NoMemory),
    }
    if !is_term_text(&text.as_slice()[start..]) {
        return Err(refused(at, OpenWhy::TermOrder));
    }
    let count = u32_at(bytes, at + 4 + size);
    if count == 0 {
        return Err(refused(at + 4 + size, OpenWhy::Heads));
    }
    Ok((at + 4 + size + 4, count))
}
