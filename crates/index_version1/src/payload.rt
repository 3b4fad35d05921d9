ghost use Rattle.std.specs.Prelude.{ℕ, ◌≡◌, ◌≤◌, ◌<◌, ◌+◌, [], length, map, All, None, IfOk};
ghost use Rattle.index_model.specs.Views.{segment_data, term_data};
ghost use Rattle.index_layout.proofs.HeadLaws.{HeadsFall};
ghost use Rattle.index_layout.proofs.TermLaws.{TermsRise};
ghost use Rattle.index_layout.specs.Reading.{read_payloads, read_segments};
ghost use Rattle.index_layout.specs.Refusals.{Answers};
ghost use Rattle.index_version1.specs.Private.Tables.{Marks, head_data, term_heads};
ghost use Rattle.jass_base.specs.declared.limits.TheConstants.{GREATEST_IMPACT, LONGEST_FILE, MOST_DOCUMENTS, MOST_TERMS};

use crate::old_term::OldTerm;
use crate::segment::read_segments;
use index_layout::OpenFault;
use jass_base::{Row, TermSegments};
use segment_codecs::laws::payloads_are_read;
use std::alloc::Global;

/// A term with its segments, whose payloads stand from a place on, and the place behind the last.
fn fill_term(
    alloc: Global,
    bytes: &[u8],
    d: u32,
    old: OldTerm,
    from: usize,
    seen: &mut [u32],
    mark: u32,
) -> Result<(TermSegments, usize), OpenFault>
    requires some { 1 ≤ length old.heads }
    requires fall { HeadsFall d (GREATEST_IMPACT + 1) (map head_data old.heads) }
    requires limit { d ≤ MOST_DOCUMENTS }
    requires from { from ≤ length bytes.now }
    requires short { length bytes.now ≤ LONGEST_FILE }
    requires seen { length seen.old ≡ d }
    requires none { Marks seen.old mark [] }
    ensures exact { Answers (λ x. record { segments = map segment_data x.0.segments; end = x.1 }) result
        (read_segments bytes.now d [] (map head_data old.heads) from) }
    ensures term { IfOk result (λ x. x.0.term ≡ old.term) }
    ensures end { IfOk result (λ x. x.1 ≤ length bytes.now) }
    ensures most { (most : ℕ) → All (λ n. n ≤ most) seen.old → mark ≤ most → All (λ n. n ≤ most) seen.new }
{
    payloads_are_read();
    let OldTerm { term, heads } = old;
    let (segments, end) = read_segments(alloc, bytes, d, heads.as_slice(), from, seen, mark)?;
    Ok((TermSegments { term, segments }, end))
}

/// The terms with their segments, whose payloads stand from a place on, and the place behind the
/// last. No document is marked before.
fn fill_terms(
    alloc: Global,
    bytes: &[u8],
    d: u32,
    terms: Row<OldTerm>,
    from: usize,
    seen: &mut [u32],
) -> Result<(Row<TermSegments>, usize), OpenFault>
    requires few_terms { length terms ≤ MOST_TERMS }
    requires rise { TermsRise d None (map term_heads terms) }
    requires limit { d ≤ MOST_DOCUMENTS }
    requires from { from ≤ length bytes.now }
    requires short { length bytes.now ≤ LONGEST_FILE }
    requires seen { length seen.old ≡ d }
    requires none { All (λ n. n ≤ 0) seen.old }
    ensures exact { Answers (λ x. record { terms = map term_data x.0; end = x.1 }) result
        (read_payloads bytes.now d (map term_heads terms) from) }
    ensures end { IfOk result (λ x. x.1 ≤ length bytes.now) }
{
    let mut filled = Row::new(alloc);
    let mut mark = 0;
    let mut at = from;
    for term in terms.into_vec() {
        mark += 1;
        let (term, end) = fill_term(alloc, bytes, d, term, at, seen, mark)?;
        match filled.push(term) {
            Ok(()) => {}
            Err(_) => return Err(OpenFault::NoMemory),
        }
        at = end;
    }
    Ok((filled, at))
}

/// The terms with their segments, whose payloads stand from a place on, and the place behind the
/// last.
pub fn read_payloads(
    alloc: Global,
    bytes: &[u8],
    d: u32,
    terms: Row<OldTerm>,
    from: usize,
) -> Result<(Row<TermSegments>, usize), OpenFault>
    requires few_terms { length terms ≤ MOST_TERMS }
    requires rise { TermsRise d None (map term_heads terms) }
    requires limit { d ≤ MOST_DOCUMENTS }
    requires from { from ≤ length bytes.now }
    requires short { length bytes.now ≤ LONGEST_FILE }
    ensures exact { Answers (λ x. record { terms = map term_data x.0; end = x.1 }) result
        (read_payloads bytes.now d (map term_heads terms) from) }
    ensures end { IfOk result (λ x. x.1 ≤ length bytes.now) }
{
    let mut seen = match vec![in alloc; 0u32; d as usize] {
        Ok(seen) => seen,
        Err(_) => return Err(OpenFault::NoMemory),
    };
    fill_terms(alloc, bytes, d, terms, from, seen.as_mut_slice())
}
