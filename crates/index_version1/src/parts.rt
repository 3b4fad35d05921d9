ghost use Rattle.std.specs.Prelude.{◌≡◌, ◌≤◌, length, map, None, IfOk};
ghost use Rattle.jass_base.specs.Terms.{greatest_impact};
ghost use Rattle.index_layout.proofs.TermLaws.{TermsRise};
ghost use Rattle.index_layout.specs.Refusals.{Answers};
ghost use Rattle.index_version1.specs.Reading.{read_index1, read_names1, read_terms1};
ghost use Rattle.index_version1.specs.Private.Parts.{index_after, parts_data};
ghost use Rattle.index_version1.specs.Private.Tables.{term_heads};
ghost use Rattle.jass_base.specs.declared.limits.TheConstants.{LONGEST_FILE, MOST_DOCUMENTS, MOST_TERMS};

use crate::front::read_front1;
use crate::names::read_texts;
use crate::number::{u32_at, u64_at};
use crate::offsets::read_offsets;
use crate::old_term::OldTerm;
use crate::payload::read_payloads;
use crate::sums::{greatest, has_postings};
use crate::term::read_terms;
use index_layout::{OpenFault, OpenWhy, refused};
use jass_base::{Row, TermSegments, Text};
use segment_codecs::laws::{codecs_have_their_numbers, payloads_are_read};
use std::alloc::Global;

/// What an index is made of.
#[derive(Drop)]
pub struct Parts {
    pub names: Row<Text>,
    pub terms: Row<TermSegments>,
    pub greatest: u16,
}

/// The names, and the place behind the last.
fn read_names(alloc: Global, bytes: &[u8], docs: u32) -> Result<(Row<Text>, usize), OpenFault>
    requires short { length bytes.now ≤ LONGEST_FILE }
    requires docs { docs ≤ MOST_DOCUMENTS }
    ensures exact { Answers (λ x. record { names = x.0; end = x.1 }) result (read_names1 bytes.now docs) }
    ensures end { IfOk result (λ x. x.1 ≤ length bytes.now) }
{
    let place = read_offsets(bytes, docs)?;
    match read_texts(alloc, bytes, docs, place) {
        Ok(read) => Ok(read),
        Err(fault) => Err(fault),
    }
}

/// The terms with their heads, which rise, and the place behind the last.
fn read_rising(
    alloc: Global,
    bytes: &[u8],
    docs: u32,
    count: u32,
    from: usize,
) -> Result<(Row<OldTerm>, usize), OpenFault>
    requires from { from ≤ length bytes.now }
    requires short { length bytes.now ≤ LONGEST_FILE }
    ensures exact { Answers (λ x. record { terms = map term_heads x.0; end = x.1 }) result
        (read_terms1 bytes.now docs count None from) }
    ensures rise { IfOk result (λ x. TermsRise docs None (map term_heads x.0)) }
    ensures count { IfOk result (λ x. length x.0 ≡ count) }
    ensures end { IfOk result (λ x. x.1 ≤ length bytes.now) }
{
    codecs_have_their_numbers();
    match read_terms(alloc, bytes, docs, count, from) {
        Ok(read) => Ok(read),
        Err(fault) => Err(fault),
    }
}

/// The parts of an index behind its names and heads.
#[tactic(auto, unfolding(index_layout::specs::Reading::end_checks))]
fn read_rest(
    alloc: Global,
    bytes: &[u8],
    docs: u32,
    names: Row<Text>,
    rows: Row<OldTerm>,
    at: usize,
) -> Result<Parts, OpenFault>
    requires few_terms { length rows ≤ MOST_TERMS }
    requires rise { TermsRise docs None (map term_heads rows) }
    requires limit { docs ≤ MOST_DOCUMENTS }
    requires at { at ≤ length bytes.now }
    requires long { 40 ≤ length bytes.now }
    requires short { length bytes.now ≤ LONGEST_FILE }
    ensures exact { Answers parts_data result (index_after bytes.now (record { docs = docs; terms = length rows })
        names (record { terms = map term_heads rows; end = at })) }
    ensures greatest { IfOk result (λ parts. parts.greatest ≡ greatest_impact parts.terms) }
{
    payloads_are_read();
    let counted = has_postings(rows.as_slice(), u64_at(bytes, 24));
    let greatest = greatest(rows.as_slice());
    let (terms, end) = read_payloads(alloc, bytes, docs, rows, at)?;
    if end < bytes.len() {
        return Err(refused(end, OpenWhy::Length));
    }
    if !counted {
        return Err(refused(24, OpenWhy::Totals));
    }
    if u32_at(bytes, 32) != u32::from(greatest) {
        return Err(refused(32, OpenWhy::Totals));
    }
    Ok(Parts {
        names,
        terms,
        greatest,
    })
}

/// The parts of the index of a file.
#[tactic(auto, unfolding(crate::specs::Reading::read_index1, crate::specs::Reading::read_file1))]
pub fn read_parts(alloc: Global, bytes: &[u8]) -> Result<Parts, OpenFault>
    ensures exact { Answers parts_data result (read_index1 bytes.now) }
    ensures greatest { IfOk result (λ parts. parts.greatest ≡ greatest_impact parts.terms) }
{
    let (docs, count) = read_front1(bytes)?;
    let (names, from) = read_names(alloc, bytes, docs)?;
    let (rows, at) = read_rising(alloc, bytes, docs, count, from)?;
    match read_rest(alloc, bytes, docs, names, rows, at) {
        Ok(parts) => Ok(parts),
        Err(fault) => Err(fault),
    }
}
