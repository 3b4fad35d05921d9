ghost use Rattle.std.specs.Prelude.{ℕ, ◌≡◌, ◌≤◌, ◌<◌, ◌+◌, ◌++◌, [], List, length, map, All, IfOk, OnOk};
ghost use Rattle.index_model.specs.Views.{segment_data};
ghost use Rattle.index_layout.proofs.HeadLaws.{HeadsFall};
ghost use Rattle.index_layout.specs.Reading.{docs_in, payload_end, read_segments};
ghost use Rattle.index_layout.specs.Refusals.{Answers};
ghost use Rattle.index_version1.specs.Private.Tables.{Marks, head_data};
ghost use Rattle.jass_base.specs.declared.limits.TheConstants.{GREATEST_IMPACT, LONGEST_FILE, MOST_DOCUMENTS};

use crate::docs::read_docs;
use crate::head::Head;
use crate::marks::{has_marked, mark_all};
use index_layout::{OpenFault, OpenWhy, refused};
use jass_base::{Row, Segment};
use segment_codecs::laws::payloads_are_read;
use std::alloc::Global;

/// The segment with a head, whose payload stands at a place. Its documents are marked.
#[tactic(auto, unfolding(index_layout::specs::Reading::payload_end, index_layout::specs::Reading::docs_in, index_layout::specs::Reading::read_segment))]
fn read_segment(
    alloc: Global,
    bytes: &[u8],
    d: u32,
    head: Head,
    at: usize,
    seen: &mut [u32],
    mark: u32,
) -> Result<Segment, OpenFault>
    requires impact { 1 ≤ head.impact }
    requires some { 1 ≤ head.count }
    requires few { head.count ≤ d }
    requires limit { d ≤ MOST_DOCUMENTS }
    requires at { at ≤ length bytes.now }
    requires short { length bytes.now ≤ LONGEST_FILE }
    requires seen { length seen.old ≡ d }
    ensures exact { (earlier : List ℕ) → Marks seen.old mark earlier
        → Answers (λ _. at + head.size) result (payload_end bytes.now d earlier (head_data head) at) }
    ensures segment { IfOk result (λ s. segment_data s
        ≡ record { impact = head.impact; docs = docs_in bytes.now d (head_data head) at }) }
    ensures marks { (earlier : List ℕ) → Marks seen.old mark earlier
        → OnOk result (Marks seen.new mark (earlier ++ docs_in bytes.now d (head_data head) at)) }
    ensures most { (most : ℕ) → All (λ n. n ≤ most) seen.old → mark ≤ most → All (λ n. n ≤ most) seen.new }
    ensures within { IfOk result (λ _. at + head.size ≤ length bytes.now) }
{
    let size = head.size as usize;
    if bytes.len() - at < size {
        return Err(refused(at, OpenWhy::Length));
    }
    let docs = read_docs(alloc, &bytes[at..at + size], head, d, at)?;
    if has_marked(seen, mark, docs.as_slice()) {
        return Err(refused(at, OpenWhy::DocTwice));
    }
    mark_all(seen, mark, docs.as_slice());
    Ok(Segment {
        impact: head.impact,
        docs,
    })
}

/// The segments with these heads, whose payloads stand from a place on, and the place behind the
/// last. Their documents are marked; before, none is.
pub fn read_segments(
    alloc: Global,
    bytes: &[u8],
    d: u32,
    heads: &[Head],
    from: usize,
    seen: &mut [u32],
    mark: u32,
) -> Result<(Row<Segment>, usize), OpenFault>
    requires fall { HeadsFall d (GREATEST_IMPACT + 1) (map head_data heads.now) }
    requires limit { d ≤ MOST_DOCUMENTS }
    requires from { from ≤ length bytes.now }
    requires short { length bytes.now ≤ LONGEST_FILE }
    requires seen { length seen.old ≡ d }
    requires none { Marks seen.old mark [] }
    ensures exact { Answers (λ x. record { segments = map segment_data x.0; end = x.1 }) result
        (read_segments bytes.now d [] (map head_data heads.now) from) }
    ensures end { IfOk result (λ x. x.1 ≤ length bytes.now) }
    ensures most { (most : ℕ) → All (λ n. n ≤ most) seen.old → mark ≤ most → All (λ n. n ≤ most) seen.new }
{
    let mut segments = Row::new(alloc);
    let mut at = from;
    for head in heads {
        let segment = read_segment(alloc, bytes, d, *head, at, seen, mark)?;
        match segments.push(segment) {
            Ok(()) => {}
            Err(_) => return Err(OpenFault::NoMemory),
        }
        at += head.size as usize;
    }
    Ok((segments, at))
}
