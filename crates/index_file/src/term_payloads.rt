ghost use Rattle.std.specs.Prelude.{◌≡◌, ◌≤◌, ◌<◌, ◌+◌, ◌++◌, All, [], length, drop, slice_range, IfOk, OnOk};
ghost use Rattle.index_layout.specs.Reading.{read_segments};
ghost use Rattle.index_layout.specs.Refusals.{Answers};
ghost use Rattle.jass_base.specs.declared.limits.TheConstants.{LONGEST_FILE, MOST_DOCUMENTS};
ghost use Rattle.index_file.specs.Private.Payloads.{AreGroups, ArePayloads, segments_from};
ghost use Rattle.index_file.specs.Parts.{IsCounted};

use crate::head_table::HeadTable;
use crate::payload::{check_apart, check_payload};
use index_layout::OpenFault;
use jass_base::Row;

/// Checks the payloads of one term's segments from a place on, whose heads are those from one number up to
/// another, puts where each group of four begins behind the other groups, and gives the place behind the
/// last. There is a mark for each document, below `now`.
pub(crate) fn read_term_payloads(
    bytes: &[u8],
    docs: u32,
    heads: &HeadTable,
    first: usize,
    last: usize,
    groups: &mut Row<u32>,
    marks: &mut [u16],
    now: u16,
    from: usize,
    block: &mut [u32; 4096],
) -> Result<usize, OpenFault>
    requires few { length bytes.now ≤ LONGEST_FILE }
    requires docs { docs ≤ MOST_DOCUMENTS }
    requires from { from ≤ length bytes.now }
    requires some { first < last }
    requires there { last ≤ length heads.now }
    requires counted { All (IsCounted docs) heads.now }
    requires marks { (docs ≤ length marks.old) × All (λ mark. mark < now) marks.old }
    ensures exact { Answers
        (λ end. record { segments = segments_from bytes.now docs (slice_range heads.now first last) from; end = end })
        result (read_segments bytes.now docs [] (slice_range heads.now first last) from) }
    ensures payloads { IfOk result (λ _. ArePayloads bytes.now docs (slice_range heads.now first last) from) }
    ensures kept { OnOk result (groups.new ≡ groups.old ++ drop (length groups.old) groups.new) }
    ensures groups { IfOk result
        (λ _. AreGroups (slice_range heads.now first last) from (drop (length groups.old) groups.new)) }
    ensures end { IfOk result (λ end. end ≤ length bytes.now) }
    ensures marks { IfOk result (λ _. (docs ≤ length marks.new) × All (λ mark. mark ≤ now) marks.new) }
{
    if last - first == 1 {
        // A segment alone shares no document with an earlier one.
        return read_only(bytes, docs, heads, first, groups, from);
    }
    read_apart(
        bytes, docs, heads, first, last, groups, marks, now, from, block,
    )
}

/// The same for a term of one segment.
fn read_only(
    bytes: &[u8],
    docs: u32,
    heads: &HeadTable,
    first: usize,
    groups: &mut Row<u32>,
    from: usize,
) -> Result<usize, OpenFault>
    requires few { length bytes.now ≤ LONGEST_FILE }
    requires docs { docs ≤ MOST_DOCUMENTS }
    requires from { from ≤ length bytes.now }
    requires there { first + 1 ≤ length heads.now }
    requires counted { All (IsCounted docs) heads.now }
    ensures exact { Answers
        (λ end. record {
          segments = segments_from bytes.now docs (slice_range heads.now first (first + 1)) from;
          end = end;
        })
        result (read_segments bytes.now docs [] (slice_range heads.now first (first + 1)) from) }
    ensures payloads { IfOk result (λ _. ArePayloads bytes.now docs (slice_range heads.now first (first + 1)) from) }
    ensures kept { OnOk result (groups.new ≡ groups.old ++ drop (length groups.old) groups.new) }
    ensures groups { IfOk result
        (λ _. AreGroups (slice_range heads.now first (first + 1)) from (drop (length groups.old) groups.new)) }
    ensures end { IfOk result (λ end. end ≤ length bytes.now) }
{
    let head = heads.at(first);
    check_payload(bytes, docs, head, from)?;
    match groups.push(from as u32) {
        Ok(()) => Ok(from + head.size as usize),
        Err(_) => Err(OpenFault::NoMemory),
    }
}

/// The same for any number of segments, whose documents are marked as they are met.
fn read_apart(
    bytes: &[u8],
    docs: u32,
    heads: &HeadTable,
    first: usize,
    last: usize,
    groups: &mut Row<u32>,
    marks: &mut [u16],
    now: u16,
    from: usize,
    block: &mut [u32; 4096],
) -> Result<usize, OpenFault>
    requires few { length bytes.now ≤ LONGEST_FILE }
    requires docs { docs ≤ MOST_DOCUMENTS }
    requires from { from ≤ length bytes.now }
    requires some { first < last }
    requires there { last ≤ length heads.now }
    requires counted { All (IsCounted docs) heads.now }
    requires marks { (docs ≤ length marks.old) × All (λ mark. mark < now) marks.old }
    ensures exact { Answers
        (λ end. record { segments = segments_from bytes.now docs (slice_range heads.now first last) from; end = end })
        result (read_segments bytes.now docs [] (slice_range heads.now first last) from) }
    ensures payloads { IfOk result (λ _. ArePayloads bytes.now docs (slice_range heads.now first last) from) }
    ensures kept { OnOk result (groups.new ≡ groups.old ++ drop (length groups.old) groups.new) }
    ensures groups { IfOk result
        (λ _. AreGroups (slice_range heads.now first last) from (drop (length groups.old) groups.new)) }
    ensures end { IfOk result (λ end. end ≤ length bytes.now) }
    ensures marks { IfOk result (λ _. (docs ≤ length marks.new) × All (λ mark. mark ≤ now) marks.new) }
{
    let mut at = from;
    'segments: for i in 0..last - first {
        let head = heads.at(first + i);
        check_apart(bytes, docs, head, at, marks, now, block)?;
        if i % 4 == 0 {
            match groups.push(at as u32) {
                Ok(()) => {}
                Err(_) => return Err(OpenFault::NoMemory),
            }
        }
        at += head.size as usize;
    }
    Ok(at)
}
