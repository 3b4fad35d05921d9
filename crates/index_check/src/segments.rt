ghost use Rattle.std.specs.Prelude.{ℕ, ◌≡◌, ◌≤◌, ◌<◌, ◌*◌, ◌++◌, All, List, [], length, IfOk, OnOk};
ghost use Rattle.index_layout.specs.Reading.{docs_in, payload_end, read_segments};
ghost use Rattle.index_file.specs.Contents.{IsContent, Reads, outside};
ghost use Rattle.index_file.specs.Marks.{AreMarks};
ghost use Rattle.index_file.specs.Parts.{IsCounted, heads_from, told};
ghost use Rattle.index_check.specs.Private.Answers.{EndsSegments, Places};
ghost use Rattle.index_check.specs.Private.Pieces.{Holds};
ghost use Rattle.whole_files.specs.Windows.{AreFrom};
ghost use Rattle.jass_base.specs.declared.limits.TheConstants.{LONGEST_FILE, MOST_DOCUMENTS};

use crate::held::Held;
use index_file::parts::{SegmentHead, check_apart, head_of, moved};
use index_layout::{OpenFault, OpenWhy, refused};
use jass_base::Cabinet;

/// Checks the payloads of a term's segments from a place on, whose heads are given, and gives the place
/// behind the last. There is a mark for each document, below `now`.
pub(crate) fn check_segments<C: Cabinet>(
    files: &mut C,
    name: &str,
    held: &mut Held,
    docs: u32,
    heads: &[u8],
    count: u32,
    marks: &mut [u16],
    now: u16,
    from: usize,
    block: &mut [u32; 4096],
) -> Result<usize, OpenFault>
    requires from { from ≤ held.old.size }
    requires few { held.old.size ≤ LONGEST_FILE }
    requires docs { docs ≤ MOST_DOCUMENTS }
    requires heads { 11 * count ≤ length heads.now }
    requires marks { (docs ≤ length marks.old) × All (λ mark. mark < now) marks.old }
    ensures exact { (content : List ℕ) (place : ℕ) → IsContent (C.told files.old) name.now content
        → Holds content held.old → AreFrom content place heads.now
        → All (IsCounted docs) (heads_from content count place)
        → EndsSegments (heads_from content count place) result
        (read_segments content docs [] (heads_from content count place) from) }
    ensures marks { IfOk result (λ _. (docs ≤ length marks.new) × All (λ mark. mark ≤ now) marks.new) }
    ensures within { IfOk result (λ end. end ≤ held.old.size) }
    ensures held { (content : List ℕ) → IsContent (C.told files.old) name.now content
        → Holds content held.old → Holds content held.new }
    ensures size { held.new.size ≡ held.old.size }
    ensures reads { Reads (outside C.Cabinet files.old) (outside C.Cabinet files.new) name.now result }
{
    let mut at = from;
    'segments: for i in 0..count as usize {
        let head = head_of(heads, 11 * i);
        at = next_payload(files, name, held, docs, head, marks, now, at, block)?;
    }
    Ok(at)
}

/// Checks the payload at a place, marks its documents, and gives the place behind it.
#[inline(always)]
fn next_payload<C: Cabinet>(
    files: &mut C,
    name: &str,
    held: &mut Held,
    docs: u32,
    head: SegmentHead,
    marks: &mut [u16],
    now: u16,
    at: usize,
    block: &mut [u32; 4096],
) -> Result<usize, OpenFault>
    requires at { at ≤ held.old.size }
    requires few { held.old.size ≤ LONGEST_FILE }
    requires docs { docs ≤ MOST_DOCUMENTS }
    requires marks { docs ≤ length marks.old }
    requires most { All (λ mark. mark ≤ now) marks.old }
    ensures exact { (content earlier : List ℕ) → IsContent (C.told files.old) name.now content
        → Holds content held.old → IsCounted docs (told head) → AreMarks now earlier marks.old
        → Places result (payload_end content docs earlier (told head) at) }
    ensures marks { OnOk result ((content earlier : List ℕ) → IsContent (C.told files.old) name.now content
        → Holds content held.old → AreMarks now earlier marks.old
        → AreMarks now (earlier ++ docs_in content docs (told head) at) marks.new) }
    ensures docs { OnOk result ((content : List ℕ) → IsContent (C.told files.old) name.now content
        → Holds content held.old → length (docs_in content docs (told head) at) ≡ head.count) }
    ensures most { IfOk result (λ _. All (λ mark. mark ≤ now) marks.new) }
    ensures count { IfOk result (λ _. length marks.new ≡ length marks.old) }
    ensures within { IfOk result (λ next. next ≤ held.old.size) }
    ensures held { (content : List ℕ) → IsContent (C.told files.old) name.now content
        → Holds content held.old → Holds content held.new }
    ensures size { held.new.size ≡ held.old.size }
    ensures reads { Reads (outside C.Cabinet files.old) (outside C.Cabinet files.new) name.now result }
{
    // The heads stood checked: only a file that became another one has such a count now.
    if head.count == 0 || head.count > docs {
        return Err(refused(at, OpenWhy::Heads));
    }
    held.reach(files, name, at, head.size as usize)?;
    match check_apart(held.from(at), docs, head, 0, marks, now, block) {
        Ok(()) => Ok(at + head.size as usize),
        Err(fault) => Err(moved(fault, at)),
    }
}
