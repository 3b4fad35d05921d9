ghost use Rattle.std.specs.Prelude.{ℕ, ◌≡◌, ◌≤◌, ◌*◌, ◌+◌, None, Ok, List, length, IfOk, IfErr};
ghost use Rattle.index_layout.specs.Reading.{TermsRead, heads_in, read_payloads, read_terms, segments_place};
ghost use Rattle.index_file.specs.Contents.{IsContent, Reads, outside};
ghost use Rattle.index_file.specs.Answers.{IsNotRefused};
ghost use Rattle.index_check.specs.Private.Answers.{EndsIndex};
ghost use Rattle.index_check.specs.Private.Pieces.{Holds};
ghost use Rattle.whole_files.specs.Windows.{IsAt};
ghost use Rattle.jass_base.specs.declared.limits.TheConstants.{LONGEST_FILE, MOST_DOCUMENTS};

use crate::held::Held;
use crate::segments::check_segments;
use crate::term::term_room;
use index_file::parts::{next_mark, u32_at};
use index_layout::{OpenFault, OpenWhy, refused};
use jass_base::Cabinet;
use std::alloc::Global;

/// Checks the payloads of so many terms, which stand checked from a place on, and gives the place behind the
/// last. Meanwhile it takes two bytes for each document.
pub(crate) fn check_payloads<C: Cabinet>(
    alloc: Global,
    files: &mut C,
    name: &str,
    held: &mut Held,
    docs: u32,
    count: u32,
    from: usize,
    payloads: usize,
) -> Result<usize, OpenFault>
    requires from { from ≤ held.old.size }
    requires payloads { payloads ≤ held.old.size }
    requires few { held.old.size ≤ LONGEST_FILE }
    requires docs { docs ≤ MOST_DOCUMENTS }
    ensures exact { (content : List ℕ) (x : TermsRead) → IsContent (C.told files.old) name.now content
        → Holds content held.old → read_terms content docs count None from ≡ Ok x
        → EndsIndex x.terms result (read_payloads content docs x.terms payloads) }
    ensures within { IfOk result (λ end. end ≤ held.old.size) }
    ensures reads { Reads (outside C.Cabinet files.old) (outside C.Cabinet files.new) name.now result }
{
    let mut table = match vec![in alloc; 0u16; docs as usize] {
        Ok(table) => table,
        Err(_) => return Err(OpenFault::NoMemory),
    };
    let marks = table.as_mut_slice();
    let mut ahead = Held::new(alloc, held.size);
    let mut block = [0u32; 4096];
    let mut now = 0;
    let mut term = from;
    let mut at = payloads;
    'terms: for _ in 0..count {
        let (place, heads) = find_heads(files, name, held, term)?;
        now = next_mark(marks, now);
        at = check_segments(
            files,
            name,
            &mut ahead,
            docs,
            held.from(place),
            heads,
            marks,
            now,
            at,
            &mut block,
        )?;
        term = place + 11 * heads as usize;
    }
    Ok(at)
}

/// Finds the heads of the term at a place again: their place and their number. They are held then.
fn find_heads<C: Cabinet>(
    files: &mut C,
    name: &str,
    held: &mut Held,
    at: usize,
) -> Result<(usize, u32), OpenFault>
    requires at { at ≤ held.old.size }
    requires few { held.old.size ≤ LONGEST_FILE }
    ensures place { IfOk result (λ x. (content : List ℕ) → IsContent (C.told files.old) name.now content
        → Holds content held.old → (x.0 ≡ segments_place content at + 4) × (x.1 ≡ heads_in content at)) }
    ensures there { IfOk result (λ x. IsAt x.0 held.new.window
        × (x.0 + 11 * x.1 ≤ held.new.window.start + length held.new.window.bytes.items)
        × (x.0 + 11 * x.1 ≤ held.old.size)) }
    ensures refused { IfErr result (λ fault. (content : List ℕ) → IsContent (C.told files.old) name.now content
        → Holds content held.old → segments_place content at + 4 + 11 * heads_in content at ≤ length content
        → IsNotRefused fault) }
    ensures held { (content : List ℕ) → IsContent (C.told files.old) name.now content
        → Holds content held.old → Holds content held.new }
    ensures size { held.new.size ≡ held.old.size }
    ensures reads { Reads (outside C.Cabinet files.old) (outside C.Cabinet files.new) name.now result }
{
    held.reach(files, name, at, 4)?;
    let room = term_room(held.from(at));
    held.reach(files, name, at, room)?;
    let bytes = held.from(at);
    // Here and below, only a file that became another one is refused: its heads stood checked.
    if bytes.len() < room {
        return Err(refused(at, OpenWhy::Length));
    }
    let count = u32_at(bytes, room - 4);
    let size = 11 * count as usize;
    held.reach(files, name, at + room, size)?;
    if held.from(at + room).len() < size {
        return Err(refused(at, OpenWhy::Length));
    }
    Ok((at + room, count))
}
