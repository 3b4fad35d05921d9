ghost use Rattle.std.specs.Prelude.{ℕ, ◌≡◌, ◌≤◌, ◌+◌, List, length, IfOk};
ghost use Rattle.index_layout.specs.Bytes.{u32_in};
ghost use Rattle.index_layout.specs.Reading.{NamesRead, name_end, read_names};
ghost use Rattle.index_file.specs.Contents.{IsContent, Reads, outside};
ghost use Rattle.index_check.specs.Private.Answers.{Ends, Places};
ghost use Rattle.index_check.specs.Private.Pieces.{Holds};
ghost use Rattle.jass_base.specs.declared.limits.TheConstants.{LONGEST_FILE, LONGEST_NAME};

use crate::held::Held;
use index_file::parts::{moved, name_end, u32_at};
use index_layout::OpenFault;
use jass_base::Cabinet;
use jass_base::limits::LONGEST_NAME;

/// Checks so many names behind the first 40 bytes, and gives the place behind the last.
pub(crate) fn check_names<C: Cabinet>(
    files: &mut C,
    name: &str,
    held: &mut Held,
    docs: u32,
) -> Result<usize, OpenFault>
    requires front { 40 ≤ held.old.size }
    requires few { held.old.size ≤ LONGEST_FILE }
    ensures exact { (content : List ℕ) → IsContent (C.told files.old) name.now content → Holds content held.old
        → Ends (λ (x : NamesRead). x.end) result (read_names content docs 40) }
    ensures within { IfOk result (λ end. end ≤ held.old.size) }
    ensures held { (content : List ℕ) → IsContent (C.told files.old) name.now content
        → Holds content held.old → Holds content held.new }
    ensures size { held.new.size ≡ held.old.size }
    ensures reads { Reads (outside C.Cabinet files.old) (outside C.Cabinet files.new) name.now result }
{
    let mut at = 40;
    'names: for _ in 0..docs {
        at = next_name(files, name, held, at)?;
    }
    Ok(at)
}

/// Checks the name at a place, and gives the place behind it.
fn next_name<C: Cabinet>(
    files: &mut C,
    name: &str,
    held: &mut Held,
    at: usize,
) -> Result<usize, OpenFault>
    requires at { at ≤ held.old.size }
    requires few { held.old.size ≤ LONGEST_FILE }
    ensures exact { (content : List ℕ) → IsContent (C.told files.old) name.now content → Holds content held.old
        → Places result (name_end content at) }
    ensures within { IfOk result (λ next. next ≤ held.old.size) }
    ensures held { (content : List ℕ) → IsContent (C.told files.old) name.now content
        → Holds content held.old → Holds content held.new }
    ensures size { held.new.size ≡ held.old.size }
    ensures reads { Reads (outside C.Cabinet files.old) (outside C.Cabinet files.new) name.now result }
{
    held.reach(files, name, at, 4)?;
    let room = name_room(held.from(at));
    held.reach(files, name, at, room)?;
    match name_end(held.from(at), 0) {
        Ok(size) => Ok(at + size),
        Err(fault) => Err(moved(fault, at)),
    }
}

/// How many bytes the name at the front of some bytes has with its length; 4 where it would be too long
/// for a name.
fn name_room(bytes: &[u8]) -> usize
    ensures most { (4 ≤ result) × (result ≤ 4 + LONGEST_NAME) }
    ensures room { 4 ≤ length bytes.now → u32_in bytes.now 0 ≤ LONGEST_NAME → result ≡ 4 + u32_in bytes.now 0 }
{
    if bytes.len() < 4 {
        return 4;
    }
    let size = u32_at(bytes, 0) as usize;
    if size > LONGEST_NAME {
        return 4;
    }
    4 + size
}
