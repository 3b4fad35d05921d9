ghost use Rattle.std.specs.Prelude.{ℕ, ◌≡◌, ◌≤◌, ◌+◌, [], List, true, length, drop, IfErr, IfOk, IfSome};
ghost use Rattle.whole_files.specs.Windows.{AreFrom, Shows};
ghost use Rattle.index_file.specs.Answers.{IsNotRefused};
ghost use Rattle.index_file.specs.Contents.{IsContent, Reads, outside};
ghost use Rattle.jass_base.specs.declared.limits.TheConstants.{LONGEST_FILE};

use crate::number::u32_at;
use index_layout::OpenFault;
use jass_base::{Cabinet, ReadStop, Row};
use whole_files::Window;

/// Sees to it that the front of a file of so many bytes is held with so many names, whose lengths tell where
/// they end, and gives that place; none where it is behind the size, or behind the file's end. No byte of a name is
/// checked.
pub(crate) fn hold_names<C: Cabinet>(
    files: &mut C,
    name: &str,
    part: &mut Window,
    docs: u32,
    size: usize,
) -> Result<Option<usize>, OpenFault>
    requires start { part.old.start ≡ 0 }
    requires size { size ≤ LONGEST_FILE }
    ensures long { IfOk result (λ found. IfSome found (λ end. 40 ≤ end)) }
    ensures held { IfOk result (λ found. IfSome found (λ end. end ≤ length part.new.bytes.items)) }
    ensures within { IfOk result (λ found. IfSome found (λ end. end ≤ size)) }
    ensures start { part.new.start ≡ 0 }
    ensures shown { (content : List ℕ) → IsContent (C.told files.old) name.now content
        → Shows content part.old → Shows content part.new }
    ensures unrefused { IfErr result (λ fault. IsNotRefused fault) }
    ensures reads { Reads (outside C.Cabinet files.old) (outside C.Cabinet files.new) name.now result }
{
    let mut at = 40;
    'names: for _ in 0..docs {
        if !hold(files, name, part, at + 4, size)? {
            return Ok(None);
        }
        at += 4 + u32_at(part.bytes.as_slice(), at) as usize;
    }
    if !hold(files, name, part, at, size)? {
        return Ok(None);
    }
    Ok(Some(at))
}

/// Sees to it that so many bytes of a part are held, and tells whether they are: not where they are more than
/// it may have, nor where the file ends before.
#[inline(always)]
pub(crate) fn hold<C: Cabinet>(
    files: &mut C,
    name: &str,
    part: &mut Window,
    count: usize,
    most: usize,
) -> Result<bool, OpenFault>
    requires start { part.old.start ≤ LONGEST_FILE }
    requires most { most ≤ LONGEST_FILE }
    ensures held { IfOk result (λ held. held ≡ true → count ≤ length part.new.bytes.items) }
    ensures within { IfOk result (λ held. held ≡ true → count ≤ most) }
    ensures start { part.new.start ≡ part.old.start }
    ensures shown { (content : List ℕ) → IsContent (C.told files.old) name.now content
        → Shows content part.old → Shows content part.new }
    ensures unrefused { IfErr result (λ fault. IsNotRefused fault) }
    ensures reads { Reads (outside C.Cabinet files.old) (outside C.Cabinet files.new) name.now result }
{
    if count > most {
        return Ok(false);
    }
    if part.bytes.len() >= count {
        return Ok(true);
    }
    match part.fill(files, name, count) {
        Ok(()) => Ok(part.bytes.len() >= count),
        Err(ReadStop::ReadFault) => Err(OpenFault::ReadFault),
        Err(ReadStop::NoMemory) => Err(OpenFault::NoMemory),
    }
}

/// Lets go of what a part holds, and begins it at another place. Its memory is used again.
pub(crate) fn start_over_at(part: &mut Window, start: u64)
    ensures bytes { part.new.bytes.items ≡ [] }
    ensures start { part.new.start ≡ start }
{
    part.bytes.clear();
    part.start = start;
}

/// Lets go of the first bytes of a part.
pub(crate) fn let_go(part: &mut Window, count: usize)
    requires count { count ≤ length part.old.bytes.items }
    requires place { part.old.start + count ≤ LONGEST_FILE }
    ensures start { part.new.start ≡ part.old.start + count }
    ensures shown { (content : List ℕ) → Shows content part.old → Shows content part.new }
{
    drop_first(&mut part.bytes, count);
    part.start += count as u64;
}

/// Drops the first of some bytes. The rest moves to the front of their memory.
fn drop_first(bytes: &mut Vec<u8>, count: usize)
    requires { count ≤ length bytes.old.items }
    ensures { bytes.new.items ≡ drop count bytes.old.items }
{
    let left = bytes.len() - count;
    bytes.copy_within(count.., 0);
    bytes.truncate(left);
}

/// The first bytes of a part, in its memory.
pub(crate) fn front_of(part: Window, count: usize) -> Row<u8>
    requires { count ≤ length part.bytes.items }
    ensures shown { (content : List ℕ) → Shows content part → AreFrom content part.start result }
    ensures size { length result ≡ count }
{
    let Window {
        mut bytes,
        start: _,
    } = part;
    bytes.truncate(count);
    bytes.shrink_to_fit();
    Row::from_vec(bytes)
}

/// What stands in some bytes from a place on, in their memory.
pub(crate) fn rest_of(bytes: Row<u8>, at: usize) -> Row<u8>
    requires { at ≤ length bytes }
    ensures { result ≡ drop at bytes }
{
    let mut rest = bytes.into_vec();
    drop_first(&mut rest, at);
    rest.shrink_to_fit();
    Row::from_vec(rest)
}
