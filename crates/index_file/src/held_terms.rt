ghost use Rattle.std.specs.Prelude.{ℕ, ◌≡◌, ◌≤◌, ◌+◌, List, length, IfErr, IfOk, IfSome};
ghost use Rattle.whole_files.specs.Windows.{Shows};
ghost use Rattle.index_file.specs.Answers.{IsNotRefused};
ghost use Rattle.index_file.specs.Contents.{IsContent, Reads, outside};
ghost use Rattle.index_file.specs.Private.Gathered.{AreTerms, FixesTerms};
ghost use Rattle.jass_base.specs.declared.limits.TheConstants.{LONGEST_FILE, MOST_DOCUMENTS};

use crate::holding::{hold, let_go};
use crate::number::{u16_at, u32_at};
use crate::small::are_bytes;
use crate::sums::Sums;
use crate::term_reader::TermReader;
use crate::term_table::TermTable;
use crate::terms::most_text;
use index_layout::OpenFault;
use jass_base::Cabinet;
use std::alloc::Global;
use whole_files::Window;

/// So many terms with their heads of a file of so many bytes, from where an empty part begins, the sums of the heads,
/// and the place behind the last; none where one is refused. Each is read as soon as it is held, so that the part
/// stays small.
#[inline(never)]
pub(crate) fn read_held_terms<C: Cabinet>(
    alloc: Global,
    files: &mut C,
    name: &str,
    part: &mut Window,
    docs: u32,
    count: u32,
    size: usize,
) -> Result<Option<(TermTable, Sums, usize)>, OpenFault>
    requires start { part.old.start ≤ size }
    requires shown { (content : List ℕ) → Shows content part.old }
    requires size { size ≤ LONGEST_FILE }
    requires docs { docs ≤ MOST_DOCUMENTS }
    ensures terms { IfOk result (λ found. IfSome found (λ x. (terms : List ℕ)
        × AreTerms (C.told files.old) name.now part.old.start x.2 terms × FixesTerms terms docs count x.0 x.1)) }
    ensures within { IfOk result (λ found. IfSome found (λ x. x.2 ≤ size)) }
    ensures unrefused { IfErr result (λ fault. IsNotRefused fault) }
    ensures reads { Reads (outside C.Cabinet files.old) (outside C.Cabinet files.new) name.now result }
{
    let most_text = most_text(size);
    let mut reader = TermReader::new(alloc);
    let mut at = 0;
    'terms: for _ in 0..count {
        let Some((from, to)) = next_term(files, name, part, at, size)? else {
            return Ok(None);
        };
        let term = &part.bytes.as_slice()[from..to];
        are_bytes(term);
        if !reader.read_whole(term, docs, most_text)? {
            return Ok(None);
        }
        at = to;
    }
    let (table, sums) = reader.finish()?;
    Ok(Some((table, sums, part.start as usize + at)))
}

/// Sees to it that the term at a place among the bytes of a part is held with its heads, and gives where it begins
/// and ends among them then; none where it ends behind the size of the file, or behind the file's end. What stands
/// before it is let go of where more is read. No byte of it is checked.
#[inline(always)]
fn next_term<C: Cabinet>(
    files: &mut C,
    name: &str,
    part: &mut Window,
    at: usize,
    size: usize,
) -> Result<Option<(usize, usize)>, OpenFault>
    requires at { at ≤ length part.old.bytes.items }
    requires place { part.old.start + at ≤ size }
    requires size { size ≤ LONGEST_FILE }
    ensures place { IfOk result (λ found. IfSome found (λ x. part.new.start + x.0 ≡ part.old.start + at)) }
    ensures some { IfOk result (λ found. IfSome found (λ x. x.0 + 8 ≤ x.1)) }
    ensures held { IfOk result (λ found. IfSome found (λ x. x.1 ≤ length part.new.bytes.items)) }
    ensures within { IfOk result (λ found. IfSome found (λ x. part.new.start + x.1 ≤ size)) }
    ensures shown { (content : List ℕ) → IsContent (C.told files.old) name.now content
        → Shows content part.old → Shows content part.new }
    ensures unrefused { IfErr result (λ fault. IsNotRefused fault) }
    ensures reads { Reads (outside C.Cabinet files.old) (outside C.Cabinet files.new) name.now result }
{
    let most = size - part.start as usize;
    if let Some(end) = held_end(part.bytes.as_slice(), at) {
        if end > most {
            return Ok(None);
        }
        return Ok(Some((at, end)));
    }
    let_go(part, at);
    let Some(end) = hold_term(files, name, part, most - at)? else {
        return Ok(None);
    };
    Ok(Some((0, end)))
}

/// Where the term at a place of some bytes ends with its heads, if they are among them.
#[inline(always)]
fn held_end(bytes: &[u8], at: usize) -> Option<usize>
    requires at { at ≤ length bytes.now }
    requires few { at ≤ LONGEST_FILE }
    ensures some { IfSome result (λ end. at + 8 ≤ end) }
    ensures held { IfSome result (λ end. end ≤ length bytes.now) }
{
    let left = bytes.len() - at;
    if left < 4 {
        return None;
    }
    let size = u16_at(bytes, at + 2) as usize;
    if left < 8 + size {
        return None;
    }
    let heads = u32_at(bytes, at + 4 + size) as usize;
    let count = 8 + size + 11 * heads;
    if left < count {
        return None;
    }
    Some(at + count)
}

/// Sees to it that the term at the front of a part is held with its heads, and gives where it ends; none where that
/// is behind so many bytes, or behind the file's end.
#[inline(never)]
fn hold_term<C: Cabinet>(
    files: &mut C,
    name: &str,
    part: &mut Window,
    most: usize,
) -> Result<Option<usize>, OpenFault>
    requires start { part.old.start ≤ LONGEST_FILE }
    requires most { most ≤ LONGEST_FILE }
    ensures some { IfOk result (λ found. IfSome found (λ end. 8 ≤ end)) }
    ensures held { IfOk result (λ found. IfSome found (λ end. end ≤ length part.new.bytes.items)) }
    ensures within { IfOk result (λ found. IfSome found (λ end. end ≤ most)) }
    ensures start { part.new.start ≡ part.old.start }
    ensures shown { (content : List ℕ) → IsContent (C.told files.old) name.now content
        → Shows content part.old → Shows content part.new }
    ensures unrefused { IfErr result (λ fault. IsNotRefused fault) }
    ensures reads { Reads (outside C.Cabinet files.old) (outside C.Cabinet files.new) name.now result }
{
    if !hold(files, name, part, 4, most)? {
        return Ok(None);
    }
    let size = u16_at(part.bytes.as_slice(), 2) as usize;
    if !hold(files, name, part, 8 + size, most)? {
        return Ok(None);
    }
    let heads = u32_at(part.bytes.as_slice(), 4 + size) as usize;
    let end = 8 + size + 11 * heads;
    if !hold(files, name, part, end, most)? {
        return Ok(None);
    }
    Ok(Some(end))
}
