ghost use Rattle.std.specs.Prelude.{ℕ, ◌≡◌, ◌≤◌, ◌⊎◌, List, length, IfErr, IfOk, IfSome, IsErrOf};
ghost use Rattle.jass_base.specs.Outside.{Rose, IsMissing, OnContent};
ghost use Rattle.whole_files.specs.Windows.{Shows};
ghost use Rattle.index_layout.specs.View.{IsFileView, file_bytes};
ghost use Rattle.index_file.specs.Answers.{IsNotRefused};
ghost use Rattle.index_file.specs.Contents.{Reads, outside};
ghost use Rattle.index_file.specs.Opening.{Opens};
ghost use Rattle.index_file.specs.Private.Outlines.{AreLeadingParts};
ghost use Rattle.jass_base.specs.declared.limits.TheConstants.{LONGEST_FILE};

use crate::file::IndexFile;
use crate::front::{Front, check_front};
use crate::held_terms::read_held_terms;
use crate::holding::{front_of, hold, hold_names, start_over_at};
use crate::outline::{Outline, first_bytes, names_of};
use crate::small::are_bytes;
use index_layout::OpenFault;
use index_layout::laws::files_are_read;
use jass_base::limits::LONGEST_FILE;
use jass_base::{Cabinet, ReadStop, Row};
use std::alloc::Global;
use whole_files::{Window, read_front};

/// How many bytes of a file are read at the most: one more than an index file may have, since a
/// longer file is refused whatever else stands in it.
const MOST_BYTES: usize = LONGEST_FILE as usize + 1;

/// Opens the index file with a name, or tells the first refusal. Its front is checked first. Then it is read part
/// by part, so that it isn't held whole: what was read of the terms is let go of on the way. Only a file that is
/// refused behind its front is read whole, for its first refusal.
pub fn open<C: Cabinet>(alloc: Global, files: &mut C, name: &str) -> Result<IndexFile, OpenFault>
    ensures exact { Opens (C.told files.old) name.now result }
    ensures accepted { IfOk result (λ file. IsFileView file) }
    ensures fault { IsErrOf result OpenFault.ReadFault
        → Rose (C.read_faults files.old) (C.read_faults files.new) ⊎ IsMissing (C.told files.old) name.now }
    ensures stays { C.told files.new ≡ C.told files.old }
    ensures later { C.read_faults files.old ≤ C.read_faults files.new }
    ensures others { C.write_faults files.old ≤ C.write_faults files.new }
{
    files_are_read();
    let front = check_front(alloc, files, name)?;
    match open_parts(alloc, files, name, front) {
        Ok(Some(file)) => Ok(file),
        Ok(None) => open_whole(alloc, files, name),
        Err(fault) => Err(fault),
    }
}

/// The same, where the file is read whole.
fn open_whole<C: Cabinet>(alloc: Global, files: &mut C, name: &str) -> Result<IndexFile, OpenFault>
    ensures exact { Opens (C.told files.old) name.now result }
    ensures accepted { IfOk result (λ file. IsFileView file) }
    ensures reads { Reads (outside C.Cabinet files.old) (outside C.Cabinet files.new) name.now result }
{
    let bytes = match read_front(alloc, files, name, MOST_BYTES) {
        Ok(bytes) => bytes,
        Err(ReadStop::ReadFault) => return Err(OpenFault::ReadFault),
        Err(ReadStop::NoMemory) => return Err(OpenFault::NoMemory),
    };
    match IndexFile::from_bytes(alloc, bytes) {
        Ok(file) => Ok(file),
        Err(fault) => Err(fault),
    }
}

/// The file whose front was checked, read part by part; none where it is refused behind the front.
fn open_parts<C: Cabinet>(
    alloc: Global,
    files: &mut C,
    name: &str,
    front: Front,
) -> Result<Option<IndexFile>, OpenFault>
    requires size { front.size ≤ LONGEST_FILE }
    requires told { OnContent (C.told files.old) name.now (λ content. front.size ≡ length content) }
    ensures spelled { IfOk result (λ found. IfSome found (λ file.
        OnContent (C.told files.old) name.now (λ content. content ≡ file_bytes file))) }
    ensures accepted { IfOk result (λ found. IfSome found (λ file. IsFileView file)) }
    ensures unrefused { IfErr result (λ fault. IsNotRefused fault) }
    ensures reads { Reads (outside C.Cabinet files.old) (outside C.Cabinet files.new) name.now result }
{
    let mut part = Window::new(alloc);
    let Some(leading) = open_leading(alloc, files, name, &mut part, front)? else {
        return Ok(None);
    };
    let LeadingParts {
        names,
        outline,
        place,
    } = leading;
    let left = front.size - place;
    start_over_at(&mut part, place as u64);
    if !hold(files, name, &mut part, left, left)? {
        return Ok(None);
    }
    let payloads = front_of(part, left);
    are_bytes(names.as_slice());
    are_bytes(payloads.as_slice());
    match IndexFile::of_parts(alloc, outline, names, payloads, place) {
        Ok(file) => Ok(Some(file)),
        Err(OpenFault::NoMemory) => Err(OpenFault::NoMemory),
        Err(_) => Ok(None),
    }
}

/// What stands before the payloads of a file: the front with the names, the tables, and the place behind.
#[derive(Drop)]
pub(crate) struct LeadingParts {
    pub(crate) names: Row<u8>,
    pub(crate) outline: Outline,
    pub(crate) place: usize,
}

/// Reads what stands before the payloads of a file through an empty part; none where it is refused.
fn open_leading<C: Cabinet>(
    alloc: Global,
    files: &mut C,
    name: &str,
    part: &mut Window,
    front: Front,
) -> Result<Option<LeadingParts>, OpenFault>
    requires size { front.size ≤ LONGEST_FILE }
    requires start { part.old.start ≡ 0 }
    requires shown { (content : List ℕ) → Shows content part.old }
    ensures leading { IfOk result (λ found. IfSome found (λ leading.
        (terms : List ℕ) × AreLeadingParts (C.told files.old) name.now front.size leading terms)) }
    ensures unrefused { IfErr result (λ fault. IsNotRefused fault) }
    ensures reads { Reads (outside C.Cabinet files.old) (outside C.Cabinet files.new) name.now result }
{
    let Some(names_end) = hold_names(files, name, part, front.docs, front.size)? else {
        return Ok(None);
    };
    let names = first_bytes(alloc, part.bytes.as_slice(), names_end)?;
    let Some((places, count)) = names_of(alloc, names.as_slice(), front.size)? else {
        return Ok(None);
    };
    start_over_at(part, names_end as u64);
    let docs = places.len() as u32;
    let held = read_held_terms(alloc, files, name, part, docs, count, front.size)?;
    let Some((terms, sums, place)) = held else {
        return Ok(None);
    };
    Ok(Some(LeadingParts {
        names,
        outline: Outline {
            places,
            terms,
            count,
            sums,
        },
        place,
    }))
}
