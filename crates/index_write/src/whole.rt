//! An index file that is written in one call.

ghost use Rattle.std.specs.Prelude.{◌≡◌, ◌<◌, ◌≤◌, ◌++◌, ◌+◌, ◌-◌, ◌^◌, List, ℕ, length, min, IfErr, IfOk, IsErrOf, OnErr, OnOk};
ghost use Rattle.jass_base.specs.Outside.{Rose, Sets};
ghost use Rattle.index_layout.specs.Heads.{TermHeads as EntryData};
ghost use Rattle.index_layout.specs.Layout.{file_length, front_bytes};
ghost use Rattle.index_write.specs.Private.Front.{first_bytes};
ghost use Rattle.index_write.specs.Private.Pieces.{Makes};
ghost use Rattle.index_write.specs.Saving.{LeavesPrefix, Untouched};
ghost use Rattle.index_write.specs.Spelled.{HasNames, HasParts};
ghost use Rattle.index_write.specs.Streaming.{Unbegun, entries_totals};
ghost use Rattle.jass_base.specs.declared.limits.TheConstants.{LONGEST_FILE};

use crate::blocks::{Blocks, append_blocks};
use crate::bytes::first_bytes;
use crate::fault::SaveFault;
use crate::laws::entries_are_small;
use crate::pieces::{append, create};
use crate::spelled_names::SpelledNames;
use crate::spelled_terms::SpelledTerms;
use jass_base::limits::LONGEST_FILE;
use jass_base::{Cabinet, Failed, NoMemory, Row, Totals};
use std::alloc::Global;

/// Makes the file of a name the index file of spelled names, spelled terms and payloads, and gives
/// its totals. What it promises holds for the names and the terms that were spelled, where a file may
/// have them and the payloads have as many bytes as the heads say. That the payloads are those of the
/// terms is left to the caller. The length is judged, and then all memory taken, before the file is
/// touched. TooLarge comes exactly where the length is above 2^32, and a WriteFault only where the
/// files counted one.
pub fn write_parts<C: Cabinet>(
    alloc: Global,
    names: &SpelledNames,
    terms: &SpelledTerms,
    payloads: &Blocks,
    files: &mut C,
    name: &str,
) -> Result<Totals, SaveFault>
    ensures totals { (all : List (List ℕ)) (entries : List EntryData) → HasNames names.now all
        → HasParts terms.now payloads.now entries
        → IfOk result (λ totals. totals ≡ entries_totals (length all) entries) }
    ensures content { (all : List (List ℕ)) (entries : List EntryData) → HasNames names.now all
        → HasParts terms.now payloads.now entries
        → OnOk result (Sets (C.told files.old) (C.told files.new) name.now
        (front_bytes all entries ++ payloads.now)) }
    ensures fits { (all : List (List ℕ)) (entries : List EntryData) → HasNames names.now all
        → HasParts terms.now payloads.now entries → OnOk result (file_length all entries ≤ LONGEST_FILE) }
    ensures fault { (all : List (List ℕ)) (entries : List EntryData) → HasNames names.now all
        → HasParts terms.now payloads.now entries → IfErr result (Unbegun (file_length all entries)) }
    ensures untouched { IfErr result (Untouched files.old files.new) }
    ensures front { (all : List (List ℕ)) (entries : List EntryData) → HasNames names.now all
        → HasParts terms.now payloads.now entries
        → OnErr result (LeavesPrefix (C.told files.old) (C.told files.new) name.now
        (front_bytes all entries ++ payloads.now)) }
    ensures cause { IsErrOf result SaveFault.WriteFault
        → Rose (C.write_faults files.old) (C.write_faults files.new) }
    ensures later { C.write_faults files.old ≤ C.write_faults files.new }
    ensures others { C.read_faults files.old ≤ C.read_faults files.new }
{
    entries_are_small();
    let totals = terms.totals(names.len());
    let docs = names.as_slice();
    let len = file_len(docs, terms, payloads);
    if len > LONGEST_FILE {
        return Err(SaveFault::TooLarge { length: len });
    }
    let first = match first_bytes(alloc, &totals, len) {
        Ok(first) => first,
        Err(_) => return Err(SaveFault::NoMemory),
    };
    let put = put_parts(first.as_slice(), docs, terms, payloads, files, name);
    drop(first);
    match put {
        Ok(()) => Ok(totals),
        Err(_) => Err(SaveFault::WriteFault),
    }
}

/// How many bytes a file of these names, terms and payloads has.
fn file_len(names: &[u8], terms: &SpelledTerms, payloads: &Blocks) -> u64
    ensures len { result
        ≡ min (40 + length names.now + length terms.now.bytes + length payloads.now) (2 ^ 64 - 1) }
    ensures few { length names.now + length payloads.now < 2 ^ 63 + 2 ^ 62 + 1 }
{
    let front = (40 + names.len() as u64).saturating_add(terms.len());
    front.saturating_add(payloads.len())
}

/// Makes first bytes, names, terms and payloads the content of a file.
fn put_parts<C: Cabinet>(
    first: &[u8],
    names: &[u8],
    terms: &SpelledTerms,
    payloads: &Blocks,
    files: &mut C,
    name: &str,
) -> Result<(), Failed>
    ensures { Makes C.Cabinet files.old files.new name.now
        (first.now ++ (names.now ++ (terms.now.bytes ++ payloads.now))) result }
{
    let failed = create(files, name);
    let failed = append(first, failed, files, name);
    let failed = append(names, failed, files, name);
    let failed = terms.append(failed, files, name);
    if append_blocks(payloads, failed, files, name) {
        return Err(Failed);
    }
    Ok(())
}
