ghost use Rattle.std.specs.Prelude.{◌≡◌, ◌≤◌, ◌<◌, ◌^◌, ◌++◌, length, map, flat_map, IfOk, IfErr, OnOk};
ghost use Rattle.index_model.specs.Views.{term_data, index_data};
ghost use Rattle.index_layout.specs.Heads.{payloads_size};
ghost use Rattle.index_layout.specs.Layout.{file_length, totals_bytes};
ghost use Rattle.index_layout.specs.View.{index_text};
ghost use Rattle.index_write.specs.Chosen.{head_data, chosen_terms};
ghost use Rattle.index_write.specs.Private.Table.{table_of};
ghost use Rattle.index_write.specs.Saving.{Unmade, UnmadeWithin};
ghost use Rattle.index_write.specs.Streaming.{AreEntries, AreNames, entries_totals, entry_data};
ghost use Rattle.jass_base.specs.declared.limits.TheConstants.{GREATEST_IMPACT, LONGEST_FILE};
ghost use Rattle.index_write.specs.Private.Front.{Unspelled, first_bytes};

use crate::fault::SaveFault;
use crate::front::{put_names, put_terms};
use crate::head::{PayloadHead, index_heads};
use crate::laws::{tables_have_their_sums, texts_have_their_parts};
use crate::lengths::{front_len, index_len, length_above};
use crate::payloads::put_all_payloads;
use crate::sums::totals;
use crate::term_heads::TermHeads;
use jass_base::limits::LONGEST_FILE;
use jass_base::{ImpactIndex, NoMemory, Row, Text, Totals};
use std::alloc::Global;

/// The first eight bytes of an index file.
const MAGIC: &[u8] = b"JASSIDX2";

/// Appends pieces, one behind the other.
fn put_all(pieces: &[&[u8]], out: &mut Row<u8>) -> Result<(), NoMemory>
    ensures { OnOk result (out.new ≡ out.old ++ flat_map (λ piece. piece.now) pieces.now) }
{
    for piece in pieces {
        out.extend(piece)?;
    }
    Ok(())
}

/// Appends the first 40 bytes: magic, length, documents, terms, postings, the greatest impact, zero.
fn put_numbers(totals: &Totals, len: u64, out: &mut Row<u8>) -> Result<(), NoMemory>
    ensures { OnOk result (out.new ≡ out.old ++ first_bytes len totals.now) }
{
    let pieces: [&[u8]; 7] = [
        MAGIC,
        &len.to_le_bytes(),
        &totals.docs.to_le_bytes(),
        &totals.terms.to_le_bytes(),
        &totals.postings.to_le_bytes(),
        &u32::from(totals.greatest).to_le_bytes(),
        &0u32.to_le_bytes(),
    ];
    put_all(&pieces, out)
}

/// Appends the first 40 bytes of an index.
fn put_totals(index: &ImpactIndex, len: u64, out: &mut Row<u8>) -> Result<(), NoMemory>
    requires { len ≡ length (index_text (index_data index.now)) }
    ensures { OnOk result (out.new ≡ out.old ++ totals_bytes index.now.names
        (chosen_terms (length index.now.names) (map term_data index.now.terms))) }
{
    texts_have_their_parts();
    tables_have_their_sums();
    put_numbers(&totals(index), len, out)
}

/// Appends the bytes of the file, by its heads and its length.
#[tactic(auto, unfolding(index_layout::specs::Layout::front_bytes))]
fn spell(
    index: &ImpactIndex,
    heads: &[PayloadHead],
    len: u64,
    out: &mut Row<u8>,
) -> Result<(), NoMemory>
    requires greatest { index.now.greatest ≤ GREATEST_IMPACT }
    requires heads { map head_data heads.now ≡ table_of (length index.now.names) (map term_data index.now.terms) }
    requires len { len ≡ length (index_text (index_data index.now)) }
    ensures { OnOk result (out.new ≡ out.old ++ index_text (index_data index.now)) }
{
    texts_have_their_parts();
    put_totals(index, len, out)?;
    put_names(index.names.as_slice(), out)?;
    put_terms(index, heads, out)?;
    put_all_payloads(index, heads, out)
}

/// The bytes of the file, by its heads and its length.
fn spelled(
    alloc: Global,
    index: &ImpactIndex,
    heads: &[PayloadHead],
    len: u64,
) -> Result<Row<u8>, NoMemory>
    requires greatest { index.now.greatest ≤ GREATEST_IMPACT }
    requires heads { map head_data heads.now ≡ table_of (length index.now.names) (map term_data index.now.terms) }
    requires len { len ≡ length (index_text (index_data index.now)) }
    ensures { IfOk result (λ row. row ≡ index_text (index_data index.now)) }
{
    let mut out = Row::with_room(alloc, len as usize)?;
    match spell(index, heads, len, &mut out) {
        Ok(()) => Ok(out),
        Err(_) => {
            drop(out);
            Err(NoMemory)
        }
    }
}

/// The bytes of the file of an index, each segment in its shortest codec. TooLarge comes exactly
/// where they are more than 2^32, before memory is taken.
pub fn index_bytes(alloc: Global, index: &ImpactIndex) -> Result<Row<u8>, SaveFault>
    ensures bytes { IfOk result (λ row. row ≡ index_text (index_data index.now)) }
    ensures fits { OnOk result (length (index_text (index_data index.now)) ≤ LONGEST_FILE) }
    ensures fault { IfErr result (Unmade (index_text (index_data index.now))) }
{
    bytes_within(alloc, index, LONGEST_FILE)
}

/// The bytes of the file of an index, each segment in its shortest codec. TooLarge comes exactly
/// where they are more than so many, before memory is taken.
pub fn bytes_within(alloc: Global, index: &ImpactIndex, most: u64) -> Result<Row<u8>, SaveFault>
    ensures bytes { IfOk result (λ row. row ≡ index_text (index_data index.now)) }
    ensures fits { OnOk result (length (index_text (index_data index.now)) ≤ most) }
    ensures fault { IfErr result (UnmadeWithin most (index_text (index_data index.now))) }
{
    let _greatest = index.greatest;
    if let Some(length) = length_above(index, most) {
        return Err(SaveFault::TooLarge { length });
    }
    let heads = match index_heads(alloc, index) {
        Ok(heads) => heads,
        Err(_) => return Err(SaveFault::NoMemory),
    };
    let len = index_len(index, heads.as_slice());
    let made = spelled(alloc, index, heads.as_slice(), len);
    drop(heads);
    match made {
        Ok(bytes) => Ok(bytes),
        Err(_) => Err(SaveFault::NoMemory),
    }
}

/// The first 40 bytes of a file of so many bytes with these totals.
pub fn first_bytes(alloc: Global, totals: &Totals, len: u64) -> Result<Row<u8>, NoMemory>
    ensures { IfOk result (λ row. row ≡ first_bytes len totals.now) }
{
    let mut first = Row::new(alloc);
    match put_numbers(totals, len, &mut first) {
        Ok(()) => Ok(first),
        Err(_) => {
            drop(first);
            Err(NoMemory)
        }
    }
}

/// The first 40 bytes of the file of names, terms and heads that have these totals and so many bytes
/// of payloads. TooLarge comes exactly where the file would have more than 2^32 bytes.
pub fn first_of(
    alloc: Global,
    names: &[Text],
    entries: &[TermHeads],
    totals: &Totals,
    payloads: u64,
) -> Result<Row<u8>, SaveFault>
    requires names { AreNames names.now }
    requires entries { AreEntries (map entry_data entries.now) }
    requires totals { totals.now ≡ entries_totals (length names.now) (map entry_data entries.now) }
    requires payloads { payloads ≡ payloads_size (map entry_data entries.now) }
    requires few { payloads < 2 ^ 62 }
    ensures bytes { IfOk result (λ row. row ≡ totals_bytes names.now (map entry_data entries.now)) }
    ensures fits { OnOk result (file_length names.now (map entry_data entries.now) ≤ LONGEST_FILE) }
    ensures fault { IfErr result (Unspelled (file_length names.now (map entry_data entries.now))) }
{
    let len = front_len(names, entries) + payloads;
    if len <= LONGEST_FILE {
        match first_bytes(alloc, totals, len) {
            Ok(first) => Ok(first),
            Err(_) => Err(SaveFault::NoMemory),
        }
    } else {
        Err(SaveFault::TooLarge { length: len })
    }
}
