ghost use Rattle.std.specs.Prelude.{◌≡◌, ◌≤◌, [], ◌∷◌, length, IfOk, IfErr, OnOk};
ghost use Rattle.index_layout.specs.View.{IsFileView, chosen_view, index_postings, index_text};
ghost use Rattle.index_model.specs.Index.{IndexData};
ghost use Rattle.index_model.specs.Views.{index_data};
ghost use Rattle.jass_top.specs.IndexJudging.{fitting};
ghost use Rattle.jass_base.specs.declared.limits.TheConstants.{LONGEST_FILE, MOST_POSTINGS};
ghost use Rattle.jass_top.specs.Private.Causes.{Unheld};
ghost use Rattle.jass_top.specs.Private.HeldIndexes.{IsTextOf};

use crate::import::impacts_are_small;
use crate::saving::TOO_LARGE;
use crate::stop::{Place, Stop};
use index_file::IndexFile;
use index_layout::OpenFault;
use index_layout::laws::{files_are_read, texts_are_files};
use index_model::laws::indexes_in_memory_are_indexes;
use index_write::{SaveFault, index_bytes};
use jass_base::{ImpactIndex, NoMemory, Row};
use std::alloc::Global;

/// The index file, in memory, of an index that was made of an input.
pub fn file_in_memory<'a>(
    alloc: Global,
    index: &ImpactIndex,
    input: &'a str,
) -> Result<IndexFile, Stop<'a>>
    requires { index_postings (index_data index.now) ≤ MOST_POSTINGS }
    ensures index { IfOk result (λ file. file.index ≡ index_data index.now) }
    ensures view { IfOk result (λ file. IsFileView file) }
    ensures fits { OnOk result (length (index_text (index_data index.now)) ≤ LONGEST_FILE) }
    ensures unmade { IfErr result (λ stop. Unheld (input.now ∷ []) (fitting input.now (index_data index.now)) stop) }
{
    impacts_are_small(index);
    indexes_in_memory_are_indexes();
    let bytes = text_in_memory(alloc, index, input)?;
    match open_text(alloc, bytes) {
        Ok(file) => Ok(file),
        Err(_) => Err(Stop::NoMemory),
    }
}

/// The bytes of that file.
pub fn text_in_memory<'a>(
    alloc: Global,
    index: &ImpactIndex,
    input: &'a str,
) -> Result<Row<u8>, Stop<'a>>
    ensures bytes { IfOk result (λ row. row ≡ index_text (index_data index.now)) }
    ensures fits { OnOk result (length (index_text (index_data index.now)) ≤ LONGEST_FILE) }
    ensures unmade { IfErr result (λ stop. Unheld (input.now ∷ []) (fitting input.now (index_data index.now)) stop) }
{
    match index_bytes(alloc, index) {
        Ok(bytes) => Ok(bytes),
        Err(SaveFault::TooLarge { length }) => Err(Stop::Refused {
            name: input,
            number: TOO_LARGE,
            at: Place::Byte(length),
        }),
        Err(_) => Err(Stop::NoMemory),
    }
}

/// The index file of bytes that are the text of an index.
pub fn open_text(alloc: Global, bytes: Row<u8>) -> Result<IndexFile, NoMemory>
    requires { (index : IndexData) × IsTextOf bytes index }
    ensures file { (index : IndexData) → IsTextOf bytes index → IfOk result (λ file. file ≡ chosen_view index) }
    ensures view { IfOk result (λ file. IsFileView file) }
{
    texts_are_files();
    files_are_read();
    match IndexFile::from_bytes(alloc, bytes) {
        Ok(file) => Ok(file),
        Err(OpenFault::Refused(_)) => unreachable!("the bytes are those of an index"),
        Err(OpenFault::ReadFault) => unreachable!("nothing is read"),
        Err(OpenFault::NoMemory) => Err(NoMemory),
    }
}
