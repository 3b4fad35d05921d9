ghost use Rattle.std.specs.Prelude.{◌≡◌, ◌≢◌, ◌≤◌, IfOk};
ghost use Rattle.index_layout.specs.View.{index_postings};
ghost use Rattle.index_model.specs.Views.{index_data};
ghost use Rattle.ciff_read.specs.Counts.{posting_count};
ghost use Rattle.jass_base.specs.CiffViews.{collection_data};
ghost use Rattle.weights.specs.Quantizing.{IsImpactWidth};
ghost use Rattle.jass_top.specs.Private.Causes.{Runs};
ghost use Rattle.impact_segments.specs.Collections.{collection_index};
ghost use Rattle.jass_top.specs.ImportMeaning.{import_meaning};
ghost use Rattle.jass_top.specs.Private.Worlds.{with_files, with_output};
ghost use Rattle.jass_top.specs.Worlds.{Outer};
ghost use Rattle.jass_base.specs.declared.limits.TheConstants.{GREATEST_IMPACT};

use crate::saving::TOO_LARGE;
use crate::stop::{OUTPUT, Place, Stop};
use impact_segments::build;
use index_import::{ImportFault, import_file};
use index_model::laws::{an_index_is_that_of_its_flat_list, indexes_in_memory_are_indexes};
use jass_base::{Cabinet, Collection, ImpactIndex, NoMemory, Sink};
use std::alloc::Global;
use trec_run::put_totals;
use weights::{Bits, Rule};

/// Makes an index file of a CIFF file, and prints its totals. One list at a time is in memory.
pub fn run_import<'a, C: Cabinet, O: Sink>(
    alloc: Global,
    ciff: &'a str,
    index: &'a str,
    rule: Rule,
    bits: Bits,
    files: &mut C,
    out: &mut O,
) -> Result<(), Stop<'a>>
    requires width { IsImpactWidth bits }
    requires apart { ciff.now ≢ index.now }
    ensures runs { (beside : Outer) → Runs (import_meaning ciff.now index.now rule bits)
        (with_output O.Sink out.old (with_files C.Cabinet files.old beside))
        (with_output O.Sink out.new (with_files C.Cabinet files.new beside)) result }
    ensures later { C.write_faults files.old ≤ C.write_faults files.new }
{
    let totals = match import_file(alloc, files, ciff, index, rule, bits) {
        Ok(totals) => totals,
        Err(ImportFault::Refused(refusal)) => {
            return Err(Stop::Refused {
                name: ciff,
                number: refusal.why.number(),
                at: Place::Byte(refusal.at),
            });
        }
        Err(ImportFault::ReadFault) => return Err(Stop::ReadFault { name: ciff }),
        Err(ImportFault::TooLarge { length }) => {
            return Err(Stop::Refused {
                name: ciff,
                number: TOO_LARGE,
                at: Place::Byte(length),
            });
        }
        Err(ImportFault::WriteFault) => return Err(Stop::WriteFault { name: index }),
        Err(ImportFault::NoMemory) => return Err(Stop::NoMemory),
    };
    match put_totals(out, totals) {
        Ok(()) => Ok(()),
        Err(_) => Err(Stop::WriteFault { name: OUTPUT }),
    }
}

/// Makes the index of a collection in memory.
pub fn index_collection(
    alloc: Global,
    collection: &Collection,
    rule: Rule,
    bits: Bits,
) -> Result<ImpactIndex, NoMemory>
    requires { IsImpactWidth bits }
    ensures made { IfOk result (λ index.
        index_data index ≡ collection_index rule bits (collection_data collection.now)) }
    ensures size { IfOk result (λ index. index_postings (index_data index) ≡ posting_count collection.now.lists) }
{
    indexes_in_memory_are_indexes();
    an_index_is_that_of_its_flat_list();
    match build(alloc, collection, rule, bits) {
        Ok(index) => {
            impacts_are_small(&index);
            Ok(index)
        }
        Err(refused) => Err(refused),
    }
}

/// Impacts have 16 bits.
pub fn impacts_are_small(index: &ImpactIndex)
    ensures { index.now.greatest ≤ GREATEST_IMPACT }
{
    let _greatest = index.greatest;
}
