ghost use Rattle.std.specs.Prelude.{◌≡◌, ◌≤◌, [], ◌∷◌, ◌++◌, length, IfOk, IfErr};
ghost use Rattle.std.specs.List.{AllByRecursion};
ghost use Rattle.jass_base.specs.declared.query.Query.{Query};
ghost use Rattle.index_model.specs.Unions.{union_of};
ghost use Rattle.session_engine.specs.Plans.{AreKnown};
ghost use Rattle.shard_search.specs.Sums.{indexes_of};
ghost use Rattle.shard_search.specs.Union.{union_index};
ghost use Rattle.jass_top.specs.Private.Causes.{Unheld, Unread};
ghost use Rattle.jass_top.specs.Private.Inputs.{HasInput};
ghost use Rattle.jass_top.specs.Private.SearchRuns.{asked_of};
ghost use Rattle.jass_top.specs.Judging.{Accepted};
ghost use Rattle.jass_top.specs.QueryJudging.{without_lines};
ghost use Rattle.jass_top.specs.ShardsMeaning.{judge_parts, judge_shards, united};
ghost use Rattle.jass_words.specs.Words.{texts};
ghost use Rattle.jass_words.specs.declared.word_limits.TheConstants.{LEAST_PARTS, MOST_PARTS};

use crate::content_input::file_front;
use crate::index_input::open_index;
use crate::queries_input::{MOST_BYTES, queries_in};
use crate::stop::{Place, Stop};
use index_file::IndexFile;
use jass_base::{Cabinet, Query, Row};
use query_reader::Mode;
use shard_search::{ShardStop, Shards};
use std::alloc::Global;

/// The number of the refusal of parts that have more than 2^26 documents together.
const MANY_DOCUMENTS: u32 = 57;

/// The number of the refusal of parts that have more than 2^29 postings together.
const MANY_POSTINGS: u32 = 58;

/// Opens the index files of the parts, reads the bytes of the queries, and then reads these over the parts as one.
pub fn open_shards<'a, C: Cabinet>(
    alloc: Global,
    indexes: &'a [String],
    queries: &'a str,
    mode: Mode,
    files: &mut C,
) -> Result<(Shards, Row<Query>), Stop<'a>>
    requires some { LEAST_PARTS ≤ length indexes.now }
    requires few { length indexes.now ≤ MOST_PARTS }
    ensures accepted { IfOk result (λ found. HasInput
        (judge_shards (texts indexes.now) queries.now mode (C.told files.old))
        (λ inputs. (inputs.index ≡ union_index found.0) × (without_lines inputs.queries ≡ asked_of found.1))) }
    ensures known { IfOk result (λ found.
        AllByRecursion (λ (query : Query). AreKnown (union_index found.0) query.terms) found.1) }
    ensures unread { IfErr result (λ stop. Unread (texts indexes.now ++ queries.now ∷ [])
        (judge_shards (texts indexes.now) queries.now mode (C.told files.old))
        (C.read_faults files.old) (C.read_faults files.new) stop) }
    ensures stays { C.told files.new ≡ C.told files.old }
    ensures later { C.read_faults files.old ≤ C.read_faults files.new }
    ensures others { C.write_faults files.old ≤ C.write_faults files.new }
{
    let parts = match open_parts(alloc, indexes, files) {
        Ok(parts) => parts,
        Err(stop) => return Err(stop),
    };
    let bytes = match file_front(alloc, files, queries, MOST_BYTES) {
        Ok(bytes) => bytes,
        Err(stop) => {
            drop(parts);
            return Err(stop);
        }
    };
    let union = match unite(alloc, indexes, parts) {
        Ok(union) => union,
        Err(stop) => {
            drop(bytes);
            return Err(stop);
        }
    };
    match queries_in(alloc, bytes.as_slice(), queries, mode, &union) {
        Ok(found) => Ok((union, found)),
        Err(stop) => {
            drop(union);
            Err(stop)
        }
    }
}

/// Opens the index files of some names.
fn open_parts<'a, C: Cabinet>(
    alloc: Global,
    names: &'a [String],
    files: &mut C,
) -> Result<Row<IndexFile>, Stop<'a>>
    ensures accepted { IfOk result (λ parts. HasInput (judge_parts (texts names.now) (C.told files.old))
        (λ indexes. indexes ≡ indexes_of parts)) }
    ensures each { IfOk result (λ parts. length parts ≡ length names.now) }
    ensures unread { IfErr result (λ stop. Unread (texts names.now) (judge_parts (texts names.now) (C.told files.old))
        (C.read_faults files.old) (C.read_faults files.new) stop) }
    ensures stays { C.told files.new ≡ C.told files.old }
    ensures later { C.read_faults files.old ≤ C.read_faults files.new }
    ensures others { C.write_faults files.old ≤ C.write_faults files.new }
{
    let mut parts = Row::new(alloc);
    'names: for name in names {
        let part = match open_index(alloc, files, name.as_str()) {
            Ok(part) => part,
            Err(stop) => {
                drop(parts);
                return Err(stop);
            }
        };
        match parts.push(part) {
            Ok(()) => {}
            Err(_) => {
                drop(parts);
                return Err(Stop::NoMemory);
            }
        }
    }
    Ok(parts)
}

/// The parts of these names as one.
fn unite<'a>(alloc: Global, names: &'a [String], parts: Row<IndexFile>) -> Result<Shards, Stop<'a>>
    requires each { length parts ≡ length names.now }
    requires some { LEAST_PARTS ≤ length names.now }
    requires few { length names.now ≤ MOST_PARTS }
    ensures union { IfOk result (λ union. union_index union ≡ union_of (indexes_of parts)) }
    ensures accepted { IfOk result (λ _. united (texts names.now) (indexes_of parts)
        ≡ Accepted (union_of (indexes_of parts))) }
    ensures unheld { IfErr result (λ stop. Unheld (texts names.now)
        (united (texts names.now) (indexes_of parts)) stop) }
{
    match Shards::new(alloc, parts) {
        Ok(union) => Ok(union),
        Err(ShardStop::Documents { part, sum }) => Err(Stop::Refused {
            name: names[part as usize].as_str(),
            number: MANY_DOCUMENTS,
            at: Place::Byte(sum),
        }),
        Err(ShardStop::Postings { part, sum }) => Err(Stop::Refused {
            name: names[part as usize].as_str(),
            number: MANY_POSTINGS,
            at: Place::Byte(sum),
        }),
        Err(ShardStop::NoMemory) => Err(Stop::NoMemory),
    }
}
