ghost use Rattle.std.specs.Prelude.{◌≡◌, ◌≤◌, length, All, IfOk};
ghost use Rattle.std.specs.List.{sum_by};
ghost use Rattle.jass_base.specs.declared.limits.TheConstants.{MOST_DOCUMENTS};
ghost use Rattle.index_layout.specs.View.{IsFileView};
ghost use Rattle.shard_search.specs.Sums.{Fits, file_docs};
ghost use Rattle.shard_search.specs.Private.Standing.{AreBases};

use crate::building::union_table;
use crate::stop::ShardStop;
use crate::sums::{check_documents, check_postings};
use crate::table::Table;
use index_file::IndexFile;
use index_model::union_laws::{
    a_union_has_the_entries_of_its_parts, a_union_is_well_formed, a_union_merges_its_parts,
};
use jass_base::{NoMemory, Row};
use std::alloc::Global;
use std::marker::Model;

/// Several index files searched as one. Contracts see it as the files and the part segments that its segments join.
#[derive(Drop)]
pub struct Shards {
    pub(crate) parts: Row<IndexFile>,
    pub(crate) bases: Row<u32>,
    pub(crate) docs: u32,
    pub(crate) terms: u32,
    pub(crate) table: Table,
}

impl Model for Shards {
    ghost use Rattle.shard_search.specs.Private.Standing.{IsUnion};
    ghost use Rattle.shard_search.specs.Union.{UnionView};

    ghost Value = { UnionView };

    ghost view = { λ s. record { files = s.parts; pieces = s.table.pieces } };

    ghost invariant = { λ s. IsUnion s.parts s.bases s.docs s.terms s.table };
}

impl Shards {
    /// The files as one, or why they are too large for that.
    pub fn new(alloc: Global, parts: Row<IndexFile>) -> Result<Shards, ShardStop>
        requires some { 2 ≤ length parts }
        requires few { length parts ≤ 16 }
        ensures files { IfOk result (λ shards. shards.files ≡ parts) }
        ensures fits { Fits parts result }
    {
        let files = parts.as_slice();
        a_union_merges_its_parts();
        a_union_is_well_formed();
        a_union_has_the_entries_of_its_parts();
        check_documents(files)?;
        check_postings(files)?;
        are_checked(files);
        let Ok((bases, docs)) = bases_of(alloc, files) else {
            return Err(ShardStop::NoMemory);
        };
        let Ok(table) = union_table(alloc, files) else {
            return Err(ShardStop::NoMemory);
        };
        // More than 2^32 terms don't come up, as each has a posting.
        let Ok(terms) = u32::try_from(table.terms.len()) else {
            return Err(ShardStop::NoMemory);
        };
        Ok(Shards {
            parts,
            bases,
            docs,
            terms,
            table,
        })
    }
}

/// What was checked when the parts were opened: a caller learns it by the call.
fn are_checked(parts: &[IndexFile])
    ensures { All IsFileView parts.now }
{
    'parts: for i in 0..parts.len() {
        parts[i].is_checked();
    }
}

/// How many documents stand before each part, and how many there are.
fn bases_of(alloc: Global, parts: &[IndexFile]) -> Result<(Row<u32>, u32), NoMemory>
    requires few { sum_by file_docs parts.now ≤ MOST_DOCUMENTS }
    ensures bases { IfOk result (λ x. AreBases parts.now x.0) }
    ensures docs { IfOk result (λ x. x.1 ≡ sum_by file_docs parts.now) }
{
    let mut bases = Row::new(alloc);
    let mut docs = 0;
    'parts: for i in 0..parts.len() {
        bases.push(docs)?;
        docs += parts[i].docs();
    }
    Ok((bases, docs))
}
