ghost use Rattle.std.specs.Prelude.{◌≡◌, ◌<◌, ◌≤◌, ◌++◌, ◌∷◌, [], map, take, length, IfOk, OnOk};
ghost use Rattle.index_model.specs.Querying.{segments_at};
ghost use Rattle.index_file.specs.Places.{term_at};
ghost use Rattle.index_model.specs.Merging.{union_terms};
ghost use Rattle.shard_search.specs.Parts.{base_of, index_at};
ghost use Rattle.shard_search.specs.Sums.{indexes_of};
ghost use Rattle.index_model.specs.Unions.{raised_segment, raised_term};
ghost use Rattle.shard_search.specs.Private.Tables.{Grows, GrowsTerm, IsTable, told_terms};

use crate::joining::merge_tables;
use crate::rows::PartSegment;
use crate::table::Table;
use index_file::IndexFile;
use jass_base::NoMemory;
use std::alloc::Global;

impl Table {
    /// Puts the segments of a part's term behind the others.
    fn put_part_segments(
        &mut self,
        parts: &[IndexFile],
        part: u32,
        term: u32,
    ) -> Result<(), NoMemory>
        requires stands { IsTable parts.now self.old }
        requires part { part < length parts.now }
        requires term { term < length (index_at parts.now part).terms }
        ensures { OnOk result (Grows parts.now self.old self.new
            (map (raised_segment (base_of parts.now part)) (segments_at (index_at parts.now part).terms term))) }
    {
        let count = parts[part as usize].segments(term);
        'segments: for segment in 0..count {
            self.put_part_segment(
                parts,
                PartSegment {
                    part,
                    term,
                    segment,
                },
            )?;
        }
        Ok(())
    }

    /// Puts a part's term behind the others.
    fn put_part_term(&mut self, parts: &[IndexFile], part: u32, term: u32) -> Result<(), NoMemory>
        requires stands { IsTable parts.now self.old }
        requires part { part < length parts.now }
        requires term { term < length (index_at parts.now part).terms }
        ensures { OnOk result (GrowsTerm parts.now self.old self.new (record {
          term = term_at (index_at parts.now part).terms term;
          segments = map (raised_segment (base_of parts.now part)) (segments_at (index_at parts.now part).terms term);
        })) }
    {
        let from = self.segments.len();
        self.put_part_segments(parts, part, term)?;
        self.put_term(from, part, term)?;
        Ok(())
    }
}

/// The table of one part.
fn part_table(alloc: Global, parts: &[IndexFile], part: u32) -> Result<Table, NoMemory>
    requires part { part < length parts.now }
    ensures stands { IfOk result (λ table. IsTable parts.now table) }
    ensures terms { IfOk result (λ table. told_terms parts.now table
        ≡ map (raised_term (base_of parts.now part)) (index_at parts.now part).terms) }
{
    let mut table = Table::new(alloc);
    'terms: for term in 0..parts[part as usize].terms() {
        table.put_part_term(parts, part, term)?;
    }
    Ok(table)
}

/// The table of all parts, merged from the last to the first.
pub(crate) fn union_table(alloc: Global, parts: &[IndexFile]) -> Result<Table, NoMemory>
    requires few { length parts.now ≤ 16 }
    ensures stands { IfOk result (λ table. IsTable parts.now table) }
    ensures terms { IfOk result (λ table. told_terms parts.now table ≡ union_terms 0 (indexes_of parts.now)) }
{
    let mut table = Table::new(alloc);
    let mut part = parts.len();
    'parts: while part > 0 {
        part -= 1;
        let own = part_table(alloc, parts, part as u32)?;
        table = merge_tables(alloc, parts, &own, &table)?;
    }
    Ok(table)
}
