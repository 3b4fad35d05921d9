ghost use Rattle.std.specs.Prelude.{◌≡◌, ◌≢◌, ◌<◌, ◌≤◌, ◌+◌, ◌-◌, ◌⊎◌, ◌++◌, ◌∷◌, [], List, length, drop, IfOk, OnOk};
ghost use Rattle.index_layout.specs.View.{FileView};
ghost use Rattle.index_file.specs.Places.{term_at};
ghost use Rattle.index_model.specs.Merging.{merged_segments, merged_terms, segment_cmp, term_cmp};
ghost use Rattle.shard_search.specs.Parts.{index_at};
ghost use Rattle.shard_search.specs.Private.Heads.{head_order};
ghost use Rattle.shard_search.specs.Private.Tables.{Grows, GrowsTerm, IsSpan, IsTable, IsTermRow, row_term, span_segments, told_terms};

use crate::rows::{Span, TermRow};
use crate::table::Table;
use index_file::IndexFile;
use jass_base::NoMemory;
use std::alloc::Global;
use std::cmp::Ordering;

/// Which of two spans has the next segment: Less where the first has it, Equal where both have it.
fn next_segment(first: &Table, own: Span, second: &Table, other: Span) -> Ordering
    requires own { IsSpan first.now.segments own }
    requires other { IsSpan second.now.segments other }
    requires some { (own.from < own.to) ⊎ (other.from < other.to) }
    ensures order { (files : List FileView) → result
        ≡ head_order segment_cmp (span_segments files first.now own) (span_segments files second.now other) }
    ensures first { result ≢ Ordering.Greater → own.from < own.to }
    ensures second { result ≢ Ordering.Less → other.from < other.to }
{
    if own.from >= own.to {
        return Ordering::Greater;
    }
    if other.from >= other.to {
        return Ordering::Less;
    }
    let impact = first.segments.as_slice()[own.from as usize].impact;
    second.segments.as_slice()[other.from as usize]
        .impact
        .cmp(&impact)
}

impl Table {
    /// Puts the segments of two spans, merged, behind the others.
    pub(crate) fn merge_segments(
        &mut self,
        parts: &[IndexFile],
        first: &Table,
        mut own: Span,
        second: &Table,
        mut other: Span,
    ) -> Result<(), NoMemory>
        requires stands { IsTable parts.now self.old }
        requires first { IsTable parts.now first.now }
        requires own { IsSpan first.now.segments own }
        requires second { IsTable parts.now second.now }
        requires other { IsSpan second.now.segments other }
        ensures { OnOk result (Grows parts.now self.old self.new
            (merged_segments (span_segments parts.now first.now own) (span_segments parts.now second.now other))) }
    {
        'segments: while own.from < own.to || other.from < other.to {
            match next_segment(first, own, second, other) {
                Ordering::Less => {
                    self.copy_segment(parts, first, first.segments.as_slice()[own.from as usize])?;
                    own.from += 1;
                }
                Ordering::Greater => {
                    self.copy_segment(
                        parts,
                        second,
                        second.segments.as_slice()[other.from as usize],
                    )?;
                    other.from += 1;
                }
                Ordering::Equal => {
                    let left = first.segments.as_slice()[own.from as usize];
                    let right = second.segments.as_slice()[other.from as usize];
                    self.join_segments(parts, first, left, second, right)?;
                    own.from += 1;
                    other.from += 1;
                }
            }
        }
        Ok(())
    }
}
