ghost use Rattle.std.specs.Prelude.{◌≡◌, ◌≤◌, ◌<◌, ◌+◌, Some, length, drop, slice_get, IfOk};
ghost use Rattle.segment_plan.specs.Entries.{PlanView, AreHeads, plan_with, entries_within, rest_bound};
ghost use Rattle.segment_plan.specs.Private.Tables.{HasTables};

use crate::entry::{PlanEntry, PlanHead};
use crate::runs::arrange;
use crate::tables::{bounds_of, longest, sums_of, weigh};
use jass_base::{NoMemory, Query};
use std::alloc::Global;
use std::marker::Model;

/// The segments of a query in the order in which they are scored: by falling weight, then rising
/// number of postings, then the term's rising place in the query.
#[derive(Debug, Drop)]
pub struct Plan {
    terms: u32,
    entries: Vec<PlanEntry>,
    /// The number of postings of the first n entries, at place n.
    sums: Vec<u64>,
    /// The bound after the first n entries, at place n.
    bounds: Vec<u32>,
}

impl Model for Plan {
    ghost Value = { PlanView };

    ghost view = { λ plan. record { terms = plan.terms; entries = plan.entries.items } };

    ghost invariant = { λ plan.
        HasTables (record { terms = plan.terms; entries = plan.entries.items }) plan.sums.items plan.bounds.items };
}

impl Plan {
    /// The plan of a query with these segments of its terms. Heads that stand term by term, each
    /// term's by rising segment, are quick to arrange.
    pub fn new(alloc: Global, query: &Query, heads: &[PlanHead]) -> Result<Plan, NoMemory>
        requires { AreHeads query.now.terms heads.now }
        ensures { IfOk result (λ plan. plan ≡ plan_with query.now.terms heads.now) }
    {
        let terms = query.terms.as_slice();
        let mut entries = weigh(alloc, terms, heads)?;
        arrange(alloc, &mut entries)?;
        let sums = sums_of(alloc, entries.as_slice())?;
        let bounds = bounds_of(alloc, terms.len() as u32, entries.as_slice())?;
        Ok(Plan {
            terms: terms.len() as u32,
            entries,
            sums,
            bounds,
        })
    }

    pub fn len(&self) -> u32
        ensures { result ≡ length self.now.entries }
    {
        self.entries.len() as u32
    }

    pub fn entry(&self, i: u32) -> PlanEntry
        requires { i < length self.now.entries }
        ensures { slice_get self.now.entries i ≡ Some result }
    {
        self.entries[i as usize]
    }

    /// No document can gain more than this after the first `n` entries: the sum, over the query's
    /// terms, of the greatest weight among the term's other entries.
    pub fn rest_bound(&self, n: u32) -> u32
        requires { n ≤ length self.now.entries }
        ensures { result ≡ rest_bound n self.now }
    {
        self.bounds[n as usize]
    }

    /// How many entries from `from` on `left` postings pay for. It stops before the first that
    /// doesn't fit, even where a later one would.
    pub fn within(&self, from: u32, left: u64) -> u32
        requires { from ≤ length self.now.entries }
        ensures many { result ≡ entries_within left (drop from self.now.entries) }
        ensures there { from + result ≤ length self.now.entries }
    {
        longest(&self.sums[from as usize..], left) as u32
    }
}
