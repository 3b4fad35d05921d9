//! The impacts of all weights of a range, so that those of postings are looked up.

ghost use Rattle.std.specs.Prelude.{◌≡◌, ◌≤◌, ◌^◌, IsTrue};
ghost use Rattle.impact_segments.specs.Private.ImpactTable.{AreImpacts, AreImpactsOf};

use std::alloc::Global;
use weights::{Bits, Range, impact_of};

/// A range with a greater distance between its ends has no table.
const WIDEST: u64 = 65_536;

/// The impacts of the weights of a range in their order, from the least, or of the first ones alone.
#[derive(Drop)]
pub(crate) struct ImpactTable {
    bits: u8,
    least: u64,
    greatest: u64,
    impacts: Vec<u16>,
    ghost exact: { AreImpactsOf bits least greatest impacts.items },
}

impl ImpactTable {
    /// No impacts yet.
    pub fn new(alloc: Global) -> ImpactTable {
        ImpactTable {
            bits: 1,
            least: 0,
            greatest: 0,
            impacts: Vec::new(alloc),
        }
    }

    /// The table of a range, which is empty where the range is wide, or memory is refused.
    pub fn of_range(alloc: Global, bits: u8, range: Range) -> ImpactTable
        requires some_bits { 1 ≤ bits }
        requires most_bits { bits ≤ 16 }
        requires low { range.greatest ≤ 2 ^ 40 }
    {
        ImpactTable {
            bits,
            least: range.least,
            greatest: range.greatest,
            impacts: impacts_in(alloc, bits, range),
        }
    }

    /// Whether the table is that of a range.
    pub fn is_of(&self, bits: u8, range: Range) -> bool
        ensures bits { IsTrue result → self.now.bits ≡ bits }
        ensures least { IsTrue result → self.now.least ≡ range.least }
        ensures greatest { IsTrue result → self.now.greatest ≡ range.greatest }
    {
        self.bits == bits && self.least == range.least && self.greatest == range.greatest
    }

    /// The impacts of the first weights of a range: none where the table is that of another one.
    pub fn impacts(&self, bits: Bits, range: Range) -> &[u16]
        ensures { AreImpacts bits range result.now }
    {
        let impacts = self.impacts.as_slice();
        match bits {
            Bits::Of(b) if self.is_of(b, range) => impacts,
            _ => &impacts[..0],
        }
    }
}

/// The impacts of the weights of a range, as far as memory is given.
fn impacts_in(alloc: Global, bits: u8, range: Range) -> Vec<u16>
    requires some_bits { 1 ≤ bits }
    requires most_bits { bits ≤ 16 }
    requires low { range.greatest ≤ 2 ^ 40 }
    ensures { AreImpactsOf bits range.least range.greatest result.items }
{
    let mut impacts = Vec::new(alloc);
    if range.least == 0 || range.greatest.saturating_sub(range.least) > WIDEST {
        return impacts;
    }
    let mut weight = range.least;
    'weights: while weight <= range.greatest {
        match impacts.push(impact_of(Bits::Of(bits), range, weight)) {
            Ok(()) => weight += 1,
            Err(_) => return impacts,
        }
    }
    impacts
}
