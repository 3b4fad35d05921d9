//! What is kept from one list of a collection to the next.

ghost use Rattle.weights.specs.Quantizing.{IsImpactWidth};
ghost use Rattle.impact_segments.specs.OneList.{EndsLow};

use crate::doc_impact::DocImpact;
use crate::impact_table::ImpactTable;
use crate::places::ImpactPlaces;
use std::alloc::Global;
use weights::{Bits, Range};

/// The impacts of a range's weights, and memory that is used again, for a caller that makes the
/// segments of one list after another. Segments are the same by whatever scratch they are made.
#[derive(Drop)]
pub struct Scratch {
    alloc: Global,
    pub(crate) table: ImpactTable,
    pub(crate) pairs: Vec<DocImpact>,
    pub(crate) places: ImpactPlaces,
}

impl Scratch {
    /// Nothing is kept yet, and no memory is taken.
    pub fn new(alloc: Global) -> Scratch {
        Scratch {
            alloc,
            table: ImpactTable::new(alloc),
            pairs: Vec::new(alloc),
            places: ImpactPlaces::new(alloc),
        }
    }

    /// Makes the table of a range, where impacts are places in it and there is none yet.
    pub(crate) fn make_table(&mut self, bits: Bits, range: Range)
        requires width { IsImpactWidth bits }
        requires low { EndsLow bits range }
    {
        match bits {
            Bits::Of(b) if !self.table.is_of(b, range) => {
                self.table = ImpactTable::of_range(self.alloc, b, range);
            }
            _ => {}
        }
    }
}
