ghost use Rattle.std.specs.Prelude.{IfOk};
ghost use Rattle.run_audit.specs.Private.Working.{IsRoomFor};

use jass_base::{Hit, NoMemory};
use std::alloc::Global;

/// Memory that is taken once for all queries.
#[derive(Drop)]
pub struct Workspace {
    /// The score of each document of the index.
    pub scores: Vec<u32>,
    /// Scratch space for the documents that have a score.
    pub hits: Vec<Hit>,
}

impl Workspace {
    /// Room for an index of so many documents.
    pub fn new(alloc: Global, docs: u32) -> Result<Workspace, NoMemory>
        ensures { IfOk result (λ work. IsRoomFor docs work) }
    {
        let scores = match vec![in alloc; 0u32; docs as usize] {
            Ok(scores) => scores,
            Err(_) => return Err(NoMemory),
        };
        match vec![in alloc; Hit { doc: 0, score: 0 }; docs as usize] {
            Ok(hits) => Ok(Workspace { scores, hits }),
            Err(_) => Err(NoMemory),
        }
    }
}
