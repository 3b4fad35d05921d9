ghost use Rattle.std.specs.Prelude.{IfOk, IfErr};
ghost use Rattle.index_model.specs.Index.{IndexData};
ghost use Rattle.index_model.specs.Views.{index_data};
ghost use Rattle.index_layout.specs.Refusals.{Answers};
ghost use Rattle.index_version1.specs.Acceptance.{GivesIndex, IsOfVersion1};
ghost use Rattle.index_version1.specs.Files.{IsIndexFile1};
ghost use Rattle.index_version1.specs.Reading.{read_index1};

use crate::laws::{indexes_are_read, old_files_are_read};
use crate::parts::{Parts, read_parts};
use index_layout::OpenFault;
use jass_base::ImpactIndex;
use std::alloc::Global;

/// The index of a file of version 1, in memory: exactly where the bytes are such a file, unless
/// memory is refused. Else it is the first refusal. Neither a ReadFault nor the refusal of an older
/// version comes.
pub fn read_version1(alloc: Global, bytes: &[u8]) -> Result<ImpactIndex, OpenFault>
    ensures exact { Answers index_data result (read_index1 bytes.now) }
    ensures found { IfOk result (λ index. IsIndexFile1 bytes.now (index_data index)) }
    ensures fault { IfErr result IsOfVersion1 }
    ensures only { (index : IndexData) → IsIndexFile1 bytes.now index → GivesIndex index result }
{
    old_files_are_read();
    indexes_are_read();
    let parts = read_parts(alloc, bytes)?;
    let Parts {
        names,
        terms,
        greatest,
    } = parts;
    Ok(ImpactIndex {
        names,
        terms,
        greatest,
    })
}
