ghost use Rattle.std.specs.Prelude.{◌≤◌, length, IfErr, IfOk, MatchResult};
ghost use Rattle.jass_base.specs.declared.limits.TheConstants.{LONGEST_FILE};
ghost use Rattle.ciff_read.specs.Private.OnlyReads.{OnlyReads};
ghost use Rattle.ciff_read.specs.Private.Places.{message_in};
ghost use Rattle.ciff_read.specs.Plain.{IsPlain};
ghost use Rattle.ciff_read.specs.Private.Plain.{IsNearFault};
ghost use Rattle.ciff_read.specs.Private.Reached.{IsNewDoc, IsNextDoc, DocHeld, DocTold};
ghost use Rattle.whole_files.specs.Windows.{StaysShown};

use crate::body::Body;
use crate::doc_set::DocSet;
use crate::document::walk_doc;
use crate::laws::{messages_move, refusals_are_near};
use crate::moved_fault::fault_in_file;
use crate::reaching::reach_message;
use crate::refusal::CiffFault;
use jass_base::{Cabinet, DocRecord};
use std::alloc::Global;
use whole_files::Window;

/// Reads the document's record at a place of a file of so many documents, behind records of
/// these numbers, and gives its number, the record, and the place behind it.
pub fn reach_doc<C: Cabinet>(
    alloc: Global,
    window: &mut Window,
    files: &mut C,
    name: &str,
    at: u64,
    docs: u32,
    numbers: &DocSet,
) -> Result<(u32, DocRecord, u64), CiffFault>
    requires { at ≤ LONGEST_FILE }
    ensures given { IfOk result (IsNextDoc docs numbers.now at) }
    ensures plain { IfErr result IsPlain }
    ensures shown { StaysShown (C.told files.old) name.now window.old window.new }
    ensures exact { DocTold (C.told files.old) name.now window.old docs numbers.now at result }
    ensures reads { OnlyReads (C.told files.old) (C.told files.new) name.now (C.read_faults files.old)
        (C.read_faults files.new) (C.write_faults files.old) (C.write_faults files.new) result }
{
    messages_move();
    let body = reach_message(window, files, name, at)?;
    let place = (at - window.start) as usize;
    match read_held(alloc, window.bytes.as_slice(), place, body, docs, numbers) {
        Ok((number, record)) => Ok((number, record, window.start + body.end as u64)),
        Err(fault) => Err(fault_in_file(fault, window.start)),
    }
}

/// Reads the document's record of the message at `at`, and gives its number.
fn read_held(
    alloc: Global,
    bytes: &[u8],
    at: usize,
    body: Body,
    docs: u32,
    numbers: &DocSet,
) -> Result<(u32, DocRecord), CiffFault>
    requires within { body.end ≤ length bytes.now }
    requires at { at ≤ body.end }
    ensures given { MatchResult result (λ x. IsNewDoc docs numbers.now x.0) (IsNearFault body.end) }
    ensures plain { IfErr result IsPlain }
    ensures exact { DocHeld docs numbers.now at (message_in bytes.now body) result }
{
    refusals_are_near();
    let walked = match walk_doc(bytes, at, body, docs) {
        Ok(walked) => walked,
        Err(fault) => return Err(fault),
    };
    let is_new = !numbers.contains(walked.number);
    match walked.finish(alloc, at, is_new) {
        Ok(record) => Ok((walked.number, record)),
        Err(fault) => Err(fault),
    }
}
