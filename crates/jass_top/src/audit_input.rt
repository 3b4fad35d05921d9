ghost use Rattle.std.specs.Prelude.{◌≡◌, ◌≤◌, [], ◌∷◌, length, nat_lt, IfOk, IfErr};
ghost use Rattle.jass_base.specs.declared.limits.TheConstants.{LONGEST_FILE};
ghost use Rattle.jass_top.specs.AuditMeaning.{judge_audited, judge_run};
ghost use Rattle.jass_top.specs.Judging.{Accepted, Shows, behind, judge_content};
ghost use Rattle.jass_top.specs.Private.Causes.{Unheld, Unread};
ghost use Rattle.jass_top.specs.Private.Inputs.{AcceptsSuch};

use crate::content_input::file_front;
use crate::stop::{Place, Stop};
use jass_base::limits::LONGEST_FILE;
use jass_base::{Cabinet, Row};
use std::alloc::Global;
use trec_run::{RunFault, RunLine, read_run};

/// The number of the refusal of a file that is too long.
const TOO_LONG: u32 = 82;

/// Reads a run by its lines that have bytes.
pub fn open_run<'a, C: Cabinet>(
    alloc: Global,
    files: &mut C,
    name: &'a str,
) -> Result<Row<RunLine>, Stop<'a>>
    ensures accepted { IfOk result (λ run.
        Shows (behind (judge_audited name.now (C.told files.old)) (judge_run name.now)) (Accepted run)) }
    ensures unread { IfErr result (λ stop. Unread (name.now ∷ [])
        (behind (judge_audited name.now (C.told files.old)) (judge_run name.now))
        (C.read_faults files.old) (C.read_faults files.new) stop) }
    ensures stays { C.told files.new ≡ C.told files.old }
    ensures later { C.read_faults files.old ≤ C.read_faults files.new }
    ensures others { C.write_faults files.old ≤ C.write_faults files.new }
{
    let text = match open_text(alloc, files, name) {
        Ok(text) => text,
        Err(stop) => return Err(stop),
    };
    match run_in(alloc, text.as_slice(), name) {
        Ok(run) => Ok(run),
        Err(stop) => Err(stop),
    }
}

/// Reads the text of a file that is audited.
pub fn open_text<'a, C: Cabinet>(
    alloc: Global,
    files: &mut C,
    name: &'a str,
) -> Result<Row<u8>, Stop<'a>>
    ensures accepted { IfOk result (λ text.
        Shows (judge_audited name.now (C.told files.old)) (Accepted text)) }
    ensures unread { IfErr result (λ stop. Unread (name.now ∷ []) (judge_audited name.now (C.told files.old))
        (C.read_faults files.old) (C.read_faults files.new) stop) }
    ensures stays { C.told files.new ≡ C.told files.old }
    ensures later { C.read_faults files.old ≤ C.read_faults files.new }
    ensures others { C.write_faults files.old ≤ C.write_faults files.new }
{
    match is_too_long(files, name) {
        Ok(false) => {}
        Ok(true) => {
            return Err(Stop::Refused {
                name,
                number: TOO_LONG,
                at: Place::Line(0),
            });
        }
        Err(stop) => return Err(stop),
    }
    match file_front(alloc, files, name, LONGEST_FILE as usize) {
        Ok(text) => Ok(text),
        Err(stop) => Err(stop),
    }
}

/// Whether a file has more bytes than one may have that is audited: one byte is looked at, behind the last of these.
fn is_too_long<'a, C: Cabinet>(files: &mut C, name: &'a str) -> Result<bool, Stop<'a>>
    ensures long { IfOk result (λ long. AcceptsSuch (judge_content name.now (C.told files.old))
        (λ content. long ≡ nat_lt LONGEST_FILE (length content))) }
    ensures unread { IfErr result (λ stop. Unread (name.now ∷ []) (judge_content name.now (C.told files.old))
        (C.read_faults files.old) (C.read_faults files.new) stop) }
    ensures stays { C.told files.new ≡ C.told files.old }
    ensures later { C.read_faults files.old ≤ C.read_faults files.new }
    ensures others { C.write_faults files.old ≤ C.write_faults files.new }
{
    let mut byte = [0u8; 1];
    match files.read_at(name, LONGEST_FILE, &mut byte) {
        Ok(count) => Ok(count > 0),
        Err(_) => Err(Stop::ReadFault { name }),
    }
}

/// The lines of a text that have bytes, as those of the run of this name.
fn run_in<'a>(alloc: Global, text: &[u8], name: &'a str) -> Result<Row<RunLine>, Stop<'a>>
    ensures accepted { IfOk result (λ run. judge_run name.now text.now ≡ Accepted run) }
    ensures unheld { IfErr result (λ stop. Unheld (name.now ∷ []) (judge_run name.now text.now) stop) }
{
    match read_run(alloc, text) {
        Ok(run) => Ok(run),
        Err(RunFault::Refused { line, why }) => Err(Stop::Refused {
            name,
            number: why.number(),
            at: Place::Line(line),
        }),
        Err(RunFault::NoMemory) => Err(Stop::NoMemory),
    }
}
