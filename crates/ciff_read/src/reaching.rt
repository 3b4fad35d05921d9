ghost use Rattle.std.specs.Prelude.{◌≡◌, ◌<◌, ◌≤◌, ◌+◌, ◌^◌, [], IfOk, OnOk, MatchResult};
ghost use Rattle.jass_base.specs.Outside.{IsMissing};
ghost use Rattle.jass_base.specs.declared.limits.TheConstants.{LONGEST_FILE};
ghost use Rattle.ciff_read.specs.Walk.{IsOutside};
ghost use Rattle.ciff_read.specs.Private.OnlyReads.{OnlyReads};
ghost use Rattle.ciff_read.specs.Plain.{IsPlain};
ghost use Rattle.ciff_read.specs.Private.Reaching.{HoldsBody, HoldsSize, IsBodyAt, SizeTold, MessageTold};
ghost use Rattle.whole_files.specs.Windows.{IsAt, KeepsFrom, StaysShown, ReachesTold};

use crate::body::Body;
use crate::refusal::{CiffFault, CiffWhy, refused, refused_field};
use jass_base::limits::LONGEST_FILE;
use jass_base::{Cabinet, ReadStop};
use whole_files::Window;
use wire_fields::{WireFault, read_varint};

/// The most bytes that the length of a message has.
const LONGEST_LENGTH: usize = 10;

/// Sees to it that the window holds so many bytes of the file from a place on, or all up to the end.
pub fn reach<C: Cabinet>(
    window: &mut Window,
    files: &mut C,
    name: &str,
    at: u64,
    count: usize,
) -> Result<(), CiffFault>
    requires { at + count ≤ 2 ^ 63 }
    ensures at { MatchResult result (λ _. IsAt at window.new) IsOutside }
    ensures shown { StaysShown (C.told files.old) name.now window.old window.new }
    ensures reached { OnOk result (ReachesTold (C.told files.old) name.now window.old window.new at count) }
    ensures keeps { OnOk result (KeepsFrom at window.old window.new) }
    ensures there { OnOk result (window.old.bytes.items ≡ [] → 1 ≤ count → ¬ IsMissing (C.told files.old) name.now) }
    ensures reads { OnlyReads (C.told files.old) (C.told files.new) name.now (C.read_faults files.old)
        (C.read_faults files.new) (C.write_faults files.old) (C.write_faults files.new) result }
{
    match window.reach(files, name, at, count) {
        Ok(()) => Ok(()),
        Err(ReadStop::ReadFault) => Err(CiffFault::ReadFault),
        Err(ReadStop::NoMemory) => Err(CiffFault::NoMemory),
    }
}

/// Reads the length of the message at a place of a file: the length, and the place behind it.
fn reach_size<C: Cabinet>(
    window: &mut Window,
    files: &mut C,
    name: &str,
    at: u64,
) -> Result<(u64, u64), CiffFault>
    requires { at ≤ LONGEST_FILE }
    ensures place { MatchResult result (λ x. at < x.1) IsPlain }
    ensures held { IfOk result (HoldsSize at window.new) }
    ensures shown { StaysShown (C.told files.old) name.now window.old window.new }
    ensures exact { SizeTold (C.told files.old) name.now at window.old result }
    ensures reads { OnlyReads (C.told files.old) (C.told files.new) name.now (C.read_faults files.old)
        (C.read_faults files.new) (C.write_faults files.old) (C.write_faults files.new) result }
{
    reach(window, files, name, at, LONGEST_LENGTH)?;
    match read_varint(window.bytes.as_slice(), (at - window.start) as usize) {
        Ok((size, from)) => Ok((size, window.start + from as u64)),
        Err(fault) => Err(refused_field(WireFault {
            at: at as usize,
            why: fault.why,
        })),
    }
}

/// Reads the message at a place of a file into the window, and gives its body there.
pub fn reach_message<C: Cabinet>(
    window: &mut Window,
    files: &mut C,
    name: &str,
    at: u64,
) -> Result<Body, CiffFault>
    requires { at ≤ LONGEST_FILE }
    ensures held { MatchResult result (IsBodyAt at window.new) IsPlain }
    ensures message { IfOk result (HoldsBody at window.new) }
    ensures shown { StaysShown (C.told files.old) name.now window.old window.new }
    ensures exact { MessageTold (C.told files.old) name.now at window.old window.new result }
    ensures reads { OnlyReads (C.told files.old) (C.told files.new) name.now (C.read_faults files.old)
        (C.read_faults files.new) (C.write_faults files.old) (C.write_faults files.new) result }
{
    let (size, from) = reach_size(window, files, name, at)?;
    if from > LONGEST_FILE || size > LONGEST_FILE - from {
        return Err(refused(at as usize, CiffWhy::Limit));
    }
    let count = (from - at + size) as usize;
    reach(window, files, name, at, count)?;
    let front = (at - window.start) as usize;
    if window.bytes.len() - front < count {
        return Err(refused(at as usize, CiffWhy::Cut));
    }
    Ok(Body {
        from: front + (from - at) as usize,
        end: front + count,
    })
}
