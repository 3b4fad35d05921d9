ghost use Rattle.std.specs.Prelude.{◌≡◌, ◌≤◌, length, map, All, IfOk};
ghost use Rattle.index_layout.specs.Reading.{name_in, read_names};
ghost use Rattle.index_layout.specs.Refusals.{Answers};
ghost use Rattle.jass_base.specs.declared.limits.TheConstants.{LONGEST_FILE};
ghost use Rattle.index_file.specs.Private.Outlines.{EndsBefore};

use crate::name::name_end;
use index_layout::OpenFault;
use jass_base::Row;
use std::alloc::Global;

/// The places of so many names behind the first 40 bytes, and the place behind the last.
#[inline(never)]
pub(crate) fn read_names(
    alloc: Global,
    bytes: &[u8],
    docs: u32,
) -> Result<(Row<u32>, usize), OpenFault>
    requires front { 40 ≤ length bytes.now }
    requires few { length bytes.now ≤ LONGEST_FILE }
    ensures exact { Answers (λ x. record { names = map (name_in bytes.now) x.0; end = x.1 }) result
        (read_names bytes.now docs 40) }
    ensures before { IfOk result (λ x. All (EndsBefore bytes.now x.1) x.0) }
    ensures start { IfOk result (λ x. 40 ≤ x.1) }
    ensures end { IfOk result (λ x. x.1 ≤ length bytes.now) }
    ensures count { IfOk result (λ x. length x.0 ≡ docs) }
{
    let mut places = Row::new(alloc);
    let mut at = 40;
    'names: for _ in 0..docs {
        let next = name_end(bytes, at)?;
        match places.push(at as u32) {
            Ok(()) => {}
            Err(_) => return Err(OpenFault::NoMemory),
        }
        at = next;
    }
    Ok((places, at))
}
