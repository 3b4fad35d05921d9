ghost use Rattle.std.specs.Prelude.{◌≡◌, ◌≤◌, length, take, IfErr, IfOk, IfSome};
ghost use Rattle.index_layout.specs.Reading.{read_index};
ghost use Rattle.index_layout.specs.Refusals.{Fails};
ghost use Rattle.index_file.specs.Private.Outlines.{AreParts, IsOutline, FixesNames, after_outline};
ghost use Rattle.jass_base.specs.declared.limits.TheConstants.{LONGEST_FILE, MOST_DOCUMENTS};

use crate::front::read_front;
use crate::holding::rest_of;
use crate::names::read_names;
use crate::small::are_bytes;
use crate::sums::Sums;
use crate::term_table::TermTable;
use crate::terms::read_terms;
use index_layout::OpenFault;
use jass_base::Row;
use std::alloc::Global;

/// What stands before the payloads of a file, as tables: where the names stand, the terms with their heads,
/// how many terms there are, and the sums of the heads.
#[derive(Drop)]
pub(crate) struct Outline {
    pub(crate) places: Row<u32>,
    pub(crate) terms: TermTable,
    pub(crate) count: u32,
    pub(crate) sums: Sums,
}

/// The outline of a whole file, and the places behind the names and behind the terms; or the first refusal.
pub(crate) fn read_outline(
    alloc: Global,
    bytes: &[u8],
) -> Result<(Outline, usize, usize), OpenFault>
    ensures outline { IfOk result (λ x. IsOutline bytes.now x.0 x.1 x.2) }
    ensures few { IfOk result (λ x. length x.0.places ≤ MOST_DOCUMENTS) }
    ensures fits { IfOk result (λ _. length bytes.now ≤ LONGEST_FILE) }
    ensures read { IfOk result (λ x. read_index bytes.now ≡ after_outline bytes.now x.0 x.2) }
    ensures refused { IfErr result (λ fault. Fails fault (read_index bytes.now)) }
{
    let size = bytes.len();
    let front = read_front(bytes, size)?;
    let (places, names_end) = read_names(alloc, bytes, front.docs)?;
    let (terms, sums, terms_end) = read_terms(
        alloc,
        bytes,
        size,
        front.docs,
        front.terms,
        names_end,
    )?;
    let outline = Outline {
        places,
        terms,
        count: front.terms,
        sums,
    };
    Ok((outline, names_end, terms_end))
}

/// The parts of a whole file: its outline, the front with the names, the payloads, and the place of these; or the
/// first refusal of what stands before them. The payloads stay in the memory of the file.
pub(crate) fn take_apart(
    alloc: Global,
    bytes: Row<u8>,
) -> Result<(Outline, Row<u8>, Row<u8>, usize), OpenFault>
    ensures parts { IfOk result (λ x. AreParts bytes x.0 x.1 x.2 x.3) }
    ensures read { IfOk result (λ x. read_index bytes ≡ after_outline bytes x.0 x.3) }
    ensures refused { IfErr result (λ fault. Fails fault (read_index bytes)) }
{
    are_bytes(bytes.as_slice());
    let (outline, names_end, terms_end) = read_outline(alloc, bytes.as_slice())?;
    let front = first_bytes(alloc, bytes.as_slice(), names_end)?;
    Ok((outline, front, rest_of(bytes, terms_end), terms_end))
}

/// A copy of the first bytes of a file.
pub(crate) fn first_bytes(alloc: Global, bytes: &[u8], count: usize) -> Result<Row<u8>, OpenFault>
    requires { count ≤ length bytes.now }
    ensures same { IfOk result (λ row. row ≡ take count bytes.now) }
    ensures fault { IfErr result (λ fault. fault ≡ OpenFault.NoMemory) }
{
    let mut row = Row::new(alloc);
    match row.extend(&bytes[..count]) {
        Ok(()) => Ok(row),
        Err(_) => Err(OpenFault::NoMemory),
    }
}

/// Where the names of a file of so many bytes stand in its front, and how many terms the front tells; none where it is
/// refused, or has more behind the names.
pub(crate) fn names_of(
    alloc: Global,
    front: &[u8],
    size: usize,
) -> Result<Option<(Row<u32>, u32)>, OpenFault>
    requires within { length front.now ≤ size }
    requires size { size ≤ LONGEST_FILE }
    ensures names { IfOk result (λ found. IfSome found (λ x. FixesNames front.now size x.1 x.0)) }
    ensures few { IfOk result (λ found. IfSome found (λ x. length x.0 ≤ MOST_DOCUMENTS)) }
    ensures fault { IfErr result (λ fault. fault ≡ OpenFault.NoMemory) }
{
    let Ok(told) = read_front(front, size) else {
        return Ok(None);
    };
    match read_names(alloc, front, told.docs) {
        Ok((places, end)) => {
            if end < front.len() {
                return Ok(None);
            }
            Ok(Some((places, told.terms)))
        }
        Err(OpenFault::NoMemory) => Err(OpenFault::NoMemory),
        Err(_) => Ok(None),
    }
}
