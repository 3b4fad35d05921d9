ghost use Rattle.std.specs.Prelude.{◌≡◌, ◌<◌, ◌≤◌, ◌+◌, ◌^◌, All, length, None, IfOk};
ghost use Rattle.index_layout.specs.Heads.{all_heads};
ghost use Rattle.index_layout.specs.Reading.{read_terms};
ghost use Rattle.index_layout.specs.Refusals.{Answers};
ghost use Rattle.index_file.specs.Parts.{IsCounted};
ghost use Rattle.index_file.specs.Sums.{AreSums};
ghost use Rattle.index_file.specs.Private.Tables.{AreRows, row_heads};
ghost use Rattle.jass_base.specs.declared.limits.TheConstants.{LONGEST_FILE, MOST_DOCUMENTS};

use crate::sums::Sums;
use crate::term_reader::TermReader;
use crate::term_table::TermTable;
use index_layout::OpenFault;
use std::alloc::Global;

/// How many bytes of terms are held for each byte of a file. A term is spelled by what differs from
/// the one before, so that a short file could have 4 GB of them.
const TEXT_PER_BYTE: usize = 64;

/// How many more are held of any file.
const SPARE_TEXT: usize = 16_777_216;

/// So many terms with their heads from a place on in a file of so many bytes, the sums of the heads, and the
/// place behind the last. A file whose terms have too much text wants memory.
#[inline(never)]
pub(crate) fn read_terms(
    alloc: Global,
    bytes: &[u8],
    size: usize,
    docs: u32,
    count: u32,
    from: usize,
) -> Result<(TermTable, Sums, usize), OpenFault>
    requires from { from ≤ length bytes.now }
    requires few { length bytes.now ≤ LONGEST_FILE }
    requires size { size ≤ LONGEST_FILE }
    requires docs { docs ≤ MOST_DOCUMENTS }
    ensures exact { Answers (λ x. record { terms = row_heads x.0.heads x.0.text x.0.rows; end = x.2 }) result
        (read_terms bytes.now docs count None from) }
    ensures rows { IfOk result (λ x. AreRows x.0.heads x.0.text x.0.rows) }
    ensures counted { IfOk result (λ x. All (IsCounted docs) x.0.heads) }
    ensures count { IfOk result (λ x. length x.0.rows ≡ count + 1) }
    ensures sums { IfOk result (λ x. AreSums x.1 (all_heads (row_heads x.0.heads x.0.text x.0.rows))) }
    ensures end { IfOk result (λ x. (from ≤ x.2) × (x.2 ≤ length bytes.now)) }
{
    let most_text = most_text(size);
    let mut reader = TermReader::new(alloc);
    let mut at = from;
    'terms: for _ in 0..count {
        at = reader.read_one(bytes, docs, at, most_text)?;
    }
    let (table, sums) = reader.finish()?;
    Ok((table, sums, at))
}

/// How many bytes of terms are held at the most of a file of this size: fewer than 2^32.
pub(crate) fn most_text(size: usize) -> usize
    requires { size ≤ LONGEST_FILE }
    ensures { result < 2 ^ 32 }
{
    (TEXT_PER_BYTE * size + SPARE_TEXT).min(0xffff_ffff)
}
