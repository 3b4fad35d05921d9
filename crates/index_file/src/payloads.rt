ghost use Rattle.std.specs.Prelude.{ℕ, ◌<◌, ◌≤◌, ◌+◌, List, All, length, IfOk};
ghost use Rattle.index_layout.specs.Reading.{read_payloads};
ghost use Rattle.index_layout.specs.Refusals.{Answers};
ghost use Rattle.jass_base.specs.declared.limits.TheConstants.{LONGEST_FILE, MOST_DOCUMENTS};
ghost use Rattle.index_file.specs.Parts.{IsCounted};
ghost use Rattle.index_file.specs.Private.Payloads.{IsPlaced, row_terms};
ghost use Rattle.index_file.specs.Private.Tables.{AreRows, heads_between, row_at, row_heads};

use crate::head_table::HeadTable;
use crate::marks::next_mark;
use crate::term_payloads::read_term_payloads;
use crate::term_row::TermRow;
use index_layout::OpenFault;
use jass_base::Row;
use std::alloc::Global;

/// Checks the payloads of all terms from the front of some bytes on, and gives where each group of four
/// payloads of a term begins, and the place behind the last. Meanwhile it takes two bytes for each document.
#[inline(never)]
pub(crate) fn read_payloads(
    alloc: Global,
    bytes: &[u8],
    docs: u32,
    heads: &HeadTable,
    rows: &[TermRow],
) -> Result<(Row<u32>, usize), OpenFault>
    requires few { length bytes.now ≤ LONGEST_FILE }
    requires docs { docs ≤ MOST_DOCUMENTS }
    requires rows { (text : List ℕ) × AreRows heads.now text rows.now }
    requires counted { All (IsCounted docs) heads.now }
    ensures exact { (text : List ℕ) → Answers
        (λ x. record { terms = row_terms bytes.now docs heads.now text x.0 rows.now; end = x.1 }) result
        (read_payloads bytes.now docs (row_heads heads.now text rows.now) 0) }
    ensures placed { IfOk result (λ x. (t : ℕ) → t + 1 < length rows.now → IsPlaced bytes.now docs x.0
        (row_at rows.now t) (heads_between heads.now (row_at rows.now t) (row_at rows.now (t + 1)))) }
    ensures end { IfOk result (λ x. x.1 ≤ length bytes.now) }
{
    let mut table = match vec![in alloc; 0u16; docs as usize] {
        Ok(table) => table,
        Err(_) => return Err(OpenFault::NoMemory),
    };
    let marks = table.as_mut_slice();
    let mut groups = Row::new(alloc);
    let mut block = [0u32; 4096];
    let mut now = 0;
    let mut at = 0;
    'terms: for i in 0..rows.len() - 1 {
        now = next_mark(marks, now);
        at = read_term_payloads(
            bytes,
            docs,
            heads,
            rows[i].head as usize,
            rows[i + 1].head as usize,
            &mut groups,
            marks,
            now,
            at,
            &mut block,
        )?;
    }
    Ok((groups, at))
}
