ghost use Rattle.std.specs.Prelude.{◌≡◌, ◌≤◌, ◌+◌, ◌*◌, ◌++◌, List, length, All, IfOk, OnOk};
ghost use Rattle.index_layout.specs.Heads.{HeadData};
ghost use Rattle.index_layout.specs.Reading.{read_heads};
ghost use Rattle.index_layout.specs.Refusals.{Answers};
ghost use Rattle.index_file.specs.Sums.{AreSums};
ghost use Rattle.index_file.specs.Parts.{IsCounted, heads_from};
ghost use Rattle.jass_base.specs.declared.limits.TheConstants.{GREATEST_IMPACT, LONGEST_FILE, MOST_DOCUMENTS};

use crate::head::read_head;
use crate::sums::Sums;
use index_layout::OpenFault;
use jass_base::limits::GREATEST_IMPACT;

/// Checks the heads of a term, so many from a place on, adds them to the sums, and gives the place
/// behind them.
#[inline(never)]
pub fn read_heads(
    sums: &mut Sums,
    bytes: &[u8],
    docs: u32,
    count: u32,
    from: usize,
) -> Result<usize, OpenFault>
    requires from { from ≤ length bytes.now }
    requires few { length bytes.now ≤ LONGEST_FILE }
    requires docs { docs ≤ MOST_DOCUMENTS }
    requires small { sums.old.postings ≤ MOST_DOCUMENTS * LONGEST_FILE }
    ensures exact { Answers (λ end. record { heads = heads_from bytes.now count from; end = end }) result
        (read_heads bytes.now docs count (GREATEST_IMPACT + 1) from) }
    ensures counted { IfOk result (λ _. All (IsCounted docs) (heads_from bytes.now count from)) }
    ensures sums { OnOk result ((heads : List HeadData) → AreSums sums.old heads
        → AreSums sums.new (heads ++ heads_from bytes.now count from)) }
    ensures small { IfOk result (λ end. sums.new.postings + MOST_DOCUMENTS * from
        ≤ sums.old.postings + MOST_DOCUMENTS * end) }
    ensures place { IfOk result (λ end. end ≡ from + 11 * count) }
    ensures end { IfOk result (λ end. end ≤ length bytes.now) }
{
    let mut at = from;
    let mut above = GREATEST_IMPACT + 1;
    // behind the reference each head would wait for the sums of the one before
    let mut total = *sums;
    'heads: for _ in 0..count {
        let (impact, postings) = read_head(bytes, docs, above, at)?;
        total = Sums {
            postings: total.postings + u64::from(postings),
            greatest: total.greatest.max(impact),
        };
        above = u32::from(impact);
        at += 11;
    }
    *sums = total;
    Ok(at)
}
