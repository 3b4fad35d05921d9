ghost use Rattle.std.specs.Prelude.{ℕ, ◌≡◌, ◌≤◌, List, length};
ghost use Rattle.index_layout.specs.Bytes.{u32_in, u64_in};
ghost use Rattle.index_layout.specs.Heads.{TermHeads, all_heads};
ghost use Rattle.index_layout.specs.Reading.{end_checks};
ghost use Rattle.index_layout.specs.Refusals.{Answers, judged};
ghost use Rattle.index_layout.specs.View.{FileView};
ghost use Rattle.index_file.specs.Sums.{AreSums};

use crate::number::{u32_at, u64_at};
use crate::sums::Sums;
use index_layout::{OpenFault, OpenWhy, refused};

/// That nothing follows the last payload in a file of so many bytes, and that the totals in its front are the
/// sums of the heads.
#[tactic(auto, unfolding(index_layout::specs::Reading::end_checks))]
pub(crate) fn check_ends(front: &[u8], size: usize, sums: Sums, end: usize) -> Result<(), OpenFault>
    requires front { 40 ≤ length front.now }
    ensures { (bytes : List ℕ) (terms : List TermHeads) (view : FileView) → length bytes ≡ size
        → u64_in bytes 24 ≡ u64_in front.now 24 → u32_in bytes 32 ≡ u32_in front.now 32 → AreSums sums (all_heads terms)
        → Answers (λ _. view) result (judged (end_checks bytes terms end) view) }
{
    if end < size {
        return Err(refused(end, OpenWhy::Length));
    }
    if u64_at(front, 24) != sums.postings {
        return Err(refused(24, OpenWhy::Totals));
    }
    if u32_at(front, 32) != u32::from(sums.greatest) {
        return Err(refused(32, OpenWhy::Totals));
    }
    Ok(())
}
