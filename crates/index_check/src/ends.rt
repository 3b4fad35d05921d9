ghost use Rattle.std.specs.Prelude.{ℕ, ◌≡◌, IfOk, IsErrOf, List, length};
ghost use Rattle.index_layout.specs.Bytes.{u32_in, u64_in};
ghost use Rattle.index_layout.specs.Heads.{TermHeads, all_heads};
ghost use Rattle.index_layout.specs.Reading.{end_checks};
ghost use Rattle.index_layout.specs.Refusals.{judged};
ghost use Rattle.index_layout.specs.View.{FileView};
ghost use Rattle.index_file.specs.Sums.{AreSums};
ghost use Rattle.index_check.specs.Private.Answers.{AnswersTotals};

use index_file::parts::{Front, Sums};
use index_layout::{OpenFault, OpenWhy, refused};
use jass_base::Totals;

/// The totals, where nothing follows the last payload and those in the front are the sums of the heads.
#[tactic(auto, unfolding(index_layout::specs::Reading::end_checks))]
pub(crate) fn check_ends(front: Front, sums: Sums, end: usize) -> Result<Totals, OpenFault>
    ensures exact { (content : List ℕ) (terms : List TermHeads) (view : FileView) → front.size ≡ length content
        → front.postings ≡ u64_in content 24 → front.greatest ≡ u32_in content 32 → AreSums sums (all_heads terms)
        → AnswersTotals view result (judged (end_checks content terms end) view) }
    ensures unread { ¬ IsErrOf result OpenFault.ReadFault }
    ensures totals { IfOk result (λ totals. totals
        ≡ record { docs = front.docs; terms = front.terms; postings = sums.postings; greatest = sums.greatest }) }
{
    if end < front.size {
        return Err(refused(end, OpenWhy::Length));
    }
    if front.postings != sums.postings {
        return Err(refused(24, OpenWhy::Totals));
    }
    if front.greatest != u32::from(sums.greatest) {
        return Err(refused(32, OpenWhy::Totals));
    }
    Ok(Totals {
        docs: front.docs,
        terms: front.terms,
        postings: sums.postings,
        greatest: sums.greatest,
    })
}
