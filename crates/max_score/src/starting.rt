//! The threshold that a walk begins with.

ghost use Rattle.std.specs.Prelude.{◌≡◌, ◌+◌, ◌<◌, ◌⊎◌, All, length};
ghost use Rattle.std.specs.List.{AllByRecursion};
ghost use Rattle.max_score.specs.Private.Lists.{scores_in};
ghost use Rattle.max_score.specs.Private.Reaching.{HasMany};
ghost use Rattle.max_score.specs.Private.Standing.{Misses};
ghost use Rattle.max_score.specs.Private.Unread.{IsRead};
ghost use Rattle.max_score.specs.declared.term_list.TermList.{TermList};

use crate::term_list::TermList;
use index_file::Source;

/// A threshold that k documents pass by the postings of one list alone; 0 where no list has so many.
pub fn first_threshold<S: Source>(lists: &[TermList], source: &S, k: usize) -> u32
    requires known { AllByRecursion (λ list. list.cursor.term < length (S.index source.now).terms) lists.now }
    requires read { AllByRecursion (IsRead (S.index source.now)) lists.now }
    ensures { Misses (scores_in (length (S.index source.now).names) lists.now) k result 0 }
{
    let mut threshold = 0;
    for list in lists {
        threshold = passed_by(list, source, k).max(threshold);
    }
    threshold
}

/// One below the greatest weight that k postings of a list reach; 0 where it has fewer.
fn passed_by<S: Source>(list: &TermList, source: &S, k: usize) -> u32
    requires known { list.now.cursor.term < length (S.index source.now).terms }
    requires read { IsRead (S.index source.now) list.now }
    ensures { (result ≡ 0) ⊎ HasMany (length (S.index source.now).names) k (result + 1) list.now }
{
    source.is_searchable();
    let term = list.cursor.term();
    let mut seen = 0;
    for segment in 0..source.segments(term) {
        let head = source.head(term, segment);
        seen += u64::from(head.count);
        if seen >= k as u64 {
            return (u32::from(head.impact) * u32::from(list.times)).saturating_sub(1);
        }
    }
    0
}
