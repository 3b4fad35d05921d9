//! What the heads sum up to.

ghost use Rattle.std.specs.Prelude.{◌≡◌, ◌==◌, ◌<◌, ◌+◌, map, max, MatchOption};
ghost use Rattle.std.specs.List.{sum_by};
ghost use Rattle.index_layout.specs.Heads.{greatest_impact, greatest_of, head_postings};
ghost use Rattle.index_version1.specs.Private.Tables.{head_data, term_heads};
ghost use Rattle.index_version1.specs.declared.head.Head.{Head};

use crate::head::Head;
use crate::old_term::OldTerm;

/// What is left of a number of postings without those of the heads, and None where they are more.
fn without(heads: &[Head], postings: u64) -> Option<u64>
    ensures { MatchOption result (postings < sum_by (λ (h : Head). h.count) heads.now)
        (λ left. left + sum_by (λ (h : Head). h.count) heads.now ≡ postings) }
{
    let mut left = postings;
    for head in heads {
        let count = u64::from(head.count);
        if left < count {
            return None;
        }
        left -= count;
    }
    Some(left)
}

/// Whether the heads of the terms count so many postings.
pub fn has_postings(terms: &[OldTerm], postings: u64) -> bool
    ensures { result ≡ (postings == head_postings (map term_heads terms.now)) }
{
    let mut left = postings;
    for term in terms {
        match without(term.heads.as_slice(), left) {
            Some(rest) => left = rest,
            None => return false,
        }
    }
    left == 0
}

/// The greater of a number and the greatest impact of the heads.
fn greatest_with(heads: &[Head], impact: u16) -> u16
    ensures { result ≡ max (greatest_of (map head_data heads.now)) impact }
{
    let mut greatest = impact;
    for head in heads {
        if head.impact > greatest {
            greatest = head.impact;
        }
    }
    greatest
}

/// The greatest impact of the terms' heads, 0 where there is none.
pub fn greatest(terms: &[OldTerm]) -> u16
    ensures { result ≡ greatest_impact (map term_heads terms.now) }
{
    let mut greatest = 0;
    for term in terms {
        greatest = greatest_with(term.heads.as_slice(), greatest);
    }
    greatest
}
