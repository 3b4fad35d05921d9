//! Whether a list can widen a range, as far as that shows without its postings.

ghost use Rattle.std.specs.Prelude.{◌≡◌, ◌<◌, ◌≤◌, ◌*◌, ◌^◌, length, All};
ghost use Rattle.jass_base.specs.Postings.{HasTfInRange};
ghost use Rattle.jass_base.specs.declared.posting.Posting.{Posting};
ghost use Rattle.weights.specs.Quantizing.{range_of};
ghost use Rattle.impact_segments.specs.Bounds.{can_widen, most_tf, weight_at};
ghost use Rattle.jass_base.specs.declared.limits.TheConstants.{MOST_DOCUMENTS};

use jass_base::Posting;
use weights::{Range, Rule, idf, saturated};

/// How often the term of some postings stands in one of their documents at the most, and 1 where
/// there are none.
pub fn most_tf(postings: &[Posting]) -> u32
    requires { All HasTfInRange postings.now }
    ensures value { result ≡ most_tf postings.now }
    ensures each { All (λ (p : Posting). p.tf ≤ result) postings.now }
    ensures some { 1 ≤ result }
    ensures limit { result < 2 ^ 31 }
{
    let mut most = 1;
    for posting in postings {
        most = most.max(posting.tf);
    }
    most
}

/// The least and the greatest of some norms. Before the first one they are those of an empty range.
pub fn norm_ends(norms: &[u64]) -> Range
    ensures { result ≡ range_of norms.now }
{
    let mut ends = Range::new();
    for norm in norms {
        ends.widen(*norm);
    }
    ends
}

/// Whether a list can widen a range that has so many postings and a term that stands at most so many
/// times in one document, where these are the norms of all documents and their ends. Where it is
/// false the list needn't be read for the range; `lists_inside_leave_the_range` is the law.
pub fn can_widen(
    range: Range,
    rule: Rule,
    count: u32,
    most: u32,
    norms: &[u64],
    ends: Range,
) -> bool
    requires few { length norms.now ≤ MOST_DOCUMENTS }
    requires cut { All (λ n. n ≤ 2 ^ 63) norms.now }
    requires ends { ends ≡ range_of norms.now }
    requires some { 1 ≤ count }
    requires some_tf { 1 ≤ most }
    requires tf_limit { most < 2 ^ 31 }
    ensures { result ≡ can_widen rule (length norms.now) count most ends range }
{
    let docs = norms.len() as u32;
    if count > docs {
        return true;
    }
    let rare = idf(docs, count);
    weight_at(rule, rare, 1, ends.greatest) < range.least
        || range.greatest < weight_at(rule, rare, most, ends.least)
}

/// The weight of a posting whose term is so rare, in a document of this norm.
fn weight_at(rule: Rule, rare: u32, tf: u32, norm: u64) -> u64
    requires rare_limit { rare < 27 * 1024 }
    requires some_tf { 1 ≤ tf }
    requires tf_limit { tf < 2 ^ 31 }
    requires norm_limit { norm ≤ 2 ^ 63 }
    ensures { result ≡ weight_at rule rare tf norm }
{
    match rule {
        Rule::Tf => u64::from(tf),
        Rule::Bm25 => saturated(rare, tf, norm),
    }
}
