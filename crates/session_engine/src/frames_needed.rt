ghost use Rattle.std.specs.Prelude.{◌≡◌, ◌+◌, ◌≤◌, min};
ghost use Rattle.session_engine.specs.Plans.{AreKnown, need_of, postings_at};

use crate::laws::a_session_plan_has_its_postings;
use index_file::Source;
use jass_base::Query;

/// The most frames that a session of the query can use: as many as the index has pages of 256 documents, or as the
/// query's plan has postings where these are fewer. The query's terms are the index's.
pub fn need<S: Source>(source: &S, query: &Query) -> u32
    requires { AreKnown (S.index source.now) query.now.terms }
    ensures { result ≡ need_of (S.index source.now) query.now.terms }
{
    a_session_plan_has_its_postings();
    let pages = source.docs().div_ceil(256);
    let mut count = 0;
    for named in query.terms.as_slice() {
        count = counted(source, named.term, count, pages);
    }
    count
}

/// A count with the postings of a term, up to a limit.
fn counted<S: Source>(source: &S, term: u32, count: u32, limit: u32) -> u32
    requires { count ≤ limit }
    ensures { result ≡ min limit (count + postings_at (S.index source.now).terms term) }
{
    let mut sum = count;
    for segment in 0..source.segments(term) {
        // At the limit the other heads needn't be read.
        if sum == limit {
            return limit;
        }
        sum = sum
            .saturating_add(source.head(term, segment).count)
            .min(limit);
    }
    sum
}
