ghost use Rattle.std.specs.Prelude.{◌≤◌, ◌≢◌, length, All, AllPairs};
ghost use Rattle.jass_base.specs.declared.query_term.QueryTerm.{QueryTerm};
ghost use Rattle.jass_base.specs.declared.limits.TheConstants.{MOST_QUERY_TERMS};

use crate::query_term::QueryTerm;
use crate::row::Row;
use crate::text::Text;

/// A query over an index. Its known terms stand in the order of first mention.
#[derive(Debug, Drop)]
pub struct Query {
    pub id: Text,
    /// At most 256 terms, which differ.
    pub terms: Row<QueryTerm>,
    /// The number of mentions of terms that the index hasn't.
    pub unknown: u32,
    pub ghost few: { length terms ≤ MOST_QUERY_TERMS },
    pub ghost named: { All (λ (n : QueryTerm). 1 ≤ n.times) terms },
    pub ghost differ: { AllPairs (λ (m n : QueryTerm). m.term ≢ n.term) terms },
}
