ghost use Rattle.std.specs.Prelude.{◌≡◌, ◌<◌, ◌≤◌, length, All, AllPairs};
ghost use Rattle.jass_base.specs.Limits.{IsName, IsText};
ghost use Rattle.jass_base.specs.Terms.{RisesTo, HasTermBelow, greatest_impact};
ghost use Rattle.jass_base.specs.declared.limits.TheConstants.{MOST_DOCUMENTS, MOST_TERMS};

use crate::row::Row;
use crate::term_segments::TermSegments;
use crate::text::Text;

/// An impact-ordered index in memory: the names of the documents, by number, and the terms
/// by rising bytes.
#[derive(Debug, Drop)]
pub struct ImpactIndex {
    /// At most 2^26 names.
    pub names: Row<Text>,
    /// At most 2^24 terms.
    pub terms: Row<TermSegments>,
    /// The greatest impact; 0 where there is none.
    pub greatest: u16,
    pub ghost few_names: { length names ≤ MOST_DOCUMENTS },
    pub ghost names_fit: { All IsName names },
    pub ghost names_are_text: { All IsText names },
    pub ghost few_terms: { length terms ≤ MOST_TERMS },
    pub ghost rising: { AllPairs RisesTo terms },
    pub ghost docs_below: { All (HasTermBelow (length names)) terms },
    pub ghost greatest_is: { greatest ≡ greatest_impact terms },
}
