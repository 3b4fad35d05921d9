ghost use Rattle.std.specs.Prelude.{◌≡◌, ◌<◌, ◌≤◌, ◌^◌, length, All};
ghost use Rattle.impact_segments.specs.Collections.{total_of};
ghost use Rattle.impact_segments.specs.OneList.{norms_in};
ghost use Rattle.jass_base.specs.declared.limits.TheConstants.{MOST_DOCUMENTS};

use weights::Rule;

/// What the weights of a collection's postings depend on, beside their lists.
#[derive(Clone, Copy)]
pub(crate) struct Weighing<'a> {
    pub rule: Rule,
    /// The terms of all documents, at least 1.
    pub total: u64,
    /// The lengths of the documents.
    pub lengths: &'a [u32],
    /// How far each length slows the growth of a weight.
    pub norms: &'a [u64],
    pub ghost few: { length lengths.now ≤ MOST_DOCUMENTS },
    pub ghost small: { All (λ n. n < 2 ^ 31) lengths.now },
    pub ghost total_is: { total ≡ total_of lengths.now },
    pub ghost norms_are: { norms.now ≡ norms_in lengths.now total },
}
