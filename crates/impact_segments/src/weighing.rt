ghost use Rattle.std.specs.Prelude.{◌≡◌, ℕ, ◌<◌, ◌≤◌, ◌*◌, ◌^◌, length, fold, All, IfOk};
ghost use Rattle.std.specs.List.{flat_map};
ghost use Rattle.weights.specs.Quantizing.{widened, range_of, impact_of, IsInRange};
ghost use Rattle.weights.specs.Weighting.{idf};
ghost use Rattle.jass_base.specs.Lists.{HasDocsBelow};
ghost use Rattle.jass_base.specs.Postings.{HasTfInRange};
ghost use Rattle.jass_base.specs.declared.postings_list.PostingsList.{PostingsList};
ghost use Rattle.impact_segments.specs.Collections.{weight_in};
ghost use Rattle.impact_segments.specs.Private.Weighed.{lengths_in, total_length, norms_of, list_weights};
ghost use Rattle.jass_base.specs.declared.limits.TheConstants.{MOST_DOCUMENTS};

use jass_base::{DocRecord, NoMemory, Posting, PostingsList};
use std::alloc::Global;
use weights::{Bits, Range, Rule, idf, length_norm, saturated};

/// What the weights of a collection's postings depend on, beside their lists.
#[derive(Drop)]
pub(crate) struct Weigher<'a> {
    pub(crate) rule: Rule,
    pub(crate) docs: &'a [DocRecord],
    /// How far each document's length slows the growth of a weight. It is taken once for each
    /// document, and not for each posting.
    norms: Vec<u64>,
    ghost few_docs: { length docs.now ≤ MOST_DOCUMENTS },
    ghost norms_are: { norms.items ≡ norms_of docs.now },
}

impl<'a> Weigher<'a> {
    pub(crate) fn new(
        alloc: Global,
        rule: Rule,
        docs: &'a [DocRecord],
    ) -> Result<Weigher<'a>, NoMemory>
        requires { length docs.now ≤ MOST_DOCUMENTS }
        ensures rule { IfOk result (λ w. w.rule ≡ rule) }
        ensures docs { IfOk result (λ w. w.docs.now ≡ docs.now) }
    {
        let norms = norms_of(alloc, docs)?;
        Ok(Weigher { rule, docs, norms })
    }

    /// How rare the term of a list is that has postings.
    pub(crate) fn rarity(&self, list: &PostingsList) -> u32
        requires some { 1 ≤ length list.now.postings }
        requires below { HasDocsBelow (length self.now.docs.now) list.now }
        ensures value { result ≡ idf (length self.now.docs.now) (length list.now.postings) }
        ensures limit { result < 27 * 1024 }
    {
        idf(self.docs.len() as u32, list.postings.len() as u32)
    }

    /// The weight of a posting of a term that is so rare.
    pub(crate) fn weigh(&self, rare: u32, posting: Posting) -> u64
        requires rare_limit { rare < 27 * 1024 }
        requires below { posting.doc < length self.now.docs.now }
        requires tf { HasTfInRange posting }
        ensures value { (count : ℕ) → rare ≡ idf (length self.now.docs.now) count
            → result ≡ weight_in self.now.rule (lengths_in self.now.docs.now) (total_length self.now.docs.now)
            count posting }
        ensures positive { 1 ≤ result }
        ensures limit { result < 2 ^ 31 }
    {
        match self.rule {
            Rule::Tf => u64::from(posting.tf),
            Rule::Bm25 => saturated(rare, posting.tf, self.norms[posting.doc as usize]),
        }
    }

    /// A range in which these bits give each weight the impact that the range of all weights does.
    pub(crate) fn range_for(&self, bits: Bits, lists: &[PostingsList]) -> Range
        requires { All (HasDocsBelow (length self.now.docs.now)) lists.now }
        ensures same { (w : ℕ) → impact_of bits result w
            ≡ impact_of bits (range_of (flat_map (list_weights self.now.rule self.now.docs.now) lists.now)) w }
        ensures in_range { All (λ (l : PostingsList). All (IsInRange bits result)
            (list_weights self.now.rule self.now.docs.now l)) lists.now }
    {
        match bits {
            Bits::Raw => Range::new(),
            Bits::Of(_) => self.range(lists),
        }
    }

    /// The range of the weights of all postings.
    pub(crate) fn range(&self, lists: &[PostingsList]) -> Range
        requires { All (HasDocsBelow (length self.now.docs.now)) lists.now }
        ensures value { result ≡ range_of (flat_map (list_weights self.now.rule self.now.docs.now) lists.now) }
        ensures limit { result.greatest < 2 ^ 31 }
    {
        let mut range = Range::new();
        for list in lists {
            self.widen(list, &mut range);
        }
        range
    }

    pub(crate) fn widen(&self, list: &PostingsList, range: &mut Range)
        requires below { HasDocsBelow (length self.now.docs.now) list.now }
        requires limit { range.old.greatest < 2 ^ 31 }
        ensures value { range.new ≡ fold widened range.old (list_weights self.now.rule self.now.docs.now list.now) }
        ensures limit { range.new.greatest < 2 ^ 31 }
    {
        if list.postings.is_empty() {
            return;
        }
        let rare = self.rarity(list);
        for posting in list.postings.as_slice() {
            range.widen(self.weigh(rare, *posting));
        }
    }
}

/// How far each document's length slows the growth of a weight.
fn norms_of(alloc: Global, docs: &[DocRecord]) -> Result<Vec<u64>, NoMemory>
    requires { length docs.now ≤ MOST_DOCUMENTS }
    ensures { IfOk result (λ norms. norms.items ≡ norms_of docs.now) }
{
    let count = docs.len() as u32;
    let total = total_length(docs);
    let mut norms = Vec::with_capacity(alloc, docs.len())?;
    for doc in docs {
        norms.push(length_norm(count, total, doc.length))?;
    }
    Ok(norms)
}

/// The terms of all documents in all, at least 1.
fn total_length(docs: &[DocRecord]) -> u64
    requires { length docs.now ≤ MOST_DOCUMENTS }
    ensures { result ≡ total_length docs.now }
{
    let mut total: u64 = 0;
    for doc in docs {
        total += u64::from(doc.length);
    }
    total.max(1)
}
