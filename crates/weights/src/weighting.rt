// The weight of a posting.

ghost use Rattle.std.specs.Prelude.{◌≡◌, ◌+◌, ◌-◌, ◌*◌, ◌/◌, ◌^◌, ◌<◌, ◌≤◌, max, min};
ghost use Rattle.weights.specs.Weighting.{idf, length_norm, saturated, weight_of};

use crate::logarithm::lg;

/// 1,000 times BM25's k1 + 1, k1 * (1 - b) and k1 * b, for k1 = 0.9 and b = 0.4.
const GAIN: u64 = 1_900;

const FLAT_PART: u128 = 540;

const LENGTH_PART: u128 = 360;

/// The norm at which no weight is above 1, whatever the term.
const MOST_NORM: u128 = 1 << 63;

/// How a posting is weighed.
#[derive(Clone, Copy, PartialEq, Eq, Debug)]
pub enum Rule {
    /// By term frequency: how often the term stands in the document.
    Tf,
    /// By Robertson's BM25 in whole numbers, with k1 = 0.9 and b = 0.4.
    Bm25,
}

/// The weight of a posting: its term has `n` postings in a collection of `docs` documents with `total` terms in all,
/// and stands `tf` times in a document of `length` terms.
///
/// Under BM25 no weight is below 1. A collection of empty documents has a `total` of 1, so that there is an average
/// length.
pub fn weight_of(rule: Rule, docs: u32, total: u64, n: u32, tf: u32, length: u32) -> u64
    requires some_postings { 1 ≤ n }
    requires within_docs { n ≤ docs }
    requires docs_limit { docs ≤ 2 ^ 26 }
    requires some_total { 1 ≤ total }
    requires some_tf { 1 ≤ tf }
    requires tf_limit { tf < 2 ^ 31 }
    ensures value { result ≡ weight_of rule docs total n tf length }
    ensures positive { 1 ≤ result }
    ensures limit { result < 2 ^ 31 }
{
    match rule {
        Rule::Tf => u64::from(tf),
        Rule::Bm25 => saturated(idf(docs, n), tf, length_norm(docs, total, length)),
    }
}

/// BM25's weight of a posting whose term is so rare (`idf`) and stands `tf` times in a document that slows its
/// growth so far (`length_norm`). It is at least 1.
#[tactic(auto, using(crate::proofs::Limits::saturated_le))]
pub fn saturated(rare: u32, tf: u32, norm: u64) -> u64
    requires rare_limit { rare < 27 * 1024 }
    requires some_tf { 1 ≤ tf }
    requires tf_limit { tf < 2 ^ 31 }
    requires norm_limit { norm ≤ 2 ^ 63 }
    ensures value { result ≡ max 1 (saturated rare tf norm) }
    ensures limit { result < 2 ^ 31 }
{
    let tf = u64::from(tf);
    let gain = u64::from(rare) * GAIN * tf;
    let saturation = 1000 * tf + norm;
    (gain / saturation).max(1)
}

/// How rare a term with `n` postings is: 1,024 times the binary logarithm of (docs + 1) / n.
pub fn idf(docs: u32, n: u32) -> u32
    requires some_postings { 1 ≤ n }
    requires within_docs { n ≤ docs }
    requires docs_limit { docs ≤ 2 ^ 26 }
    ensures value { result ≡ idf docs n }
    ensures limit { result < 27 * 1024 }
{
    // The factor keeps ten binary places of the quotient, and the logarithm gives them back.
    lg(rarity(docs, n)) - 10 * 1024
}

/// 1,024 times (docs + 1) / n.
fn rarity(docs: u32, n: u32) -> u64
    requires { 1 ≤ n }
    ensures { result ≡ 1024 * (docs + 1) / n }
{
    1024 * (u64::from(docs) + 1) / u64::from(n)
}

/// How far a document's length slows the growth of a term's weight, in thousandths: 900 at the average length. It is
/// cut off at 2^63, from which on each weight is 1.
pub fn length_norm(docs: u32, total: u64, length: u32) -> u64
    requires some_total { 1 ≤ total }
    ensures value { result ≡ min (length_norm docs total length) (2 ^ 63) }
{
    let total = u128::from(total);
    let norm = (FLAT_PART * total + LENGTH_PART * u128::from(length) * u128::from(docs)) / total;
    norm.min(MOST_NORM) as u64
}
