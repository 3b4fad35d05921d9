// Lists of documents that the codecs are tried with, and what their calls ask for.

ghost use Rattle.std.specs.Prelude.{◌≡◌, ◌+◌, ◌≤◌, IsTrue, length, true};
ghost use Rattle.jass_base.specs.Gaps.{AreDocs};
ghost use Rattle.jass_base.specs.Codecs.{IsDocCount};

use jass_base::PayloadFault;

/// How many documents an index may have.
pub const MOST_DOCS: u32 = 67_108_864;

/// The documents `first`, `first + step` and so on.
pub fn rising(first: u32, step: u32) -> [u32; 256]
    requires first { first ≤ 2 }
    requires step { step ≤ 5 }
{
    let mut docs = [0u32; 256];
    for i in 0..256 {
        docs[i] = first + step * i as u32;
    }
    docs
}

/// The documents from 0 on, but in place of document 128 the last that may be.
pub fn to_the_last() -> [u32; 256] {
    let mut docs = rising(0, 1);
    docs[128] = MOST_DOCS - 1;
    docs
}

/// The documents from one place on to another.
pub fn part(docs: &[u32; 256], from: usize, to: usize) -> &[u32]
    requires from { from ≤ to }
    requires to { to ≤ 256 }
{
    &docs[from..to]
}

pub fn are_docs(docs: &[u32], d: u32) -> bool
    ensures docs { IsTrue result → AreDocs d docs.now }
    ensures few { IsTrue result → length docs.now ≤ d }
{
    if docs.is_empty() || d > MOST_DOCS {
        return false;
    }
    let mut least = 0;
    for doc in docs {
        if *doc < least || *doc >= d {
            return false;
        }
        least = *doc + 1;
    }
    true
}

/// Whether a payload may have so many documents.
pub fn is_count(count: u32, d: u32) -> bool
    ensures { IsTrue result → IsDocCount count d }
{
    0 < count && count <= d && d <= MOST_DOCS
}

/// Whether a list goes on with some documents of a block, at least one.
pub fn goes_on(docs: &[u32], at: usize, block: &[u32; 128], count: usize) -> bool
    ensures some { result ≡ true → 1 ≤ count }
    ensures within { result ≡ true → at + count ≤ length docs.now }
{
    at <= docs.len()
        && 0 < count
        && count <= 128
        && count <= docs.len() - at
        && docs[at..at + count] == block[..count]
}

/// Bytes, how many documents below which one they are to have, and what a check says.
pub type Judged<'a> = (&'a [u8], u32, u32, Result<(), PayloadFault>);
