//! Postings in four bytes each, which are kept so that their list needn't be read again.

ghost use Rattle.std.specs.Prelude.{◌≡◌, ◌≤◌, ◌⊎◌, [], length, map, All, IfSome, IsTrue, false, true};
ghost use Rattle.std.specs.List.Sorted.{IsStrictlyIncreasing};
ghost use Rattle.jass_base.specs.Postings.{docs_of};
ghost use Rattle.jass_base.specs.declared.posting.Posting.{Posting};
ghost use Rattle.index_import.specs.Private.KeptPostings.{HasWord, posting_in, postings_in, words_in};
ghost use Rattle.index_import.specs.declared.kept_postings.TheConstants.{FEW};

use arrayvec::ArrayVec;
use impact_segments::PostingsByPlace;
use jass_base::Posting;
use std::alloc::Global;

/// So many postings take no memory of their own.
const FEW: usize = 4;

/// A word has room for documents below it.
const DOC_LIMIT: u32 = 1 << 21;

/// A word has room for frequencies below it.
const TF_LIMIT: u32 = 1 << 11;

/// Postings in a word each: the document in the upper 21 bits, and how often the term stands in it
/// in the lower 11.
#[derive(Debug, Drop)]
pub(crate) enum KeptPostings {
    Few(ArrayVec<u32, FEW>),
    Many(Vec<u32>),
}

impl KeptPostings {
    /// No postings.
    fn none() -> KeptPostings
        ensures { postings_in result ≡ [] }
    {
        KeptPostings::Few(ArrayVec::new())
    }

    /// The postings of a list whose term stands at most `most` times in a document; none where they
    /// are more than four and than there is room for, where the last document or `most` is too great
    /// for a word, or where memory is refused.
    pub fn new(alloc: Global, postings: &[Posting], most: u32, room: usize) -> KeptPostings
        requires rising { IsStrictlyIncreasing (docs_of postings.now) }
        requires most { All (λ (p : Posting). p.tf ≤ most) postings.now }
        ensures { (postings_in result ≡ []) ⊎ (postings_in result ≡ postings.now) }
    {
        if !have_words(postings, most) {
            return KeptPostings::none();
        }
        if postings.len() <= FEW {
            return KeptPostings::Few(few_words(postings));
        }
        if postings.len() > room {
            return KeptPostings::none();
        }
        match many_words(alloc, postings) {
            Some(words) => KeptPostings::Many(words),
            None => KeptPostings::none(),
        }
    }

    /// Whether these are no postings.
    pub fn is_empty(&self) -> bool
        ensures none { result ≡ true → postings_in self.now ≡ [] }
        ensures some { result ≡ false → 1 ≤ length (postings_in self.now) }
    {
        self.words().is_empty()
    }

    /// The postings, each by its place.
    pub fn by_place(&self) -> KeptWords<'_>
        ensures { map posting_in result.words.now ≡ postings_in self.now }
    {
        KeptWords {
            words: self.words(),
        }
    }

    /// A word for each posting.
    fn words(&self) -> &[u32]
        ensures { result.now ≡ words_in self.now }
    {
        match self {
            KeptPostings::Few(words) => words.as_slice(),
            KeptPostings::Many(words) => words.as_slice(),
        }
    }
}

/// The words of postings that were kept.
#[derive(Clone, Copy)]
pub(crate) struct KeptWords<'a> {
    pub words: &'a [u32],
}

impl<'a> PostingsByPlace for KeptWords<'a> {
    ghost postings = { λ kept. map posting_in kept.words.now };

    fn count(&self) -> usize {
        self.words.len()
    }

    #[inline(always)]
    fn posting(&self, place: usize) -> Posting {
        posting_in(self.words[place])
    }
}

/// Whether the last document, which is the greatest, and `most` are small enough for a word. Then there
/// is one for each posting.
fn have_words(postings: &[Posting], most: u32) -> bool
    requires rising { IsStrictlyIncreasing (docs_of postings.now) }
    requires most { All (λ (p : Posting). p.tf ≤ most) postings.now }
    ensures { IsTrue result → All HasWord postings.now }
{
    match postings.last() {
        Some(last) => last.doc < DOC_LIMIT && most < TF_LIMIT,
        None => true,
    }
}

/// The words of postings that are few.
fn few_words(postings: &[Posting]) -> ArrayVec<u32, FEW>
    requires few { length postings.now ≤ FEW }
    requires words { All HasWord postings.now }
    ensures { map posting_in result.items ≡ postings.now }
{
    let mut words = ArrayVec::new();
    for posting in postings {
        words.push(word_of(*posting));
    }
    words
}

/// The words of postings, in memory of their own.
fn many_words(alloc: Global, postings: &[Posting]) -> Option<Vec<u32>>
    requires { All HasWord postings.now }
    ensures { IfSome result (λ words. map posting_in words.items ≡ postings.now) }
{
    let mut words = match Vec::with_capacity(alloc, postings.len()) {
        Ok(words) => words,
        Err(_) => return None,
    };
    for posting in postings {
        words.push_reserved(word_of(*posting));
    }
    Some(words)
}

/// The word of a posting that has one.
#[inline(always)]
fn word_of(posting: Posting) -> u32
    requires { HasWord posting }
    ensures { posting_in result ≡ posting }
{
    posting.doc * TF_LIMIT + posting.tf
}

/// The posting of a word.
#[inline(always)]
fn posting_in(word: u32) -> Posting
    ensures { result ≡ posting_in word }
{
    Posting {
        doc: word / TF_LIMIT,
        tf: word % TF_LIMIT,
    }
}
