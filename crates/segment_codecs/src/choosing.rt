ghost use Rattle.std.specs.Prelude.{◌≡◌, ◌≤◌, ◌<◌};
ghost use Rattle.jass_base.specs.Gaps.{AreDocs};
ghost use Rattle.segment_codecs.specs.Codecs.{chosen_codec, payload_size, shorter, without_words};
ghost use Rattle.segment_codecs.specs.declared.codec.Codec.{Codec};

use crate::codec::Codec;
use crate::payloads::length;

/// How many documents a packed block has.
const BLOCK: usize = 128;

/// How many bytes a word of Simple-8b has.
pub(crate) const WORD: u64 = 8;

/// The codec whose payload of the documents is the shortest, in an index of `d` documents. Of equal
/// ones it is the one with the lowest number.
pub fn choose(docs: &[u32], d: u32) -> Codec
    requires { AreDocs d docs.now }
    ensures { result ≡ chosen_codec d docs.now }
{
    shortest(docs, d).codec
}

/// A codec, and how many bytes the payload has in it.
#[derive(Clone, Copy)]
pub struct Choice {
    pub codec: Codec,
    pub size: u64,
}

/// The codec that `choose` gives, with the length of its payload, which needs no second pass over
/// the documents. A codec that can't be shorter isn't tried.
pub fn shortest(docs: &[u32], d: u32) -> Choice
    requires { AreDocs d docs.now }
    ensures codec { result.codec ≡ chosen_codec d docs.now }
    ensures size { result.size ≡ payload_size d docs.now (chosen_codec d docs.now) }
{
    let best = shortest_without_words(docs, d);
    if best.size <= WORD {
        return best;
    }
    match codec_simple8::length_below(docs, d, best.size) {
        Some(size) => Choice {
            codec: Codec::Simple8,
            size,
        },
        None => best,
    }
}

/// The shortest of the payloads that aren't of words.
fn shortest_without_words(docs: &[u32], d: u32) -> Choice
    requires { AreDocs d docs.now }
    ensures codec { result.codec ≡ without_words d docs.now }
    ensures size { result.size ≡ payload_size d docs.now result.codec }
{
    shorter_gaps(docs, d).or_shorter(Choice::new(Codec::Bitmap, docs, d))
}

/// The shorter of the two payloads of gaps. Without a full block they are the same.
#[tactic(auto, using(crate::proofs::Sizes::packed_same))]
fn shorter_gaps(docs: &[u32], d: u32) -> Choice
    requires { AreDocs d docs.now }
    ensures codec { result.codec ≡ shorter d docs.now Codec.Varbyte Codec.Packed }
    ensures size { result.size ≡ payload_size d docs.now result.codec }
{
    let varbyte = Choice::new(Codec::Varbyte, docs, d);
    if docs.len() < BLOCK {
        return varbyte;
    }
    varbyte.or_shorter(Choice::new(Codec::Packed, docs, d))
}

impl Choice {
    fn new(codec: Codec, docs: &[u32], d: u32) -> Choice
        requires { AreDocs d docs.now }
        ensures codec { result.codec ≡ codec }
        ensures size { result.size ≡ payload_size d docs.now codec }
    {
        Choice {
            codec,
            size: length(codec, docs, d),
        }
    }

    /// The later one only where it is shorter.
    fn or_shorter(self, later: Choice) -> Choice
        ensures first { self.size ≤ later.size → result ≡ self }
        ensures later { later.size < self.size → result ≡ later }
    {
        if later.size < self.size { later } else { self }
    }
}
