ghost use Rattle.std.specs.Prelude.{◌≡◌, ◌≤◌, ◌<◌, ◌+◌, ◌*◌, ◌^◌, ◌++◌, ◌∷◌, [], length, All, IfOk, IfSome, OnErr, OnOk};
ghost use Rattle.std.specs.Vec.{vec_len, vec_capacity};
ghost use Rattle.index_file.specs.Parts.{heads_from, told};
ghost use Rattle.index_file.specs.Private.HeadWords.{IsWord, all_told, heads_of_words, unpacked};
ghost use Rattle.index_file.specs.Private.Tables.{head_at};

use crate::segment_head::{SegmentHead, head_of};
use jass_base::{NoMemory, Row};
use segment_codecs::Codec;
use std::alloc::Global;
use std::marker::Model;

/// The first word whose head stands aside.
const ASIDE: u32 = 0x8000_0000;

/// One above the greatest impact that a word has room for.
const IMPACTS: u16 = 1024;

/// One above the greatest count.
const COUNTS: u32 = 512;

/// One above the greatest size.
const SIZES: u32 = 1024;

/// By how much a word grows for one document more.
const DOCUMENT: u32 = 1024;

/// For one byte more.
const BYTE: u32 = 0x8_0000;

/// For the next codec.
const CODEC: u32 = 0x2000_0000;

/// The heads of all segments, in four bytes each where its numbers are small, as those of most are. Such a
/// word has the impact in its lowest ten bits, then the count in nine, the size in ten, and the number of
/// the codec in two. Any other word has its highest bit set, and the rest tells which of the heads aside
/// is meant.
#[derive(Drop)]
pub(crate) struct HeadTable {
    words: Vec<u32>,
    aside: Row<SegmentHead>,
}

impl Model for HeadTable {
    ghost use Rattle.std.specs.Prelude.{List, All, length};
    ghost use Rattle.index_layout.specs.Heads.{HeadData};
    ghost use Rattle.index_file.specs.Private.HeadWords.{IsWord, all_told, heads_of_words};

    ghost Value = { List HeadData };

    ghost view = { λ t. heads_of_words (all_told t.aside) t.words.items };

    ghost invariant = { λ t. All (IsWord (length t.aside)) t.words.items };
}

impl HeadTable {
    /// No head.
    pub(crate) fn new(alloc: Global) -> HeadTable
        ensures { result ≡ [] }
    {
        HeadTable {
            words: Vec::new(alloc),
            aside: Row::new(alloc),
        }
    }

    /// The number of heads.
    pub(crate) fn len(&self) -> usize
        ensures { result ≡ length self.now }
    {
        self.words.len()
    }

    /// The head with a number.
    #[inline(always)]
    pub(crate) fn at(&self, i: usize) -> SegmentHead
        requires { i < length self.now }
        ensures { told result ≡ head_at self.now i }
    {
        let word = self.words.as_slice()[i];
        if word < ASIDE {
            return unpacked(word);
        }
        // Field by field: as a whole it would go through memory, and so would the head of a word.
        let head = &self.aside.as_slice()[(word - ASIDE) as usize];
        SegmentHead {
            impact: head.impact,
            codec: head.codec,
            count: head.count,
            size: head.size,
        }
    }

    /// Puts so many heads that stand in some bytes from a place on behind the others.
    pub(crate) fn append(&mut self, bytes: &[u8], from: usize, count: u32) -> Result<(), NoMemory>
        requires { from + 11 * count ≤ length bytes.now }
        ensures { OnOk result (self.new ≡ self.old ++ heads_from bytes.now count from) }
    {
        match self.words.reserve(count as usize) {
            Ok(()) => append_words(&mut self.words, &mut self.aside, bytes, from, count),
            Err(_) => Err(NoMemory),
        }
    }
}

/// Appends the words of so many heads that stand in some bytes from a place on. There is room for them.
#[inline(always)]
fn append_words(
    words: &mut Vec<u32>,
    aside: &mut Row<SegmentHead>,
    bytes: &[u8],
    from: usize,
    count: u32,
) -> Result<(), NoMemory>
    requires place { from + 11 * count ≤ length bytes.now }
    requires room { vec_len words.old + count ≤ vec_capacity words.old }
    requires words { All (IsWord (length aside.old)) words.old.items }
    ensures heads { OnOk result (heads_of_words (all_told aside.new) words.new.items
        ≡ heads_of_words (all_told aside.old) words.old.items ++ heads_from bytes.now count from) }
    ensures words { All (IsWord (length aside.new)) words.new.items }
{
    'heads: for i in 0..count as usize {
        let head = head_of(bytes, from + 11 * i);
        let word = match packed(head) {
            Some(word) => word,
            None => put_aside(aside, head)?,
        };
        words.push_reserved(word);
    }
    Ok(())
}

/// Puts a head aside, and gives the word that tells it.
#[inline(never)]
fn put_aside(aside: &mut Row<SegmentHead>, head: SegmentHead) -> Result<u32, NoMemory>
    ensures word { IfOk result (λ word. word ≡ 2 ^ 31 + length aside.old) }
    ensures ok { OnOk result (aside.new ≡ aside.old ++ head ∷ []) }
    ensures err { OnErr result (aside.new ≡ aside.old) }
{
    let before = aside.len();
    if before >= ASIDE as usize {
        return Err(NoMemory);
    }
    match aside.push(head) {
        Ok(()) => Ok(ASIDE + before as u32),
        Err(_) => Err(NoMemory),
    }
}

/// The head that a word has in itself.
#[tactic(auto, unfolding(crate::specs::Private::HeadWords::unpacked))]
#[inline(always)]
fn unpacked(word: u32) -> SegmentHead
    requires { word < 2 ^ 31 }
    ensures { told result ≡ unpacked word }
{
    SegmentHead {
        impact: (word % DOCUMENT) as u16,
        codec: match Codec::from_number((word / CODEC) as u8) {
            Some(codec) => codec,
            None => Codec::Varbyte,
        },
        count: word / DOCUMENT % COUNTS,
        size: word / BYTE % SIZES,
    }
}

/// The word that has a head in itself, where its numbers are small.
#[inline(always)]
fn packed(head: SegmentHead) -> Option<u32>
    ensures word { IfSome result (λ word. unpacked word ≡ told head) }
    ensures small { IfSome result (λ word. word < 2 ^ 31) }
{
    if head.impact >= IMPACTS || head.count >= COUNTS || head.size >= SIZES {
        return None;
    }
    let codec = u32::from(head.codec.number());
    Some(u32::from(head.impact) + DOCUMENT * head.count + BYTE * head.size + CODEC * codec)
}
