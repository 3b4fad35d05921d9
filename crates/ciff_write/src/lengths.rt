//! The lengths of spellings.

ghost use Rattle.std.specs.Prelude.{ℕ, ◌≡◌, ◌+◌, ◌≤◌, ◌<◌, ◌^◌, ◌++◌, length};
ghost use Rattle.std.specs.List.Sorted.{IsStrictlyIncreasing};
ghost use Rattle.jass_base.specs.Postings.{docs_of};
ghost use Rattle.jass_base.specs.Wire.{short_varint};
ghost use Rattle.jass_base.specs.CiffText.{number_spelling, text_spelling, postings_spelling};

use jass_base::Posting;

/// The bytes of the shortest varint of a number.
pub fn varint_len(value: u64) -> u8
    ensures len { result ≡ length (short_varint value) }
    ensures few { result ≤ 10 }
{
    let mut left = value;
    let mut len = 1;
    'groups: while left >= 128 {
        left /= 128;
        len += 1;
    }
    len
}

/// The bytes of the field of a number, which has a number below 16.
pub fn number_len(value: u64) -> u8
    ensures len { (field : ℕ) → field < 16 → result ≡ length (number_spelling field value) }
    ensures few { result ≤ 11 }
{
    if value == 0 { 0 } else { 1 + varint_len(value) }
}

/// The bytes of the field of a text, which has a number below 16.
pub fn text_len(text: &str) -> u64
    ensures len { (field : ℕ) → field < 15 → result ≡ length (text_spelling field text.now) }
    ensures few { result ≤ 11 + length text.now }
{
    if text.is_empty() {
        return 0;
    }
    let len = text.len() as u64;
    1 + u64::from(varint_len(len)) + len
}

/// The bytes of a posting's body, by its gap. Nearly all gaps have one to three bytes, and
/// nearly all tf one.
#[inline(always)]
pub fn posting_len(gap: u32, tf: u32) -> u8
    ensures len { result ≡ length (number_spelling 1 gap ++ number_spelling 2 tf) }
    ensures few { result ≤ 22 }
{
    if gap == 0 || gap >= 2_097_152 || tf == 0 || tf >= 128 {
        return any_posting_len(gap, tf);
    }
    4 + u8::from(gap >= 128) + u8::from(gap >= 16_384)
}

/// The bytes of a posting's body of any numbers.
pub fn any_posting_len(gap: u32, tf: u32) -> u8
    ensures len { result ≡ length (number_spelling 1 gap ++ number_spelling 2 tf) }
    ensures few { result ≤ 22 }
{
    number_len(u64::from(gap)) + number_len(u64::from(tf))
}

/// The bytes of the fields of postings.
pub fn postings_len(postings: &[Posting]) -> u64
    requires few { length postings.now ≤ 2 ^ 32 }
    requires rising { IsStrictlyIncreasing (docs_of postings.now) }
    ensures len { result ≡ length (postings_spelling 0 postings.now) }
    ensures few { result ≤ 2 ^ 40 }
{
    let mut last = 0;
    let mut len = 0;
    for posting in postings {
        len += 2 + u64::from(posting_len(posting.doc - last, posting.tf));
        last = posting.doc;
    }
    len
}
