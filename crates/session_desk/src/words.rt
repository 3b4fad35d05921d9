ghost use Rattle.std.specs.Prelude.{◌≡◌, ◌≤◌, ◌<◌, false, true, IsTrue, length, slice_index};
ghost use Rattle.std.specs.Str.{IsCharBoundary};
ghost use Rattle.query_reader.specs.Slices.{BeginsWithout, FindsRun};
ghost use Rattle.query_reader.specs.Texts.{is_blank, blank_runs};

use memchr::memchr2;

/// The first word of a text, and the text behind it. Spaces and tabs divide words.
pub fn next_word(text: &str) -> Option<(&str, &str)>
    ensures { FindsRun text.now result }
{
    let text = without_blanks(text);
    if text.is_empty() {
        return None;
    }
    let end = memchr2(b' ', b'\t', text.as_bytes()).unwrap_or(text.len());
    Some(text.split_at(end))
}

/// A text without the blanks that it begins with.
fn without_blanks(text: &str) -> &str
    ensures runs { blank_runs result.now ≡ blank_runs text.now }
    ensures begins { BeginsWithout is_blank result.now }
    ensures within { length result.now ≤ length text.now }
{
    let mut rest = text;
    while begins_with_blank(rest) {
        rest = &rest[1..];
    }
    rest
}

/// Whether a text begins with a space or a tab.
fn begins_with_blank(text: &str) -> bool
    ensures some { IsTrue result → 0 < length text.now }
    ensures blank { IsTrue result → is_blank (slice_index text.now 0) ≡ true }
    ensures behind { IsTrue result → IsCharBoundary text.now 1 }
    ensures other { result ≡ false → BeginsWithout is_blank text.now }
{
    match text.as_bytes().first() {
        Some(byte) => *byte == b' ' || *byte == b'\t',
        None => false,
    }
}
