ghost use Rattle.std.specs.Prelude.{ℕ, ◌≡◌, ◌≢◌, ◌<◌, ◌≤◌, true, false, [], ◌∷◌, length, slice_index, MatchOption};
ghost use Rattle.trec_run.specs.Runs.{is_blank, columns_of};
ghost use Rattle.trec_run.specs.Private.Parts.{and_column};

/// The columns of a run line.
#[derive(Clone, Copy)]
pub struct Six<'a> {
    pub id: &'a str,
    pub mark: &'a str,
    pub name: &'a str,
    pub rank: &'a str,
    pub score: &'a str,
    pub tag: &'a str,
}

/// The columns of a line that has six of them.
pub fn six_columns(line: &str) -> Option<Six<'_>>
    ensures { MatchOption result (length (columns_of line.now) ≢ 6)
        (λ six. columns_of line.now
        ≡ six.id.now ∷ six.mark.now ∷ six.name.now ∷ six.rank.now ∷ six.score.now ∷ six.tag.now ∷ []) }
{
    let (id, line) = next_column(line)?;
    let (mark, line) = next_column(line)?;
    let (name, line) = next_column(line)?;
    let (rank, line) = next_column(line)?;
    let (score, line) = next_column(line)?;
    let (tag, line) = next_column(line)?;
    match next_column(line) {
        Some(_) => None,
        None => Some(Six {
            id,
            mark,
            name,
            rank,
            score,
            tag,
        }),
    }
}

/// The first column and what follows it.
fn next_column(text: &str) -> Option<(&str, &str)>
    ensures { MatchOption result (columns_of text.now ≡ [])
        (λ next. columns_of text.now ≡ next.0.now ∷ columns_of next.1.now) }
{
    let mut rest = text;
    while !rest.is_empty() {
        let (part, behind) = next_part(rest);
        if !part.is_empty() {
            return Some((part, behind));
        }
        rest = behind;
    }
    None
}

/// What stands before the first blank, and behind it.
fn next_part(text: &str) -> (&str, &str)
    requires { 0 < length text.now }
    ensures columns { columns_of text.now ≡ and_column result.0.now (columns_of result.1.now) }
    ensures shorter { length result.1.now < length text.now }
{
    let end = first_blank(text.as_bytes());
    if end < text.len() {
        (&text[..end], &text[end + 1..])
    } else {
        (text, "")
    }
}

/// The place of the first blank, or the end.
fn first_blank(text: &[u8]) -> usize
    ensures within { result ≤ length text.now }
    ensures none { (i : ℕ) → i < result → is_blank (slice_index text.now i) ≡ false }
    ensures blank { result < length text.now → is_blank (slice_index text.now result) ≡ true }
{
    let mut at = 0;
    while at < text.len() && text[at] != b' ' && text[at] != b'\t' {
        at += 1;
    }
    at
}
