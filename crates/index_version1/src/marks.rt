//! Which documents a term has already: a document is marked by a number that the term alone has, so
//! that nothing is cleared between terms.

ghost use Rattle.std.specs.Prelude.{ℕ, ◌≡◌, ◌==◌, ◌<◌, ◌≤◌, ◌++◌, List, length, All, slice_index};
ghost use Rattle.std.specs.List.{list_any};
ghost use Rattle.index_version1.specs.Private.Tables.{Marks};

/// Whether one of the documents is marked.
pub fn has_marked(seen: &[u32], mark: u32, docs: &[u32]) -> bool
    requires { All (λ doc. doc < length seen.now) docs.now }
    ensures { result ≡ list_any (λ doc. slice_index seen.now doc == mark) docs.now }
{
    for doc in docs {
        if seen[*doc as usize] == mark {
            return true;
        }
    }
    false
}

/// Marks the documents.
pub fn mark_all(seen: &mut [u32], mark: u32, docs: &[u32])
    requires { All (λ doc. doc < length seen.old) docs.now }
    ensures marks { (earlier : List ℕ) → Marks seen.old mark earlier → Marks seen.new mark (earlier ++ docs.now) }
    ensures most { (most : ℕ) → All (λ n. n ≤ most) seen.old → mark ≤ most → All (λ n. n ≤ most) seen.new }
{
    for doc in docs {
        seen[*doc as usize] = mark;
    }
}
