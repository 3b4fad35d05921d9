//! Laws of lines. Each function does nothing: its contract is the law.

ghost use Rattle.std.specs.Prelude.{ℕ, ◌≡◌, ◌≢◌, ◌≤◌, List, [], ◌∷◌, ◌++◌, length, All};
ghost use Rattle.std.specs.Str.Lines.{strip_carriage_return};
ghost use Rattle.text_lines.specs.Lines.{lines_of};

/// The bytes before an LF are a line, and so are those behind the last LF where there are any.
pub fn lines_end_by_line_feeds()
    ensures none { lines_of [] ≡ [] }
    ensures more { (line rest : List ℕ) → All (λ b. b ≢ 10) line →
        lines_of (line ++ 10 ∷ rest) ≡ strip_carriage_return line ∷ lines_of rest }
    ensures last { (line : List ℕ) → All (λ b. b ≢ 10) line → line ≢ [] →
        lines_of line ≡ strip_carriage_return line ∷ [] }
{}

/// A text has no more lines than bytes.
pub fn lines_are_few()
    ensures { (text : List ℕ) → length (lines_of text) ≤ length text }
{}
