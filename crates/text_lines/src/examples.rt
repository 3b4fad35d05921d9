//! The definition run on small texts: each clause is proved by computing both sides.

ghost use Rattle.std.specs.Prelude.{◌≡◌, [], ◌∷◌, codes};
ghost use Rattle.text_lines.specs.Lines.{lines_of};

/// Lines that end by LF, and one that doesn't.
#[tactic(auto, unfolding(crate::specs::Lines::lines_of))]
pub fn line_feeds()
    ensures one { lines_of (codes "ab") ≡ codes "ab" ∷ [] }
    ensures ended { lines_of (codes "ab\n") ≡ codes "ab" ∷ [] }
    ensures two { lines_of (codes "ab\nc") ≡ codes "ab" ∷ codes "c" ∷ [] }
    ensures empty { lines_of (codes "a\n\n\nb\n") ≡ codes "a" ∷ [] ∷ [] ∷ codes "b" ∷ [] }
    ensures feeds { lines_of (codes "\n\n") ≡ [] ∷ [] ∷ [] }
{}

/// One CR at a line's end is dropped, also at the end of the text, and no other.
#[tactic(auto, unfolding(crate::specs::Lines::lines_of))]
pub fn carriage_returns()
    ensures before { lines_of (codes "a\r\nb\r") ≡ codes "a" ∷ codes "b" ∷ [] }
    ensures alone { lines_of (codes "\r") ≡ [] ∷ [] }
    ensures two { lines_of (codes "a\r\r\n") ≡ codes "a\r" ∷ [] }
    ensures inside { lines_of (codes "a\rb\n\rc\n") ≡ codes "a\rb" ∷ codes "\rc" ∷ [] }
    ensures split { lines_of (codes "\n\r") ≡ [] ∷ [] ∷ [] }
{}
