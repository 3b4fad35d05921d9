//! Laws of lines that are taken piece by piece. Each function does nothing: its contract is the law.

ghost use Rattle.std.specs.Prelude.{ℕ, ◌≡◌, ◌≢◌, ◌+◌, ◌<◌, ◌≤◌, List, [], ◌∷◌, ◌++◌, length, true, false, All, Option};
ghost use Rattle.std.specs.Str.Lines.{strip_carriage_return};
ghost use Rattle.text_lines.specs.Lines.{lines_of};
ghost use Rattle.feed_lines.specs.Lines.{Holds, IsFirstLine, Passed, PassesLine, ended_lines};
ghost use Rattle.feed_lines.specs.Waiting.{EndsFirst, Takes, TakesNothing, Waiting, nothing_yet};

use text_lines::laws::lines_end_by_line_feeds;

/// The lines that end by LF, one by one; a text without LF has none.
pub fn lines_that_end_by_line_feeds()
    ensures none { (text : List ℕ) → All (λ b. b ≢ 10) text → ended_lines text ≡ [] }
    ensures more { (line rest : List ℕ) → All (λ b. b ≢ 10) line →
        ended_lines (line ++ 10 ∷ rest) ≡ strip_carriage_return line ∷ ended_lines rest }
{}

/// A line that has lost bytes is still longer than 1,048,576 bytes without its CR.
pub fn a_line_loses_one_byte()
    ensures { (line : List ℕ) → length line ≤ length (strip_carriage_return line) + 1 }
{}

/// Which lines were passed of the bytes that were taken: none at first, as many as before when bytes are taken, and one
/// more by each that is passed.
pub fn lines_are_passed()
    ensures none { Passed [] [] [] }
    ensures taken { (taken : List ℕ) (passed : List (List ℕ)) (pending piece : List ℕ) → Passed taken passed pending →
        Passed (taken ++ piece) passed (pending ++ piece) }
    ensures line { (taken : List ℕ) (passed : List (List ℕ)) (pending line rest : List ℕ) →
        Passed taken passed pending → IsFirstLine pending line rest →
        Passed taken (passed ++ strip_carriage_return line ∷ []) rest }
    ensures ended { (taken : List ℕ) (passed : List (List ℕ)) (pending : List ℕ) → Passed taken passed pending →
        All (λ b. b ≢ 10) pending → ended_lines taken ≡ passed }
    ensures all { (taken : List ℕ) (passed : List (List ℕ)) (pending : List ℕ) → Passed taken passed pending →
        lines_of taken ≡ passed ++ lines_of pending }
{
    lines_end_by_line_feeds();
}

/// What waits is what is pending, or the end of it where the line is too long.
pub fn pending_bytes_wait()
    ensures none { (limit : ℕ) → Holds (nothing_yet limit) [] }
    ensures taken { (before after : Option (List ℕ)) (old new : Waiting) (pending : List ℕ)
        (takes : Takes before after old new) → Holds old pending → All (λ b. b ≢ 10) old.bytes →
        Holds new (pending ++ takes.taken) }
    ensures stays { (before after : Option (List ℕ)) (old new : Waiting) (pending : List ℕ) →
        TakesNothing before after old new → Holds old pending → All (λ b. b ≢ 10) old.bytes → Holds new pending }
    ensures line { (w : Waiting) (pending : List ℕ) (end : ℕ) → Holds w pending → EndsFirst w.bytes end →
        PassesLine w pending end }
    ensures free { (w : Waiting) (pending : List ℕ) → Holds w pending → All (λ b. b ≢ 10) w.bytes →
        All (λ b. b ≢ 10) pending }
    ensures whole { (w : Waiting) (pending : List ℕ) → Holds w pending → w.long ≡ false → pending ≡ w.bytes }
    ensures long { (w : Waiting) (pending : List ℕ) → Holds w pending → w.long ≡ true → 1048577 < length pending }
{}
