//! What a text stands for as a run. Each function does nothing: its contract is the law.

ghost use Rattle.std.specs.Prelude.{◌≡◌, ℕ, List, Ok};
ghost use Rattle.trec_run.specs.declared.run_line.RunLine.{RunLine};
ghost use Rattle.trec_run.specs.Runs.{IsRunLine, IsRun, read_line, run_of};

/// A line is read as what it stands for, and as nothing else.
pub fn lines_are_read()
    ensures line { (line : List ℕ) (run : RunLine) → IsRunLine line run → read_line line ≡ Ok run }
    ensures only { (line : List ℕ) (run : RunLine) → read_line line ≡ Ok run → IsRunLine line run }
{}

/// A text is read as the run that it stands for, and as no other.
pub fn runs_are_read()
    ensures run { (text : List ℕ) (runs : List RunLine) → IsRun text runs → run_of text ≡ Ok runs }
    ensures only { (text : List ℕ) (runs : List RunLine) → run_of text ≡ Ok runs → IsRun text runs }
{}
