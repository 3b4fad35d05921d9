//! The texts of small answers, byte by byte.

ghost use Rattle.std.specs.Prelude.{◌≡◌, [], ◌∷◌, codes};
ghost use Rattle.ranking_model.specs.Flat.{numbered};
ghost use Rattle.ranking_model.specs.Report.{report_line, run_lines};
ghost use Rattle.ranking_model.specs.Scores.{top_k};
ghost use Rattle.ranking_model.specs.Search.{search_run, IsSearchReports};
ghost use Rattle.ranking_model.specs.Examples.{report, pets, falling_names, pet_names, a_once, cat_dog, two_queries};

use jass_base::{Budget, Grade};

/// The report line in its three grades, and with a mention of an unknown term.
pub fn report_lines()
    ensures all { report_line (codes "q") (report 3 3 3 1 0 0 Grade.Final) 0
        ≡ codes "q postings 3 segments 3 of 3 cutoff 1 next 0 bound 0 unknown 0 final\n" }
    ensures unknown { report_line (codes "q") (report 3 3 3 1 0 0 Grade.Final) 1
        ≡ codes "q postings 3 segments 3 of 3 cutoff 1 next 0 bound 0 unknown 1 final\n" }
    ensures open { report_line (codes "q") (report 3 3 4 2 1 1 Grade.Open) 0
        ≡ codes "q postings 3 segments 3 of 4 cutoff 2 next 1 bound 1 unknown 0 open\n" }
    ensures nothing { report_line (codes "q") (report 0 0 4 0 3 6 Grade.Open) 0
        ≡ codes "q postings 0 segments 0 of 4 cutoff 0 next 3 bound 6 unknown 0 open\n" }
    ensures set { report_line (codes "q") (report 2 2 3 2 1 1 Grade.Set) 0
        ≡ codes "q postings 2 segments 2 of 3 cutoff 2 next 1 bound 1 unknown 0 set\n" }
{}

/// The run lines of `a`, and of `cat dog` with 4 postings. Nothing scored has no lines.
#[tactic(auto, unfolding(crate::specs::Plan::plan_of))]
pub fn lines_of_answers()
    ensures a { run_lines falling_names (codes "q") (codes "jass") 1 (top_k 3 a_once 3)
        ≡ codes "q Q0 d0 1 9 jass\nq Q0 d1 2 5 jass\nq Q0 d2 3 1 jass\n" }
    ensures cat_dog { run_lines pet_names (codes "q") (codes "jass") 1 (top_k 3 cat_dog 4)
        ≡ codes "q Q0 d0 1 3 jass\nq Q0 d2 2 3 jass\nq Q0 d1 3 2 jass\n" }
    ensures nothing { run_lines pet_names (codes "q") (codes "jass") 1 (top_k 0 cat_dog 4) ≡ [] }
{}

/// A search of `cat dog` and of a word that no document has, for two hits, at a budget of 2
/// postings and then of all: the run, and the report lines.
#[tactic(auto, unfolding(crate::specs::Plan::plan_of))]
pub fn a_search_of_two_queries()
    ensures run { search_run pet_names (numbered pets) two_queries 2 (Budget.Postings 2 ∷ Budget.All ∷ [])
        (codes "jass")
        ≡ codes "301 Q0 d0 1 3 jass.1\n301 Q0 d2 2 3 jass.1\n301 Q0 d0 1 3 jass.2\n301 Q0 d1 2 3 jass.2\n" }
    ensures reports { IsSearchReports pet_names (numbered pets) two_queries 2 (Budget.Postings 2 ∷ Budget.All ∷ [])
        (codes "301 postings 2 segments 2 of 4 cutoff 3 next 2 bound 3 unknown 0 open\n301 postings 5 segments 4 of 4 cutoff 1 next 0 bound 0 unknown 0 final\n302 postings 0 segments 0 of 0 cutoff 0 next 0 bound 0 unknown 1 final\n302 postings 0 segments 0 of 0 cutoff 0 next 0 bound 0 unknown 1 final\n") }
{}
