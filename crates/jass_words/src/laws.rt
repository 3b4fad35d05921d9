//! Laws of the words. Each function does nothing: its contract is the law.

ghost use Rattle.std.specs.Prelude.{ℕ, ◌≡◌, ◌≤◌, List, length};
ghost use Rattle.std.specs.List.{AllByRecursion};
ghost use Rattle.jass_words.specs.Words.{CommandData, IsCommand, IsBegun};
ghost use Rattle.jass_base.specs.declared.limits.TheConstants.{LONGEST_TERM};
ghost use Rattle.jass_words.specs.declared.names.TheConstants.{NAMES};
ghost use Rattle.jass_words.specs.declared.word_limits.TheConstants.{LEAST_PARTS, LONGEST_TAG, MOST_BITS, MOST_BUDGETS, MOST_FINAL_TERMS};
ghost use Rattle.jass_words.specs.declared.word_limits.TheConstants.{MOST_PARTS, MOST_QUERIES, MOST_SEED, MOST_TAKEN};
ghost use Rattle.jass_words.specs.Table.{all_names};

/// Words are one command at most.
pub fn words_are_one_command()
    ensures { (words : List (List ℕ)) (command other : CommandData)
        → IsCommand words command → IsCommand words other → command ≡ other }
{}

/// No word of a command is longer than 65,535 bytes, so a longer one is the first bad word, or
/// one is bad before it.
pub fn a_command_has_short_words()
    ensures { (words : List (List ℕ)) → IsBegun words → AllByRecursion (λ word. length word ≤ LONGEST_TERM) words }
{}

/// The table's rows stand in the order of the help text.
pub fn the_rows_are()
    ensures { NAMES ≡ all_names }
{}

/// The limits of the words in numerals.
pub fn the_word_limits_are()
    ensures budgets { MOST_BUDGETS ≡ 16 }
    ensures least_parts { LEAST_PARTS ≡ 2 }
    ensures parts { MOST_PARTS ≡ 16 }
    ensures final_terms { MOST_FINAL_TERMS ≡ 64 }
    ensures bits { MOST_BITS ≡ 16 }
    ensures tag { LONGEST_TAG ≡ 64 }
    ensures seed { MOST_SEED ≡ 2147483647 }
    ensures queries { MOST_QUERIES ≡ 10000 }
    ensures taken { MOST_TAKEN ≡ 1073741824 }
{}
