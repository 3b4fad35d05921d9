//! Laws of queries. Each function does nothing: its contract is the law.

ghost use Rattle.std.specs.Prelude.{ℕ, ◌≡◌, List, Ok};
ghost use Rattle.query_reader.specs.declared.mode.Mode.{Mode};
ghost use Rattle.query_reader.specs.Mentions.{Mention};
ghost use Rattle.query_reader.specs.Queries.{QueryData, IsQuery, IsQueryLine, IsQueryFile};
ghost use Rattle.query_reader.specs.Reading.{read_mentions, read_line, read_query_file};

/// Mentions are read exactly where they are a query, and as that query.
pub fn queries_are_read()
    ensures read { (terms : List (List ℕ)) (id : List ℕ) (mentions : List Mention) (query : QueryData) →
        read_mentions terms id mentions ≡ Ok query → IsQuery terms mentions query }
    ensures only { (terms : List (List ℕ)) (mentions : List Mention) (query : QueryData) →
        IsQuery terms mentions query → read_mentions terms query.id mentions ≡ Ok query }
{}

/// A line is read exactly where it is a query, and as that query.
pub fn query_lines_are_read()
    ensures read { (mode : Mode) (terms : List (List ℕ)) (line : List ℕ) (query : QueryData) →
        read_line mode terms line ≡ Ok query → IsQueryLine mode terms line query }
    ensures only { (mode : Mode) (terms : List (List ℕ)) (line : List ℕ) (query : QueryData) →
        IsQueryLine mode terms line query → read_line mode terms line ≡ Ok query }
{}

/// A file is read exactly where it holds queries, and as those.
pub fn query_files_are_read()
    ensures read { (bytes : List ℕ) (mode : Mode) (terms : List (List ℕ)) (queries : List QueryData) →
        read_query_file bytes mode terms ≡ Ok queries → IsQueryFile bytes mode terms queries }
    ensures only { (bytes : List ℕ) (mode : Mode) (terms : List (List ℕ)) (queries : List QueryData) →
        IsQueryFile bytes mode terms queries → read_query_file bytes mode terms ≡ Ok queries }
{}
