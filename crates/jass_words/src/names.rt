ghost use Rattle.std.specs.Prelude.{◌≡◌, ◌≢◌, ◌≤◌, ◌+◌, IfSome, None, length};
ghost use Rattle.jass_words.specs.declared.names.Name.{Name};
ghost use Rattle.jass_words.specs.Table.{word_of, form_of, does_of};

/// A command's name.
#[derive(Clone, Copy)]
pub enum Name {
    Once,
    Rewrite,
    Import,
    Check,
    Export,
    Migrate,
    Search,
    Shards,
    Exhaust,
    Audit,
    Serve,
    Trial,
    Help,
    Version,
}

/// The commands, in the order of the help text.
pub const NAMES: [Name; 14] = [
    Name::Once,
    Name::Rewrite,
    Name::Import,
    Name::Check,
    Name::Export,
    Name::Migrate,
    Name::Search,
    Name::Shards,
    Name::Exhaust,
    Name::Audit,
    Name::Serve,
    Name::Trial,
    Name::Help,
    Name::Version,
];

/// A row of the table of commands.
#[derive(Clone, Copy)]
pub struct Row {
    /// The first word.
    pub word: &'static str,
    /// The words behind it, as they are shown, with a `*` behind the file that is written; empty
    /// where there are none.
    pub form: &'static str,
    /// What it does.
    pub does: &'static str,
}

impl Name {
    /// The row of this command. A line holds it.
    pub fn row(self) -> Row
        ensures word { result.word.now ≡ word_of self }
        ensures form { result.form.now ≡ form_of self }
        ensures does { result.does.now ≡ does_of self }
        ensures short { length result.word.now + length result.form.now + length result.does.now ≤ 1000 }
    {
        match self {
            Name::Once => Row {
                word: "once",
                form: "CIFF K BUDGET TERM..",
                does: "answer a query over a CIFF file",
            },
            Name::Rewrite => Row {
                word: "rewrite",
                form: "FROM TO*",
                does: "write a CIFF file in the canonical spelling",
            },
            Name::Import => Row {
                word: "import",
                form: "CIFF INDEX* [weights=tf|bm25] [bits=raw|1..16]",
                does: "make an index file of a CIFF file",
            },
            Name::Check => Row {
                word: "check",
                form: "INDEX",
                does: "check an index file, and print its totals",
            },
            Name::Export => Row {
                word: "export",
                form: "INDEX CIFF*",
                does: "write a CIFF file with the impacts as frequencies",
            },
            Name::Migrate => Row {
                word: "migrate",
                form: "OLD NEW*",
                does: "write an index file of version 1 in version 2",
            },
            Name::Search => Row {
                word: "search",
                form: "INDEX QUERIES RUN* [k=K] [budget=B,..] [tag=TAG] [mode=plain|folded] [until=budget|final]",
                does: "answer the queries of a file",
            },
            Name::Shards => Row {
                word: "shards",
                form: "N INDEX1 .. INDEXN QUERIES RUN* [k=K] [budget=B,..] [tag=TAG] [mode=plain|folded]",
                does: "answer them over the parts of a collection as over one index",
            },
            Name::Exhaust => Row {
                word: "exhaust",
                form: "INDEX QUERIES RUN* [k=K] [tag=TAG] [mode=plain|folded]",
                does: "answer them by all postings, one document after the other",
            },
            Name::Audit => Row {
                word: "audit",
                form: "INDEX QUERIES RUN REPORTS [k=K] [budget=B,..] [tag=TAG] [mode=plain|folded]",
                does: "say whether a run and its reports are those of the search",
            },
            Name::Serve => Row {
                word: "serve",
                form: "INDEX frames=N",
                does: "answer the lines of the input at a desk over an index file",
            },
            Name::Trial => Row {
                word: "trial",
                form: "SEED DOCS TERMS QUERIES",
                does: "answer queries over a collection made from a seed, and print a summary",
            },
            Name::Help => Row {
                word: "--help",
                form: "",
                does: "print this text",
            },
            Name::Version => Row {
                word: "--version",
                form: "",
                does: "print the name and the version",
            },
        }
    }

    /// The command with a first word.
    pub fn of(word: &str) -> Option<Name>
        ensures some { IfSome result (λ name. word.now ≡ word_of name) }
        ensures none { result ≡ None → (name : Name) → word.now ≢ word_of name }
    {
        for name in NAMES {
            if name.row().word == word {
                return Some(name);
            }
        }
        None
    }
}
