ghost use Rattle.std.specs.Prelude.{◌≢◌, ◌≤◌, length};
ghost use Rattle.jass_base.specs.declared.limits.TheConstants.{MOST_FRAMES, MOST_HITS, MOST_TERM_WORDS};
ghost use Rattle.weights.specs.Quantizing.{IsImpactWidth};
ghost use Rattle.jass_words.specs.Options.{IsTag};
ghost use Rattle.jass_words.specs.Widths.{IsImpactWidth-prop};
ghost use Rattle.jass_words.specs.Words.{IsTrialSize};
ghost use Rattle.jass_words.specs.declared.word_limits.TheConstants.{LEAST_PARTS, MOST_PARTS};

use crate::grants::Grants;
use crate::until::Until;
use jass_base::Budget;
use query_reader::Mode;
use weights::{Bits, Rule};

/// A command, with what its words say.
#[derive(Clone, Copy)]
pub enum Command<'a> {
    /// Answers a query of words over a CIFF file.
    Once(Once<'a>),
    /// Writes a CIFF file anew in the canonical spelling.
    Rewrite {
        from: &'a str,
        to: &'a str,
    },
    /// Makes an index file of a CIFF file.
    Import(Import<'a>),
    /// Prints the totals of an index file, each byte of which is checked.
    Check {
        index: &'a str,
    },
    /// Writes a CIFF file with the impacts of an index as term frequencies.
    Export {
        index: &'a str,
        ciff: &'a str,
    },
    /// Writes an index file of version 1 in version 2.
    Migrate {
        from: &'a str,
        to: &'a str,
    },
    /// Answers the queries of a file over an index file, once for each budget, and writes a run
    /// file.
    Search {
        index: &'a str,
        queries: &'a str,
        run: &'a str,
        /// 1 to 16; `all` alone where no option says otherwise.
        budgets: Grants,
        asked: Asked<'a>,
        /// `Budget` where no option says otherwise.
        until: Until,
    },
    /// Answers the queries of a file over the index files of a collection's parts, as over one, once
    /// for each budget, and writes a run file.
    Shards(Shards<'a>),
    /// Answers the queries of a file over an index file by all postings, document at a time, and
    /// writes a run file.
    Exhaust {
        index: &'a str,
        queries: &'a str,
        run: &'a str,
        asked: Asked<'a>,
    },
    /// Says whether a run and its reports are those of the search.
    Audit(Audit<'a>),
    /// Answers the lines of the input at a desk of sessions over an index file.
    Serve(Serve<'a>),
    /// Makes a collection and its index in memory, searches it, and prints a summary.
    Trial(Trial),
    /// Prints the commands, the statuses and where the documents are.
    Help,
    /// Prints the program's name and version.
    Version,
}

/// `once CIFF K BUDGET TERM..`.
#[derive(Clone, Copy)]
pub struct Once<'a> {
    pub ciff: &'a str,
    /// 1 to 100,000 hits.
    pub k: u32,
    pub budget: Budget,
    /// 1 to 255 terms of at most 65,535 bytes, each as it stands.
    pub terms: &'a [String],
    pub ghost hits: { (1 ≤ k) × (k ≤ MOST_HITS) },
    pub ghost few_terms: { length terms.now ≤ MOST_TERM_WORDS },
}

/// `import CIFF INDEX [weights=RULE] [bits=BITS]`.
#[derive(Clone, Copy)]
pub struct Import<'a> {
    pub ciff: &'a str,
    pub index: &'a str,
    /// `tf` where no option says otherwise.
    pub rule: Rule,
    /// `raw` where no option says otherwise.
    pub bits: Bits,
    pub ghost width: { IsImpactWidth bits } by { IsImpactWidth-prop bits },
    pub ghost apart: { ciff.now ≢ index.now },
}

/// What `search INDEX QUERIES RUN [k=K] [budget=BUDGET,..] [tag=TAG] [mode=MODE] [until=UNTIL]` asks of each query,
/// beside how far it is searched; an exhaustive search and an audit ask the same.
#[derive(Clone, Copy)]
pub struct Asked<'a> {
    /// 1 to 100,000 hits; 1,000 where no option says otherwise.
    pub k: u32,
    /// 1 to 64 visible ASCII characters; `jass` where no option says otherwise.
    pub tag: &'a str,
    /// `plain` where no option says otherwise.
    pub mode: Mode,
    pub ghost hits: { (1 ≤ k) × (k ≤ MOST_HITS) },
    pub ghost tagged: { IsTag tag.now },
}

/// `shards N INDEX1 .. INDEXN QUERIES RUN [k=K] [budget=BUDGET,..] [tag=TAG] [mode=MODE]`.
#[derive(Clone, Copy)]
pub struct Shards<'a> {
    /// The index files of the parts: 2 to 16.
    pub indexes: &'a [String],
    pub queries: &'a str,
    pub run: &'a str,
    /// 1 to 16; `all` alone where no option says otherwise.
    pub budgets: Grants,
    pub asked: Asked<'a>,
    pub ghost parts: { (LEAST_PARTS ≤ length indexes.now) × (length indexes.now ≤ MOST_PARTS) },
}

/// `audit INDEX QUERIES RUN REPORTS [k=K] [budget=BUDGET,..] [tag=TAG] [mode=MODE]`.
#[derive(Clone, Copy)]
pub struct Audit<'a> {
    pub index: &'a str,
    pub queries: &'a str,
    /// The file that is said to be the search's run.
    pub run: &'a str,
    /// The file that is said to be what the search printed.
    pub reports: &'a str,
    /// 1 to 16; `all` alone where no option says otherwise.
    pub budgets: Grants,
    pub asked: Asked<'a>,
}

/// `serve INDEX frames=FRAMES`.
#[derive(Clone, Copy)]
pub struct Serve<'a> {
    pub index: &'a str,
    /// 1 to 1,048,576.
    pub frames: u32,
    pub ghost shared: { (1 ≤ frames) × (frames ≤ MOST_FRAMES) },
}

/// `trial SEED DOCS TERMS QUERIES`.
#[derive(Clone, Copy)]
pub struct Trial {
    /// Below 2^31.
    pub seed: u32,
    /// 1 to 1,048,576.
    pub docs: u32,
    /// 1 to 1,048,576.
    pub terms: u32,
    /// At most 10,000.
    pub queries: u32,
    pub ghost size: { IsTrialSize seed docs terms queries },
}
