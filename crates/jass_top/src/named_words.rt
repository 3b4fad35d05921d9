ghost use Rattle.std.specs.Prelude.{◌≡◌, ◌≤◌, length, IfOk};
ghost use Rattle.jass_base.specs.declared.limits.TheConstants.{MOST_TERM_WORDS};
ghost use Rattle.ranking_model.specs.Search.{query_data};
ghost use Rattle.session_engine.specs.Plans.{AreKnown};
ghost use Rattle.jass_words.specs.Words.{texts};
ghost use Rattle.jass_top.specs.Answers.{words_query};

use index_file::NamedSource;
use jass_base::{NoMemory, Query};
use query_reader::name_terms;
use std::alloc::Global;

/// The id of a query of words.
const ID: &str = "q";

/// The query of words over the terms of an index.
pub fn name_words<S: NamedSource>(
    alloc: Global,
    words: &[String],
    source: &S,
) -> Result<Query, NoMemory>
    requires { length words.now ≤ MOST_TERM_WORDS }
    ensures query { IfOk result (λ query. query_data query ≡ words_query (S.index source.now) (texts words.now)) }
    ensures known { IfOk result (λ query. AreKnown (S.index source.now) query.terms) }
{
    source.tells_its_index();
    match name_terms(alloc, ID, words, source) {
        Ok(query) => Ok(query),
        Err(refused) => Err(refused),
    }
}
