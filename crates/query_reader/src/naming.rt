ghost use Rattle.std.specs.Prelude.{◌≡◌, ◌+◌, ◌<◌, ◌≤◌, length, map, IfOk, All};
ghost use Rattle.std.specs.String.{string_bytes};
ghost use Rattle.jass_base.specs.declared.query_term.QueryTerm.{QueryTerm};
ghost use Rattle.query_reader.specs.Mentions.{words_as_mentions, named_of, unknown_of};
ghost use Rattle.jass_base.specs.declared.limits.TheConstants.{MOST_TERM_WORDS};

use crate::refusal::LineFault;
use crate::tally::count_known;
use jass_base::{Lexicon, NoMemory, Query, Row, Text};
use std::alloc::Global;

/// The query of at most 255 words. Each word is one term as it stands, and counts once.
pub fn name_terms<X: Lexicon>(
    alloc: Global,
    id: &str,
    words: &[String],
    index: &X,
) -> Result<Query, NoMemory>
    requires { length words.now ≤ MOST_TERM_WORDS }
    ensures id { IfOk result (λ query. query.id ≡ id.now) }
    ensures terms { IfOk result (λ query. query.terms
        ≡ named_of (X.terms index.now) (words_as_mentions (map string_bytes words.now))) }
    ensures times { IfOk result (λ query. All (λ (n : QueryTerm). n.times ≤ length words.now) query.terms) }
    ensures known { IfOk result (λ query. All (λ (n : QueryTerm). n.term < length (X.terms index.now)) query.terms) }
    ensures unknown { IfOk result (λ query. query.unknown
        ≡ unknown_of (X.terms index.now) (words_as_mentions (map string_bytes words.now))) }
{
    let id = Text::from_str(alloc, id)?;
    let mut named = Vec::new(alloc);
    let mut unknown: u32 = 0;
    for word in words {
        match index.find(word.as_str().as_bytes()) {
            Some(number) => match count_known(&mut named, number, 1) {
                Ok(()) => {}
                Err(LineFault::NoMemory) => return Err(NoMemory),
                Err(LineFault::Refused(_)) => unreachable!("a query of 255 words breaks no limit"),
            },
            None => unknown += 1,
        }
    }
    Ok(Query {
        id,
        terms: Row::from_vec(named),
        unknown,
    })
}
