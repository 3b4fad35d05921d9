ghost use Rattle.std.specs.Prelude.{◌+◌, ◌<◌, ◌≤◌, ◌^◌, length, All, IfOk};
ghost use Rattle.jass_base.specs.declared.query_term.QueryTerm.{QueryTerm};
ghost use Rattle.query_reader.specs.Texts.{mentions_of};
ghost use Rattle.query_reader.specs.Queries.{query_data};
ghost use Rattle.query_reader.specs.Refusals.{Answers, at_line};
ghost use Rattle.query_reader.specs.Private.Lines.{LineAnswers};
ghost use Rattle.query_reader.specs.Reading.{read_mentions};
ghost use Rattle.query_reader.specs.Private.Tally.{CountsIn, all_counted_in};
ghost use Rattle.jass_base.specs.declared.limits.TheConstants.{LONGEST_LINE};

use crate::folded::count_folded;
use crate::mode::Mode;
use crate::plain::count_plain;
use crate::refusal::{LineFault, QueryFault};
use crate::tally::Tally;
use jass_base::{Lexicon, Query, Row, Text};
use std::alloc::Global;

/// The query of a text of at most 1,048,576 bytes, read as line 1 of a file. Only the refusals 52
/// and 53 can come.
pub fn read_terms<X: Lexicon>(
    alloc: Global,
    id: &str,
    text: &str,
    mode: Mode,
    index: &X,
) -> Result<Query, QueryFault>
    requires { length text.now ≤ LONGEST_LINE }
    ensures query { Answers query_data result
        (at_line 1 (read_mentions (X.terms index.now) id.now (mentions_of mode text.now))) }
    ensures known { IfOk result (λ query. All (λ (n : QueryTerm). n.term < length (X.terms index.now)) query.terms) }
{
    match read_query(alloc, id, text, mode, index) {
        Ok(query) => Ok(query),
        Err(fault) => Err(fault.at(1)),
    }
}

/// The query of an id and the mentions in a text.
pub fn read_query<X: Lexicon>(
    alloc: Global,
    id: &str,
    text: &str,
    mode: Mode,
    index: &X,
) -> Result<Query, LineFault>
    requires { length text.now ≤ LONGEST_LINE }
    ensures query { LineAnswers query_data result
        (read_mentions (X.terms index.now) id.now (mentions_of mode text.now)) }
    ensures known { IfOk result (λ query. All (λ (n : QueryTerm). n.term < length (X.terms index.now)) query.terms) }
{
    let mut tally = Tally::new(alloc);
    count_mentions(alloc, &mut tally, text, mode, index)?;
    let Ok(id) = Text::from_str(alloc, id) else {
        return Err(LineFault::NoMemory);
    };
    Ok(Query {
        id,
        terms: Row::from_vec(tally.named),
        unknown: tally.unknown,
    })
}

/// Counts the mentions of a text.
#[tactic(auto, unfolding(crate::specs::Texts::mentions_of))]
fn count_mentions<X: Lexicon>(
    alloc: Global,
    tally: &mut Tally,
    text: &str,
    mode: Mode,
    index: &X,
) -> Result<(), LineFault>
    requires { tally.old.unknown + length text.now < 2 ^ 32 }
    ensures { CountsIn (all_counted_in (X.terms index.now) tally.old (mentions_of mode text.now)) tally.new result }
{
    match mode {
        Mode::Plain => count_plain(tally, text.as_bytes(), index),
        Mode::Folded => count_folded(alloc, tally, text, index),
    }
}
