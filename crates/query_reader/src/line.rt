ghost use Rattle.std.specs.Prelude.{◌<◌, length, All, IfOk};
ghost use Rattle.jass_base.specs.declared.query_term.QueryTerm.{QueryTerm};
ghost use Rattle.query_reader.specs.Queries.{query_data};
ghost use Rattle.query_reader.specs.Private.Lines.{LineAnswers};
ghost use Rattle.query_reader.specs.Reading.{read_line};

use crate::mode::Mode;
use crate::query::read_query;
use crate::refusal::{LineFault, QueryWhy};
use jass_base::limits::LONGEST_LINE;
use jass_base::{Lexicon, Query};
use memchr::memchr2;
use std::alloc::Global;

/// The query of a line: its id ends before the first blank, and its mentions follow.
pub fn read_line<X: Lexicon>(
    alloc: Global,
    line: &[u8],
    mode: Mode,
    index: &X,
) -> Result<Query, LineFault>
    ensures query { LineAnswers query_data result (read_line mode (X.terms index.now) line.now) }
    ensures known { IfOk result (λ query. All (λ (n : QueryTerm). n.term < length (X.terms index.now)) query.terms) }
{
    if line.len() > LONGEST_LINE {
        return Err(LineFault::Refused(QueryWhy::LineLong));
    }
    let Ok(text) = str::from_utf8(line) else {
        return Err(LineFault::Refused(QueryWhy::Text));
    };
    let id_end = memchr2(b' ', b'\t', line).unwrap_or(line.len());
    if id_end == 0 {
        return Err(LineFault::Refused(QueryWhy::NoId));
    }
    let (id, text) = text.split_at(id_end);
    read_query(alloc, id, text, mode, index)
}
