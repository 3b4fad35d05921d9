ghost use Rattle.std.specs.Prelude.{◌<◌, length, map, All, IfOk};
ghost use Rattle.std.specs.List.{AllByRecursion};
ghost use Rattle.jass_base.specs.declared.query_term.QueryTerm.{QueryTerm};
ghost use Rattle.jass_base.specs.declared.query.Query.{Query};
ghost use Rattle.query_reader.specs.Queries.{query_data};
ghost use Rattle.query_reader.specs.Refusals.{Answers};
ghost use Rattle.query_reader.specs.Reading.{read_query_file};

use crate::line::read_line;
use crate::mode::Mode;
use crate::refusal::{LineFault, QueryFault, QueryWhy};
use jass_base::limits::LONGEST_QUERY_FILE;
use jass_base::{Lexicon, Query, Row};
use std::alloc::Global;
use text_lines::Lines;

/// The queries of a file, one in each line that has bytes, or the first refusal.
pub fn read_queries<X: Lexicon>(
    alloc: Global,
    bytes: &[u8],
    mode: Mode,
    index: &X,
) -> Result<Row<Query>, QueryFault>
    ensures file { Answers (map query_data) result (read_query_file bytes.now mode (X.terms index.now)) }
    ensures known { IfOk result (λ queries. AllByRecursion
        (λ (query : Query). All (λ (n : QueryTerm). n.term < length (X.terms index.now)) query.terms) queries) }
{
    if bytes.len() > LONGEST_QUERY_FILE {
        return Err(LineFault::Refused(QueryWhy::FileLong).at(0));
    }
    let mut queries = Row::new(alloc);
    for line in Lines::new(bytes) {
        if line.bytes.is_empty() {
            continue;
        }
        match read_line(alloc, line.bytes, mode, index) {
            Ok(query) => match queries.push(query) {
                Ok(()) => {}
                Err(_) => return Err(QueryFault::NoMemory),
            },
            Err(fault) => return Err(fault.at(line.number as u32)),
        }
    }
    Ok(queries)
}
