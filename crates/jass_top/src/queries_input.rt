ghost use Rattle.std.specs.Prelude.{◌≡◌, ◌≤◌, [], ◌∷◌, map, IfOk, IfErr};
ghost use Rattle.std.specs.List.{AllByRecursion, find};
ghost use Rattle.std.specs.Option.{option_map};
ghost use Rattle.jass_base.specs.declared.query.Query.{Query};
ghost use Rattle.index_file.specs.Places.{texts_of};
ghost use Rattle.query_reader.specs.Queries.{query_data};
ghost use Rattle.query_reader.specs.Reading.{read_query_file};
ghost use Rattle.query_reader.specs.Refusals.{Answers};
ghost use Rattle.session_engine.specs.Plans.{AreKnown};
ghost use Rattle.jass_top.specs.Private.Causes.{Unheld, Unread};
ghost use Rattle.jass_top.specs.Private.Inputs.{HasInput};
ghost use Rattle.jass_top.specs.Private.SearchRuns.{MayStop, asked_of};
ghost use Rattle.jass_top.specs.Judging.{behind, judge_content};
ghost use Rattle.jass_top.specs.QueryJudging.{LineQuery, has_many, judge_queries, judge_queries_until};
ghost use Rattle.jass_top.specs.QueryJudging.{with_lines, without_lines};

use crate::content_input::file_front;
use crate::stop::{Place, Stop};
use index_file::NamedSource;
use jass_base::limits::LONGEST_QUERY_FILE;
use jass_base::{Cabinet, Query, Row};
use jass_words::Until;
use jass_words::word_limits::MOST_FINAL_TERMS;
use query_reader::laws::query_files_are_read;
use query_reader::{Mode, QueryFault, read_queries};
use std::alloc::Global;
use text_lines::Lines;

/// How many bytes of a file are read at the most: one more than a query file may have, since a
/// longer file is refused whatever else stands in it.
pub const MOST_BYTES: usize = LONGEST_QUERY_FILE + 1;

/// The number of the refusal of a query that has more than 64 known terms, where queries are searched until final.
const MANY_TERMS: u32 = 56;

/// Reads the queries of a file over the terms of an index, which are searched so far.
pub fn open_queries<'a, S: NamedSource, C: Cabinet>(
    alloc: Global,
    files: &mut C,
    name: &'a str,
    mode: Mode,
    until: Until,
    source: &S,
) -> Result<Row<Query>, Stop<'a>>
    ensures accepted { IfOk result (λ queries. HasInput
        (behind (judge_content name.now (C.told files.old))
        (judge_queries_until until name.now mode (texts_of (S.index source.now).terms)))
        (λ lined. without_lines lined ≡ asked_of queries)) }
    ensures known { IfOk result (λ queries.
        AllByRecursion (λ (query : Query). AreKnown (S.index source.now) query.terms) queries) }
    ensures few_terms { IfOk result (λ queries. AllByRecursion (MayStop until) queries) }
    ensures unread { IfErr result (λ stop. Unread (name.now ∷ [])
        (behind (judge_content name.now (C.told files.old))
        (judge_queries_until until name.now mode (texts_of (S.index source.now).terms)))
        (C.read_faults files.old) (C.read_faults files.new) stop) }
    ensures stays { C.told files.new ≡ C.told files.old }
    ensures later { C.read_faults files.old ≤ C.read_faults files.new }
    ensures others { C.write_faults files.old ≤ C.write_faults files.new }
{
    let bytes = match file_front(alloc, files, name, MOST_BYTES) {
        Ok(bytes) => bytes,
        Err(stop) => return Err(stop),
    };
    match queries_until(alloc, bytes.as_slice(), name, mode, until, source) {
        Ok(queries) => Ok(queries),
        Err(stop) => Err(stop),
    }
}

/// The queries of a content over the terms of an index, which are searched so far. The content is that of the file of
/// this name.
fn queries_until<'a, S: NamedSource>(
    alloc: Global,
    bytes: &[u8],
    name: &'a str,
    mode: Mode,
    until: Until,
    source: &S,
) -> Result<Row<Query>, Stop<'a>>
    ensures accepted { IfOk result (λ queries. HasInput
        (judge_queries_until until name.now mode (texts_of (S.index source.now).terms) bytes.now)
        (λ lined. without_lines lined ≡ asked_of queries)) }
    ensures known { IfOk result (λ queries.
        AllByRecursion (λ (query : Query). AreKnown (S.index source.now) query.terms) queries) }
    ensures few_terms { IfOk result (λ queries. AllByRecursion (MayStop until) queries) }
    ensures unheld { IfErr result (λ stop. Unheld (name.now ∷ [])
        (judge_queries_until until name.now mode (texts_of (S.index source.now).terms) bytes.now) stop) }
{
    let queries = match queries_in(alloc, bytes, name, mode, source) {
        Ok(queries) => queries,
        Err(stop) => return Err(stop),
    };
    match until {
        Until::Budget => Ok(queries),
        Until::Final => match line_of_many(bytes, queries.as_slice()) {
            None => Ok(queries),
            Some(line) => {
                drop(queries);
                Err(Stop::Refused {
                    name,
                    number: MANY_TERMS,
                    at: Place::Line(line),
                })
            }
        },
    }
}

/// The number of the first line whose query has more than 64 terms. The queries are those of the content's lines that
/// have bytes.
fn line_of_many(bytes: &[u8], queries: &[Query]) -> Option<u64>
    ensures { result ≡ option_map (λ (asked : LineQuery). asked.line)
        (find has_many (with_lines bytes.now (asked_of queries.now))) }
{
    let mut place = 0;
    for line in Lines::new(bytes) {
        if line.bytes.is_empty() {
            continue;
        }
        let Some(query) = queries.get(place) else {
            return None;
        };
        if query.terms.len() > MOST_FINAL_TERMS as usize {
            return Some(line.number);
        }
        place += 1;
    }
    None
}

/// The queries of a content over the terms of an index. The content is that of the file of this name.
pub fn queries_in<'a, S: NamedSource>(
    alloc: Global,
    bytes: &[u8],
    name: &'a str,
    mode: Mode,
    source: &S,
) -> Result<Row<Query>, Stop<'a>>
    ensures accepted { IfOk result (λ queries. HasInput
        (judge_queries name.now mode (texts_of (S.index source.now).terms) bytes.now)
        (λ lined. (lined ≡ with_lines bytes.now (asked_of queries)) × (without_lines lined ≡ asked_of queries))) }
    ensures known { IfOk result (λ queries.
        AllByRecursion (λ (query : Query). AreKnown (S.index source.now) query.terms) queries) }
    ensures unheld { IfErr result (λ stop. Unheld (name.now ∷ [])
        (judge_queries name.now mode (texts_of (S.index source.now).terms) bytes.now) stop) }
{
    query_files_are_read();
    match queries_over(alloc, bytes, mode, source) {
        Ok(queries) => Ok(queries),
        Err(QueryFault::Refused(refusal)) => Err(Stop::Refused {
            name,
            number: refusal.why.number(),
            at: Place::Line(u64::from(refusal.line)),
        }),
        Err(QueryFault::NoMemory) => Err(Stop::NoMemory),
    }
}

/// The same, or the fault of the first line that is refused.
fn queries_over<S: NamedSource>(
    alloc: Global,
    bytes: &[u8],
    mode: Mode,
    source: &S,
) -> Result<Row<Query>, QueryFault>
    ensures file { Answers (map query_data) result
        (read_query_file bytes.now mode (texts_of (S.index source.now).terms)) }
    ensures known { IfOk result (λ queries. AllByRecursion
        (λ (query : Query). AreKnown (S.index source.now) query.terms) queries) }
{
    source.tells_its_index();
    read_queries(alloc, bytes, mode, source)
}
