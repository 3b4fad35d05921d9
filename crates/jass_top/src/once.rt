ghost use Rattle.std.specs.Prelude.{◌≡◌, ◌+◌, ◌<◌, ◌≤◌, ◌++◌, length, All, codes};
ghost use Rattle.asked_lists.specs.Asked.{asked_of};
ghost use Rattle.ciff_read.specs.Counts.{posting_count};
ghost use Rattle.index_layout.specs.View.{index_postings, index_text};
ghost use Rattle.index_model.specs.Views.{index_data};
ghost use Rattle.jass_base.specs.CiffViews.{collection_data};
ghost use Rattle.jass_base.specs.declared.answer.Hit.{Hit};
ghost use Rattle.jass_base.specs.Outside.{Wrote};
ghost use Rattle.ranking_model.specs.Plan.{granted_with};
ghost use Rattle.ranking_model.specs.Report.{report_line, run_lines};
ghost use Rattle.frame_pool.specs.ChainView.{LeavesPool};
ghost use Rattle.session_engine.specs.Standing.{IsSessionOf, SessionStands, chain_of, granted_of, report_of};
ghost use Rattle.jass_words.specs.Words.{texts};
ghost use Rattle.jass_top.specs.Private.Causes.{Runs};
ghost use Rattle.jass_top.specs.OnceMeaning.{once_meaning};
ghost use Rattle.jass_top.specs.Private.HeldIndexes.{asking_meaning};
ghost use Rattle.jass_top.specs.Private.OnceTexts.{once_index, once_of, session_text};
ghost use Rattle.jass_top.specs.Worlds.{Outer};
ghost use Rattle.jass_base.specs.declared.limits.TheConstants.{LONGEST_FILE, MOST_POSTINGS};
ghost use Rattle.jass_top.specs.Private.Worlds.{with_files, with_output, with_steps};

use crate::import::index_collection;
use crate::input::read_file;
use crate::memory_file::file_in_memory;
use crate::named_words::name_words;
use crate::stop::{OUTPUT, Stop};
use asked_lists::laws::asked_lists_answer_alike;
use asked_lists::{asked_collection, fits_surely};
use frame_pool::FramePool;
use index_file::{NamedSource, Source};
use jass_base::{Budget, Cabinet, Collection, Hit, ImpactIndex, Report, Sink, Steps, WriteFault};
use jass_words::Once;
use ranking_model::laws::{the_prefix_is_the_longest, the_ranking_has_documents_of_the_scores};
use session_engine::laws::{
    a_session_plan_names_its_segments, a_standing_session_has_its_chain,
    reports_of_sessions_keep_their_promises,
};
use session_engine::{OpenStop, Session};
use std::alloc::Global;
use std::sync::ledger::Ledger;
use trec_run::{put_answer, put_report};
use weights::{Bits, Rule};

/// The tag of the run lines.
const TAG: &str = "jass";

/// Answers a query of words over a CIFF file on the output.
pub fn run_once<'a, C: Cabinet, O: Sink, L: Ledger>(
    alloc: Global,
    question: Once<'a>,
    files: &mut C,
    out: &mut O,
    steps: &mut Steps<L>,
) -> Result<(), Stop<'a>>
    ensures runs { (beside : Outer) → Runs (once_meaning question.entry.ciff.now (once_of question.entry))
        (with_output O.Sink out.old (with_files C.Cabinet files.old (with_steps steps.old beside)))
        (with_output O.Sink out.new (with_files C.Cabinet files.new (with_steps steps.new beside))) result }
    ensures later { C.write_faults files.old ≤ C.write_faults files.new }
{
    let collection = read_file(alloc, files, question.ciff)?;
    ask_collection(alloc, collection, question.ciff, question, out, steps)
}

/// Asks the index of a collection. Where this fits a file for certain, that of the lists alone is made whose terms the
/// words name, since it answers alike.
fn ask_collection<'a, O: Sink, L: Ledger>(
    alloc: Global,
    collection: Collection,
    input: &'a str,
    question: Once<'_>,
    out: &mut O,
    steps: &mut Steps<L>,
) -> Result<(), Stop<'a>>
    requires { posting_count collection.lists ≤ MOST_POSTINGS }
    ensures { (beside : Outer) → Runs (asking_meaning input.now
        (once_index (collection_data collection)) (once_of question.entry))
        (with_output O.Sink out.old (with_steps steps.old beside))
        (with_output O.Sink out.new (with_steps steps.new beside)) result }
{
    if fits_surely(&collection) {
        return ask_lists(alloc, collection, input, question, out, steps);
    }
    let made = index_collection(alloc, &collection, Rule::Tf, Bits::Raw);
    drop(collection);
    let index = match made {
        Ok(index) => index,
        Err(_) => return Err(Stop::NoMemory),
    };
    let answered = ask_made(alloc, &index, input, question, out, steps);
    drop(index);
    answered
}

/// Asks the index of the lists whose terms the words name.
fn ask_lists<'a, O: Sink, L: Ledger>(
    alloc: Global,
    collection: Collection,
    input: &'a str,
    question: Once<'_>,
    out: &mut O,
    steps: &mut Steps<L>,
) -> Result<(), Stop<'a>>
    requires few { posting_count collection.lists ≤ MOST_POSTINGS }
    requires fits { length (index_text (once_index (collection_data collection))) ≤ LONGEST_FILE }
    requires fits_asked { length (index_text (once_index
        (asked_of (collection_data collection) (texts question.terms.now)))) ≤ LONGEST_FILE }
    ensures { (beside : Outer) → Runs (asking_meaning input.now
        (once_index (collection_data collection)) (once_of question.entry))
        (with_output O.Sink out.old (with_steps steps.old beside))
        (with_output O.Sink out.new (with_steps steps.new beside)) result }
{
    asked_lists_answer_alike();
    let asked = match asked_collection(alloc, collection, question.terms) {
        Ok(asked) => asked,
        Err(_) => return Err(Stop::NoMemory),
    };
    let made = index_collection(alloc, &asked, Rule::Tf, Bits::Raw);
    drop(asked);
    let index = match made {
        Ok(index) => index,
        Err(_) => return Err(Stop::NoMemory),
    };
    let answered = ask_made(alloc, &index, input, question, out, steps);
    drop(index);
    answered
}

/// Asks an index that was made of an input.
fn ask_made<'a, O: Sink, L: Ledger>(
    alloc: Global,
    index: &ImpactIndex,
    input: &'a str,
    question: Once<'_>,
    out: &mut O,
    steps: &mut Steps<L>,
) -> Result<(), Stop<'a>>
    requires { index_postings (index_data index.now) ≤ MOST_POSTINGS }
    ensures { (beside : Outer) → Runs (asking_meaning input.now (index_data index.now) (once_of question.entry))
        (with_output O.Sink out.old (with_steps steps.old beside))
        (with_output O.Sink out.new (with_steps steps.new beside)) result }
{
    let file = match file_in_memory(alloc, index, input) {
        Ok(file) => file,
        Err(stop) => return Err(stop),
    };
    let answered = ask_source(alloc, &file, input, question, out, steps);
    drop(file);
    answered
}

/// Asks an index, whose text fits a file of that name.
fn ask_source<'a, S: NamedSource, O: Sink, L: Ledger>(
    alloc: Global,
    source: &S,
    input: &'a str,
    question: Once<'_>,
    out: &mut O,
    steps: &mut Steps<L>,
) -> Result<(), Stop<'a>>
    requires { length (index_text (S.index source.now)) ≤ LONGEST_FILE }
    ensures { (beside : Outer) → Runs (asking_meaning input.now (S.index source.now) (once_of question.entry))
        (with_output O.Sink out.old (with_steps steps.old beside))
        (with_output O.Sink out.new (with_steps steps.new beside)) result }
{
    a_standing_session_has_its_chain();
    reports_of_sessions_keep_their_promises();
    the_prefix_is_the_longest();
    source.is_searchable();
    let Ok(query) = name_words(alloc, question.terms, source) else {
        return Err(Stop::NoMemory);
    };
    let Ok(mut pool) = FramePool::new(alloc, Source::docs(source).div_ceil(256), 1) else {
        drop(query);
        return Err(Stop::NoMemory);
    };
    let mut session = match Session::open(alloc, source, &mut pool, query, question.k) {
        Ok(session) => session,
        Err(OpenStop::NoMemory) => {
            drop(pool);
            return Err(Stop::NoMemory);
        }
        Err(OpenStop::PoolFull { .. }) => unreachable!("the pool has a frame for each page"),
    };
    let answered = answer_session(&mut session, source, &mut pool, question.budget, out, steps);
    session.close(&mut pool);
    drop(pool);
    match answered {
        Ok(()) => Ok(()),
        Err(_) => Err(Stop::WriteFault { name: OUTPUT }),
    }
}

/// Grants a budget, and puts the report line and the run lines on the output.
fn answer_session<S: NamedSource, O: Sink, L: Ledger>(
    session: &mut Session,
    source: &S,
    pool: &mut FramePool,
    budget: Budget,
    out: &mut O,
    steps: &mut Steps<L>,
) -> Result<(), WriteFault>
    requires { SessionStands session.old (S.index source.now) pool.old }
    ensures stands { SessionStands session.new (S.index source.now) pool.new }
    ensures granted { granted_of session.new ≡ granted_with (granted_of session.old) budget }
    ensures same { IsSessionOf session.old session.new }
    ensures leaves { LeavesPool pool.old pool.new (chain_of session.old) }
    ensures steps { steps.new + (report_of session.old).postings ≡ steps.old + (report_of session.new).postings }
    ensures text { Wrote O.written O.faults O.rest out.old out.new
        (session_text (S.index source.now) session.new) result }
{
    a_session_plan_names_its_segments();
    the_ranking_has_documents_of_the_scores();
    let report = session.grant(source, pool, budget, steps);
    let query = session.query();
    put_lines(
        out,
        query.id.as_str(),
        query.unknown,
        report,
        source,
        session.answer(),
    )
}

/// Puts a report line and the run lines of an answer on the output.
fn put_lines<S: NamedSource, O: Sink>(
    out: &mut O,
    id: &str,
    unknown: u32,
    report: Report,
    source: &S,
    hits: &[Hit],
) -> Result<(), WriteFault>
    requires { All (λ (hit : Hit). hit.doc < length (S.index source.now).names) hits.now }
    ensures { Wrote O.written O.faults O.rest out.old out.new (report_line id.now report unknown
        ++ run_lines (S.index source.now).names id.now (codes "jass") 1 hits.now) result }
{
    source.tells_its_index();
    put_report(out, id, unknown, report)?;
    put_answer(out, id, source, hits, TAG, 0)
}
