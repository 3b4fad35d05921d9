ghost use Rattle.std.specs.Prelude.{◌≡◌, ◌≤◌, [], ◌∷◌, codes, IfOk, IfErr, OnOk};
ghost use Rattle.index_layout.specs.View.{IsFileView, chosen_view};
ghost use Rattle.index_model.specs.Views.{index_data};
ghost use Rattle.trial_data.specs.Trials.{queries_from, trial_state};
ghost use Rattle.jass_words.specs.Words.{IsTrialSize};
ghost use Rattle.jass_top.specs.Private.Causes.{Runs, Unheld};
ghost use Rattle.jass_top.specs.Private.HeldIndexes.{IsTextOf};
ghost use Rattle.jass_top.specs.Judging.{Accepted};
ghost use Rattle.jass_top.specs.TrialMeaning.{judge_trial, trial_index, trial_meaning, tried_meaning};
ghost use Rattle.jass_top.specs.Worlds.{Outer};
ghost use Rattle.jass_base.specs.declared.limits.TheConstants.{MOST_TRIAL};
ghost use Rattle.jass_top.specs.Private.Worlds.{with_output, with_steps};
ghost use Rattle.jass_words.specs.declared.word_limits.TheConstants.{MOST_QUERIES};

use crate::import::{impacts_are_small, index_collection};
use crate::laws::a_trial_leaves_its_summary;
use crate::memory_file::{open_text, text_in_memory};
use crate::stop::{OUTPUT, Place, Stop};
use crate::trial_lines::put_summary;
use crate::trial_queries::try_queries;
use index_file::{IndexFile, Source};
use index_model::laws::indexes_in_memory_are_indexes;
use index_write::totals;
use jass_base::limits::MOST_POSTINGS;
use jass_base::{ImpactIndex, NoMemory, Row, Sink, Steps};
use std::alloc::Global;
use std::sync::ledger::Ledger;
use trial_data::{Draws, make_with_draws};
use weights::{Bits, Rule};

/// What a trial is called in a note.
const NAME: &str = "trial";

/// The refusal of an index with more postings than a file may have, and the byte of a file where
/// their number stands.
const TOO_MANY: u32 = 48;

const AT_POSTINGS: u64 = 24;

/// Makes a collection from a seed, with so many documents and terms, indexes it, answers so many
/// queries over it, and prints a summary.
pub fn run_trial<'a, O: Sink, L: Ledger>(
    alloc: Global,
    seed: u32,
    docs: u32,
    terms: u32,
    queries: u32,
    out: &mut O,
    steps: &mut Steps<L>,
) -> Result<(), Stop<'a>>
    requires { IsTrialSize seed docs terms queries }
    ensures { (beside : Outer) → Runs (trial_meaning seed docs terms queries)
        (with_output O.Sink out.old (with_steps steps.old beside))
        (with_output O.Sink out.new (with_steps steps.new beside)) result }
{
    let (file, mut draws) = match make_trial(alloc, seed, docs, terms) {
        Ok(made) => made,
        Err(stop) => return Err(stop),
    };
    let tried = try_file(alloc, &file, &mut draws, terms, queries, out, steps);
    drop(file);
    tried
}

/// Answers queries that are drawn over the index of a trial, and prints a summary.
fn try_file<'a, O: Sink, L: Ledger>(
    alloc: Global,
    index: &IndexFile,
    draws: &mut Draws,
    terms: u32,
    queries: u32,
    out: &mut O,
    steps: &mut Steps<L>,
) -> Result<(), Stop<'a>>
    requires terms { 1 ≤ terms }
    requires queries { queries ≤ MOST_QUERIES }
    requires chosen { index.now ≡ chosen_view index.now.index }
    requires accepted { judge_trial index.now.index ≡ Accepted index.now.index }
    ensures { (beside : Outer) → Runs (tried_meaning index.now.index (queries_from terms queries draws.old))
        (with_output O.Sink out.old (with_steps steps.old beside))
        (with_output O.Sink out.new (with_steps steps.new beside)) result }
{
    a_trial_leaves_its_summary();
    index.is_searchable();
    let sums = match try_queries(alloc, index, draws, terms, queries, steps) {
        Ok(sums) => sums,
        Err(_) => return Err(Stop::NoMemory),
    };
    match put_summary(out, index, sums) {
        Ok(()) => Ok(()),
        Err(_) => Err(Stop::WriteFault { name: OUTPUT }),
    }
}

/// The index of a trial as an index file in memory, and the numbers that are drawn behind its
/// collection.
fn make_trial<'a>(
    alloc: Global,
    seed: u32,
    docs: u32,
    terms: u32,
) -> Result<(IndexFile, Draws), Stop<'a>>
    requires docs { docs ≤ MOST_TRIAL }
    requires terms { terms ≤ MOST_TRIAL }
    ensures file { IfOk result (λ made. made.0 ≡ chosen_view (trial_index seed docs terms)) }
    ensures view { IfOk result (λ made. IsFileView made.0) }
    ensures draws { IfOk result (λ made. made.1 ≡ trial_state seed docs terms) }
    ensures accepted { OnOk result
        (judge_trial (trial_index seed docs terms) ≡ Accepted (trial_index seed docs terms)) }
    ensures unmade { IfErr result
        (λ stop. Unheld (codes "trial" ∷ []) (judge_trial (trial_index seed docs terms)) stop) }
{
    let (bytes, draws) = trial_bytes(alloc, seed, docs, terms)?;
    match open_text(alloc, bytes) {
        Ok(file) => Ok((file, draws)),
        Err(_) => Err(Stop::NoMemory),
    }
}

/// The bytes of that file. The index in memory is let go before they are read.
fn trial_bytes<'a>(
    alloc: Global,
    seed: u32,
    docs: u32,
    terms: u32,
) -> Result<(Row<u8>, Draws), Stop<'a>>
    requires docs { docs ≤ MOST_TRIAL }
    requires terms { terms ≤ MOST_TRIAL }
    ensures text { IfOk result (λ made. IsTextOf made.0 (trial_index seed docs terms)) }
    ensures draws { IfOk result (λ made. made.1 ≡ trial_state seed docs terms) }
    ensures accepted { OnOk result
        (judge_trial (trial_index seed docs terms) ≡ Accepted (trial_index seed docs terms)) }
    ensures unmade { IfErr result
        (λ stop. Unheld (codes "trial" ∷ []) (judge_trial (trial_index seed docs terms)) stop) }
{
    indexes_in_memory_are_indexes();
    let (index, draws) = match index_trial(alloc, seed, docs, terms) {
        Ok(made) => made,
        Err(_) => return Err(Stop::NoMemory),
    };
    impacts_are_small(&index);
    let bytes = match text_in_memory(alloc, &index, NAME) {
        Ok(bytes) => bytes,
        Err(stop) => {
            drop(index);
            return Err(stop);
        }
    };
    if totals(&index).postings > MOST_POSTINGS {
        drop(bytes);
        drop(index);
        return Err(Stop::Refused {
            name: NAME,
            number: TOO_MANY,
            at: Place::Byte(AT_POSTINGS),
        });
    }
    drop(index);
    Ok((bytes, draws))
}

/// The index of a trial in memory. Its collection is let go at the end.
fn index_trial(
    alloc: Global,
    seed: u32,
    docs: u32,
    terms: u32,
) -> Result<(ImpactIndex, Draws), NoMemory>
    requires docs { docs ≤ MOST_TRIAL }
    requires terms { terms ≤ MOST_TRIAL }
    ensures index { IfOk result (λ made. index_data made.0 ≡ trial_index seed docs terms) }
    ensures draws { IfOk result (λ made. made.1 ≡ trial_state seed docs terms) }
{
    let (collection, draws) = make_with_draws(alloc, seed, docs, terms)?;
    let made = index_collection(alloc, &collection, Rule::Bm25, Bits::Of(8));
    drop(collection);
    match made {
        Ok(index) => Ok((index, draws)),
        Err(refused) => Err(refused),
    }
}
