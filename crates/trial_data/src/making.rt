ghost use Rattle.std.specs.Prelude.{◌≡◌, ◌≤◌, ◌<◌, ◌^◌, replicate, codes, IfOk};
ghost use Rattle.jass_base.specs.CiffViews.{collection_data, header_data};
ghost use Rattle.trial_data.specs.Trials.{trial_collection, trial_state};
ghost use Rattle.jass_base.specs.declared.limits.TheConstants.{MOST_TRIAL};

use crate::documents::records_of;
use crate::draws::Draws;
use crate::lists::{cf_sum, draw_lists};
use jass_base::{Collection, Header, NoMemory, Text};
use std::alloc::Global;

/// The collection of a seed, with so many documents and terms, at most 1,048,576 of each. A term
/// that is drawn late has few postings, or none.
pub fn make(alloc: Global, seed: u32, docs: u32, terms: u32) -> Result<Collection, NoMemory>
    requires docs { docs ≤ MOST_TRIAL }
    requires terms { terms ≤ MOST_TRIAL }
    ensures { IfOk result (λ c. collection_data c ≡ trial_collection seed docs terms) }
{
    match make_with_draws(alloc, seed, docs, terms) {
        Ok((collection, _)) => Ok(collection),
        Err(refused) => Err(refused),
    }
}

/// The same, and the numbers that are drawn behind its last term.
pub fn make_with_draws(
    alloc: Global,
    seed: u32,
    docs: u32,
    terms: u32,
) -> Result<(Collection, Draws), NoMemory>
    requires docs { docs ≤ MOST_TRIAL }
    requires terms { terms ≤ MOST_TRIAL }
    ensures collection { IfOk result (λ x. collection_data x.0 ≡ trial_collection seed docs terms) }
    ensures draws { IfOk result (λ x. x.1 ≡ trial_state seed docs terms) }
{
    let mut draws = Draws::new(seed);
    let Ok(mut lengths) = vec![in alloc; 0u32; docs as usize] else {
        return Err(NoMemory);
    };
    let lists = draw_lists(alloc, docs, terms, &mut draws, lengths.as_mut_slice())?;
    let records = records_of(alloc, lengths.as_slice())?;
    let header = header_of(alloc, terms, docs, cf_sum(lists.as_slice()))?;
    let collection = Collection {
        header,
        lists,
        docs: records,
    };
    Ok((collection, draws))
}

/// The header of a trial whose lists and documents are so many, and whose tf have this sum.
fn header_of(alloc: Global, lists: u32, docs: u32, total_terms: u64) -> Result<Header, NoMemory>
    requires lists { lists < 2 ^ 31 }
    requires docs { docs < 2 ^ 31 }
    requires terms { total_terms < 2 ^ 63 }
    ensures { IfOk result (λ header. header_data header ≡ record {
      version = 1;
      total_lists = lists;
      total_docs = docs;
      total_terms = total_terms;
      average = replicate 8 0;
      description = codes "trial";
    }) }
{
    let description = Text::from_str(alloc, "trial")?;
    Ok(Header {
        version: 1,
        total_lists: lists,
        total_docs: docs,
        total_terms,
        average: [0; 8],
        description,
    })
}
