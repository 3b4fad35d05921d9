ghost use Rattle.std.specs.Prelude.{ℕ, ◌≡◌, ◌*◌, ◌<◌, ◌≤◌, ◌^◌, length, map, slice_index, All, IfOk, OnOk};
ghost use Rattle.jass_base.specs.CiffViews.{list_data};
ghost use Rattle.jass_base.specs.Lists.{HasDocsBelow};
ghost use Rattle.trial_data.specs.Private.Gathering.{cf_sum, with_lists};
ghost use Rattle.trial_data.specs.Trials.{list_with, lists_from, term_postings};
ghost use Rattle.jass_base.specs.declared.limits.TheConstants.{MOST_TRIAL};

use crate::draws::Draws;
use crate::names::put_name;
use crate::postings::{add_lengths, draw_postings, tf_sum};
use jass_base::{NoMemory, Posting, PostingsList, Row, Text};
use std::alloc::Global;

/// The lists of so many terms, whose postings are counted in the lengths of their documents.
pub(crate) fn draw_lists(
    alloc: Global,
    docs: u32,
    terms: u32,
    draws: &mut Draws,
    lengths: &mut [u32],
) -> Result<Row<PostingsList>, NoMemory>
    requires docs { docs ≤ MOST_TRIAL }
    requires terms { terms ≤ MOST_TRIAL }
    requires lengths { length lengths.old ≡ docs }
    requires empty { (doc : ℕ) → slice_index lengths.old doc ≡ 0 }
    ensures lists { IfOk result (λ lists. map list_data lists ≡ (lists_from docs terms 0 draws.old).lists) }
    ensures below { IfOk result (λ lists. All (HasDocsBelow docs) lists) }
    ensures state { OnOk result (draws.new ≡ (lists_from docs terms 0 draws.old).state) }
    ensures lengths { OnOk result (lengths.new
        ≡ with_lists lengths.old (lists_from docs terms 0 draws.old).lists) }
    ensures small { OnOk result ((doc : ℕ) → slice_index lengths.new doc ≤ 8 * terms) }
{
    let mut postings = Vec::new(alloc);
    let mut name = String::new(alloc);
    let mut lists = Row::new(alloc);
    for term in 0..terms {
        let list = draw_list(alloc, docs, term, draws, &mut postings, &mut name)?;
        add_lengths(lengths, list.postings.as_slice());
        lists.push(list)?;
    }
    Ok(lists)
}

/// The list of a term. Postings and name are scratch space, whose room is kept from list to list.
fn draw_list(
    alloc: Global,
    docs: u32,
    term: u32,
    draws: &mut Draws,
    postings: &mut Vec<Posting>,
    name: &mut String,
) -> Result<PostingsList, NoMemory>
    requires docs { docs ≤ MOST_TRIAL }
    requires term { term < MOST_TRIAL }
    ensures list { IfOk result (λ list. list_data list
        ≡ list_with term (term_postings docs term draws.old).postings) }
    ensures below { IfOk result (HasDocsBelow docs) }
    ensures state { OnOk result (draws.new ≡ (term_postings docs term draws.old).state) }
{
    draw_postings(docs, term, draws, postings)?;
    put_name(name, "t", term)?;
    let term = Text::from_str(alloc, name.as_str())?;
    let postings = row_of(alloc, postings.as_slice())?;
    Ok(PostingsList {
        term,
        df: postings.len() as u64,
        cf: tf_sum(postings.as_slice()),
        postings,
    })
}

/// A row of postings, with no more room than they take.
fn row_of(alloc: Global, postings: &[Posting]) -> Result<Row<Posting>, NoMemory>
    ensures { IfOk result (λ row. row ≡ postings.now) }
{
    let mut row = Row::new(alloc);
    row.extend(postings)?;
    Ok(row)
}

/// The sum of the lists' cf.
pub(crate) fn cf_sum(lists: &[PostingsList]) -> u64
    requires { cf_sum lists.now < 2 ^ 63 }
    ensures { result ≡ cf_sum lists.now }
{
    let mut sum = 0;
    for list in lists {
        sum += list.cf;
    }
    sum
}
