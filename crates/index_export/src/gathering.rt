ghost use Rattle.std.specs.Prelude.{◌≡◌, ◌+◌, ◌≤◌, ◌<◌, ◌++◌, length, flat_map, IfOk, OnOk, OnErr};
ghost use Rattle.ranking_model.specs.Order.{sorted};
ghost use Rattle.index_model.specs.Querying.{segments_at};
ghost use Rattle.index_layout.specs.View.{term_postings};
ghost use Rattle.index_file.specs.Places.{segment_at};
ghost use Rattle.index_export.specs.Exports.{doc_cmp, segment_postings, term_list};
ghost use Rattle.index_export.specs.Private.Gathering.{doc_postings, term_with};

use index_file::IndexFile;
use jass_base::{NoMemory, Posting, Steps};
use std::alloc::Global;
use std::sync::ledger::Ledger;

/// The postings of a term by rising document, with their impacts as tf. The block is scratch space.
pub(crate) fn postings_of<L: Ledger>(
    alloc: Global,
    index: &IndexFile,
    t: u32,
    block: &mut [u32; 128],
    steps: &mut Steps<L>,
) -> Result<Vec<Posting>, NoMemory>
    requires t { t < length index.now.index.terms }
    ensures postings { IfOk result (λ postings. postings.items ≡ term_list (term_with index.now.index.terms t)) }
    ensures steps { OnOk result (steps.new ≡ steps.old + term_postings (term_with index.now.index.terms t)) }
    ensures counted { OnErr result (steps.new ≤ steps.old + term_postings (term_with index.now.index.terms t)) }
    ensures later { OnErr result (steps.old ≤ steps.new) }
{
    let mut postings = Vec::new(alloc);
    gather(index, t, &mut postings, block, steps)?;
    arrange(&mut postings)?;
    Ok(postings)
}

/// By rising document. Those of a segment rise already, so that a stable sort has little to do.
fn arrange(postings: &mut Vec<Posting>) -> Result<(), NoMemory>
    ensures { OnOk result (postings.new.items ≡ sorted doc_cmp postings.old.items) }
{
    match postings.sort_by_key(|posting| posting.doc) {
        Ok(()) => Ok(()),
        Err(_) => Err(NoMemory),
    }
}

/// Appends the postings of a term, segment by segment.
fn gather<L: Ledger>(
    index: &IndexFile,
    t: u32,
    postings: &mut Vec<Posting>,
    block: &mut [u32; 128],
    steps: &mut Steps<L>,
) -> Result<(), NoMemory>
    requires t { t < length index.now.index.terms }
    ensures postings { OnOk result (postings.new.items
        ≡ postings.old.items ++ flat_map segment_postings (segments_at index.now.index.terms t)) }
    ensures steps { OnOk result (steps.new ≡ steps.old + term_postings (term_with index.now.index.terms t)) }
    ensures counted { OnErr result (steps.new ≤ steps.old + term_postings (term_with index.now.index.terms t)) }
    ensures later { OnErr result (steps.old ≤ steps.new) }
{
    for s in 0..index.segments(t) {
        add_segment(index, t, s, postings, block, steps)?;
    }
    Ok(())
}

/// Appends the postings of a segment.
fn add_segment<L: Ledger>(
    index: &IndexFile,
    t: u32,
    s: u32,
    postings: &mut Vec<Posting>,
    block: &mut [u32; 128],
    steps: &mut Steps<L>,
) -> Result<(), NoMemory>
    requires t { t < length index.now.index.terms }
    requires s { s < length (segments_at index.now.index.terms t) }
    ensures postings { OnOk result (postings.new.items
        ≡ postings.old.items ++ segment_postings (segment_at index.now.index.terms t s)) }
    ensures steps { OnOk result (steps.new ≡ steps.old + length (segment_at index.now.index.terms t s).docs) }
    ensures counted { OnErr result (steps.new ≤ steps.old + length (segment_at index.now.index.terms t s).docs) }
    ensures later { OnErr result (steps.old ≤ steps.new) }
{
    let head = index.head(t, s);
    if head.count == 1 {
        let doc = index.first_doc(t, s, steps);
        return add_docs(&[doc], head.impact, postings);
    }
    add_blocks(index, t, s, head.impact, postings, block, steps)
}

/// Appends the postings of a segment with this impact, block by block.
fn add_blocks<L: Ledger>(
    index: &IndexFile,
    t: u32,
    s: u32,
    impact: u16,
    postings: &mut Vec<Posting>,
    block: &mut [u32; 128],
    steps: &mut Steps<L>,
) -> Result<(), NoMemory>
    requires t { t < length index.now.index.terms }
    requires s { s < length (segments_at index.now.index.terms t) }
    ensures postings { OnOk result (postings.new.items
        ≡ postings.old.items ++ doc_postings impact (segment_at index.now.index.terms t s).docs) }
    ensures steps { OnOk result (steps.new ≡ steps.old + length (segment_at index.now.index.terms t s).docs) }
    ensures counted { OnErr result (steps.new ≤ steps.old + length (segment_at index.now.index.terms t s).docs) }
    ensures later { OnErr result (steps.old ≤ steps.new) }
{
    let mut cursor = index.cursor(t, s);
    'blocks: loop {
        let given = index.next_block(&mut cursor, block, steps);
        if given == 0 {
            return Ok(());
        }
        add_docs(&block[..given], impact, postings)?;
    }
}

/// Appends a posting for each of some documents.
fn add_docs(docs: &[u32], impact: u16, postings: &mut Vec<Posting>) -> Result<(), NoMemory>
    ensures { OnOk result (postings.new.items ≡ postings.old.items ++ doc_postings impact docs.now) }
{
    for doc in docs {
        let posting = Posting {
            doc: *doc,
            tf: u32::from(impact),
        };
        postings.push(posting)?;
    }
    Ok(())
}
