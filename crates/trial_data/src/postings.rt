ghost use Rattle.std.specs.Prelude.{ℕ, ◌≡◌, ◌<◌, ◌≤◌, ◌^◌, length, slice_index, All, OnOk};
ghost use Rattle.jass_base.specs.Postings.{docs_of};
ghost use Rattle.trial_data.specs.Private.Gathering.{with_postings};
ghost use Rattle.trial_data.specs.Trials.{term_postings, tf_of, tf_sum};
ghost use Rattle.jass_base.specs.declared.limits.TheConstants.{MOST_TRIAL};

use crate::draws::Draws;
use jass_base::{NoMemory, Posting};

/// Makes a row the postings of a term in a collection of so many documents. The draw behind its
/// last posting ends the term.
pub(crate) fn draw_postings(
    docs: u32,
    term: u32,
    draws: &mut Draws,
    postings: &mut Vec<Posting>,
) -> Result<(), NoMemory>
    requires docs { docs ≤ MOST_TRIAL }
    requires term { term < MOST_TRIAL }
    ensures postings { OnOk result (postings.new.items ≡ (term_postings docs term draws.old).postings) }
    ensures state { OnOk result (draws.new ≡ (term_postings docs term draws.old).state) }
{
    let width = 2 * term + 1;
    let mut from = 0;
    postings.clear();
    'draws: loop {
        let doc = from + draws.next() % width;
        if doc >= docs {
            return Ok(());
        }
        let tf = tf_of(draws.next());
        postings.push(Posting { doc, tf })?;
        from = doc + 1;
    }
}

/// How often a term stands in a document, by a draw.
fn tf_of(number: u32) -> u32
    ensures { result ≡ tf_of number }
{
    let low = number % 64;
    1 + low * low / 512
}

/// The sum of the tf of postings.
pub(crate) fn tf_sum(postings: &[Posting]) -> u64
    requires { tf_sum postings.now < 2 ^ 63 }
    ensures { result ≡ tf_sum postings.now }
{
    let mut sum = 0;
    for posting in postings {
        sum += u64::from(posting.tf);
    }
    sum
}

/// Adds the tf of postings to the lengths of their documents.
pub(crate) fn add_lengths(lengths: &mut [u32], postings: &[Posting])
    requires below { All (λ doc. doc < length lengths.old) (docs_of postings.now) }
    requires fits { (doc : ℕ) → slice_index (with_postings lengths.old postings.now) doc < 2 ^ 31 }
    ensures { lengths.new ≡ with_postings lengths.old postings.now }
{
    for posting in postings {
        lengths[posting.doc as usize] += posting.tf;
    }
}
