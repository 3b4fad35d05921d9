ghost use Rattle.std.specs.Prelude.{◌≡◌, ◌≤◌, IsTrue, length, not, IfOk, MatchResult};
ghost use Rattle.std.specs.Option.{option_map};
ghost use Rattle.jass_base.specs.CiffViews.{list_data};
ghost use Rattle.jass_base.specs.declared.limits.TheConstants.{LONGEST_FILE, MOST_DOCUMENTS, MOST_POSTINGS};
ghost use Rattle.ciff_read.specs.Seen.{is_seen};
ghost use Rattle.ciff_read.specs.Reading.{list_at};
ghost use Rattle.ciff_read.specs.Refusals.{Answers};
ghost use Rattle.ciff_read.specs.Private.OnlyReads.{OnlyReads};
ghost use Rattle.ciff_read.specs.Private.Places.{message_in};
ghost use Rattle.ciff_read.specs.Private.Plain.{IsNearFault};
ghost use Rattle.ciff_read.specs.Plain.{IsPlain};
ghost use Rattle.ciff_read.specs.Private.Reached.{HoldsRead, IsNewList, IsNextList, IsToldToRise, ListTold, terms_behind};
ghost use Rattle.whole_files.specs.Windows.{StaysShown};

use crate::body::Body;
use crate::kept_lists::KeptLists;
use crate::laws::{messages_move, refusals_are_near};
use crate::moved_fault::fault_in_file;
use crate::postings_list::walk_one;
use crate::reaching::reach_message;
use crate::refusal::CiffFault;
use jass_base::{Cabinet, Posting, PostingsList};
use std::alloc::Global;
use whole_files::Window;

/// Reads the list at a place of a file of so many documents, behind lists of so many postings
/// and of the kept terms, or by itself, and gives the place behind it, and whether its term is greater than the kept
/// ones, which also rise. The postings get the memory of the spare vector.
pub fn reach_list<C: Cabinet>(
    alloc: Global,
    spare: &mut Vec<Posting>,
    window: &mut Window,
    files: &mut C,
    name: &str,
    at: u64,
    docs: u32,
    before: u64,
    kept: Option<&KeptLists>,
) -> Result<(PostingsList, u64, bool), CiffFault>
    requires at { at ≤ LONGEST_FILE }
    requires docs { docs ≤ MOST_DOCUMENTS }
    requires before { before ≤ MOST_POSTINGS }
    ensures given { MatchResult result (IsNextList docs before (option_map (λ k. k.now) kept.entry) at) IsPlain }
    ensures held { IfOk result (HoldsRead docs before (option_map (λ k. k.now) kept.entry) at window.new) }
    ensures shown { StaysShown (C.told files.old) name.now window.old window.new }
    ensures exact { ListTold (C.told files.old) name.now window.old docs before
        (option_map (λ k. k.now) kept.entry) at result }
    ensures reads { OnlyReads (C.told files.old) (C.told files.new) name.now (C.read_faults files.old)
        (C.read_faults files.new) (C.write_faults files.old) (C.write_faults files.new) result }
{
    messages_move();
    let body = reach_message(window, files, name, at)?;
    let place = (at - window.start) as usize;
    let bytes = window.bytes.as_slice();
    match read_held(alloc, spare, bytes, place, body, docs, before, kept) {
        Ok((list, rises)) => Ok((list, window.start + body.end as u64, rises)),
        Err(fault) => Err(fault_in_file(fault, window.start)),
    }
}

/// Reads the list of the message at `at`, and says whether its term is told to rise.
fn read_held(
    alloc: Global,
    spare: &mut Vec<Posting>,
    bytes: &[u8],
    at: usize,
    body: Body,
    docs: u32,
    before: u64,
    kept: Option<&KeptLists>,
) -> Result<(PostingsList, bool), CiffFault>
    requires within { body.end ≤ length bytes.now }
    requires at { at ≤ body.end }
    requires docs { docs ≤ MOST_DOCUMENTS }
    requires before { before ≤ MOST_POSTINGS }
    ensures given { MatchResult result (IsNewList docs before (option_map (λ k. k.now) kept.entry))
        (λ fault. IsNearFault body.end fault × IsPlain fault) }
    ensures exact { Answers (λ x. list_data x.0) result
        (list_at docs before (terms_behind (option_map (λ k. k.now) kept.entry)) at (message_in bytes.now body)) }
{
    refusals_are_near();
    let walked = match walk_one(alloc, spare, bytes, at, body, docs, before) {
        Ok(walked) => walked,
        Err(fault) => return Err(fault),
    };
    let (is_new, rises) = judge_behind(kept, walked.term);
    match walked.finish(alloc, at, is_new) {
        Ok(list) => Ok((list, rises)),
        Err(fault) => Err(fault),
    }
}

/// Whether a term is new among the kept ones, and whether this is told by its rising behind them.
fn judge_behind(kept: Option<&KeptLists>, term: &str) -> (bool, bool)
    ensures new { result.0 ≡ not (is_seen term.now (terms_behind (option_map (λ k. k.now) kept.entry))) }
    ensures rises { IsTrue result.1 → IsToldToRise (option_map (λ k. k.now) kept.entry) term.now }
{
    match kept {
        Some(kept) => kept.judge(term),
        None => (true, false),
    }
}
