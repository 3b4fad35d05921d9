ghost use Rattle.std.specs.Prelude.{◌≡◌, ◌+◌, ◌≤◌, true, not, length, IfOk, OnOk};
ghost use Rattle.jass_base.specs.CiffViews.{list_data};
ghost use Rattle.jass_base.specs.Lists.{HasDocsBelow};
ghost use Rattle.ciff_read.specs.Private.Finishing.{finished};
ghost use Rattle.ciff_read.specs.Refusals.{Answers};
ghost use Rattle.jass_base.specs.declared.limits.TheConstants.{LONGEST_TERM, MOST_POSTINGS};

use crate::gathered::Gathered;
use crate::refusal::{CiffFault, CiffWhy, refused};
use jass_base::{PostingsList, Text};
use std::alloc::Global;

/// A list whose fields were walked, and whose term is a text that isn't too long. What is
/// left to judge is whether the term is new, then the numbers, then the postings.
#[derive(Drop)]
pub struct WalkedList<'a> {
    pub term: &'a str,
    pub df: u64,
    pub cf: u64,
    pub gathered: Gathered,
}

impl<'a> WalkedList<'a> {
    /// The list of the message at `at`, where nothing is left to refuse.
    pub fn finish(self, alloc: Global, at: usize, is_new: bool) -> Result<PostingsList, CiffFault>
        requires { length self.term.now ≤ LONGEST_TERM }
        ensures exact { Answers list_data result (finished (not is_new) at self.entry) }
        ensures new { OnOk result (is_new ≡ true) }
        ensures term { IfOk result (λ list. list.term ≡ self.entry.term.now) }
        ensures few { IfOk result (λ list. self.entry.gathered.before + length list.postings ≤ MOST_POSTINGS) }
        ensures below { IfOk result (HasDocsBelow self.entry.gathered.docs) }
    {
        let WalkedList {
            term,
            df,
            cf,
            gathered,
        } = self;
        if !is_new {
            return Err(refused(at, CiffWhy::TermTwice));
        }
        if df >= 1 << 63 || cf >= 1 << 63 {
            return Err(refused(at, CiffWhy::Range));
        }
        if let Some(refusal) = gathered.refusal {
            return Err(CiffFault::Refused(refusal));
        }
        let Ok(term) = Text::from_str(alloc, term) else {
            return Err(CiffFault::NoMemory);
        };
        let Gathered { postings, .. } = gathered;
        Ok(PostingsList {
            term,
            df,
            cf,
            postings,
        })
    }
}
