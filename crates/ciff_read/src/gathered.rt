ghost use Rattle.std.specs.Prelude.{◌≡◌, ◌≤◌};
ghost use Rattle.ciff_read.specs.Private.Kept.{AreKept};
ghost use Rattle.ciff_read.specs.Judging.{judge};
ghost use Rattle.jass_base.specs.declared.limits.TheConstants.{MOST_DOCUMENTS, MOST_POSTINGS};

use crate::posting_fields::PostingFields;
use crate::refusal::{CiffRefusal, CiffWhy};
use crate::usual::{POSTING_TAG, usual_posting};
use jass_base::limits::MOST_POSTINGS;
use jass_base::{NoMemory, Posting, Row};
use std::alloc::Global;
use std::mem::replace;

/// The postings of a list so far, in rising order, and the first refusal among them.
#[derive(Drop)]
pub struct Gathered {
    pub postings: Row<Posting>,
    /// The last document; 0 where there is none yet.
    pub last: u32,
    /// The number of documents of the file.
    pub docs: u32,
    /// The postings of the lists before.
    pub before: u64,
    /// Nothing is put in after it.
    pub refusal: Option<CiffRefusal>,
    pub ghost kept: { AreKept docs before last postings },
}

impl Gathered {
    ghost use Rattle.std.specs.Prelude.{length, take, IfOk, OnOk, []};
    ghost use Rattle.ciff_read.specs.Judging.{gather};
    ghost use Rattle.ciff_read.specs.Private.Places.{gathered_of, GathersRun};

    /// No postings yet, and room for so many, in the memory of the spare vector, which is left empty.
    pub fn with_room(
        alloc: Global,
        spare: &mut Vec<Posting>,
        docs: u32,
        before: u64,
        room: usize,
    ) -> Result<Gathered, NoMemory>
        requires docs { docs ≤ MOST_DOCUMENTS }
        requires before { before ≤ MOST_POSTINGS }
        ensures empty { IfOk result (λ gathered. gathered_of gathered ≡ Ok []) }
        ensures docs { IfOk result (λ gathered. gathered.docs ≡ docs) }
        ensures before { IfOk result (λ gathered. gathered.before ≡ before) }
    {
        let mut postings = replace(spare, Vec::new(alloc));
        postings.clear();
        match postings.reserve(room) {
            Ok(()) => Ok(Gathered {
                postings: Row::from_vec(postings),
                last: 0,
                docs,
                before,
                refusal: None,
            }),
            Err(_) => Err(NoMemory),
        }
    }

    /// Puts the next posting in, or keeps the refusal of it at its place in the file.
    #[inline(always)]
    pub fn take(&mut self, at: usize, entry: PostingFields) -> Result<(), NoMemory>
        ensures gathered { OnOk result (gathered_of self.new
            ≡ gather self.old.docs self.old.before (gathered_of self.old) (record { at = at; entry = entry })) }
        ensures docs { self.new.docs ≡ self.old.docs }
        ensures before { self.new.before ≡ self.old.before }
    {
        if self.refusal.is_some() {
            return Ok(());
        }
        match self.judge(entry) {
            Ok(posting) => {
                match self.postings.push(posting) {
                    Ok(()) => {}
                    Err((_, refused)) => return Err(refused),
                }
                self.last = posting.doc;
                Ok(())
            }
            Err(why) => {
                self.refusal = Some(CiffRefusal { at: at as u64, why });
                Ok(())
            }
        }
    }

    /// Takes the postings in their usual spelling that stand one behind the other from a place
    /// to another, up to the first that is refused or that there is no room for, and gives the place
    /// behind them. Bytes behind the second place are looked at, and don't count.
    pub fn take_run(&mut self, alloc: Global, bytes: &[u8], from: usize, end: usize) -> usize
        requires forward { from ≤ end }
        requires within { end ≤ length bytes.now }
        ensures run { GathersRun (take end bytes.now) from result self.old self.new }
        ensures docs { self.new.docs ≡ self.old.docs }
        ensures before { self.new.before ≡ self.old.before }
    {
        if from == end || bytes[from] != POSTING_TAG {
            return from;
        }
        if self.refusal.is_some() {
            return from;
        }
        // The loop has all that it changes in locals, which stay in registers.
        let mut last = u64::from(replace(&mut self.last, 0));
        let mut postings = replace(&mut self.postings, Row::new(alloc)).into_vec();
        let docs = u64::from(self.docs);
        let room = postings
            .capacity()
            .min((MOST_POSTINGS - self.before) as usize);
        // Each takes six bytes or more: so there is room for those before this place.
        let stop = (from + 6 * room.saturating_sub(postings.len()))
            .min(end)
            .min(bytes.len().saturating_sub(7));
        let mut at = from;
        'run: while at < stop {
            let Some((entry, next)) = usual_posting(bytes, at, end) else {
                break;
            };
            let doc = last + entry.docid;
            if doc >= docs {
                break;
            }
            last = doc;
            postings.push_reserved(Posting {
                doc: doc as u32,
                tf: entry.tf as u32,
            });
            at = next;
        }
        self.last = last as u32;
        self.postings = Row::from_vec(postings);
        at
    }

    /// The next posting, or why it is refused.
    #[inline(always)]
    fn judge(&self, entry: PostingFields) -> Result<Posting, CiffWhy>
        ensures { result ≡ judge self.now.docs self.now.before self.now.postings entry }
    {
        if entry.docid >= 1 << 31 || entry.tf >= 1 << 31 {
            return Err(CiffWhy::Range);
        }
        if entry.tf == 0 {
            return Err(CiffWhy::Tf);
        }
        if entry.docid == 0 && !self.postings.is_empty() {
            return Err(CiffWhy::Gap);
        }
        let doc = u64::from(self.last) + entry.docid;
        if doc >= u64::from(self.docs) {
            return Err(CiffWhy::DocRange);
        }
        if self.before + self.postings.len() as u64 >= MOST_POSTINGS {
            return Err(CiffWhy::Limit);
        }
        Ok(Posting {
            doc: doc as u32,
            tf: entry.tf as u32,
        })
    }
}
