ghost use Rattle.std.specs.Prelude.{◌≡◌, ◌+◌, ◌≤◌, false, true, IfOk, if◌then◌else◌};
ghost use Rattle.jass_base.specs.declared.limits.TheConstants.{MOST_HITS};
ghost use Rattle.max_score.specs.Searches.{AreKnown, IsSearchOf, IsSearchOver, exhaustive_answer, query_postings};

use crate::candidates::Candidates;
use crate::filling::{new_lists, read_lists};
use crate::starting::first_threshold;
use crate::term_list::TermList;
use crate::walk::walk;
use index_file::Source;
use index_model::laws::the_plan_has_the_named_segments;
use jass_base::{Hit, NoMemory, Query, QueryTerm, Row, Steps};
use ranking_model::laws::a_plan_has_the_segments_of_its_postings;
use std::alloc::Global;
use std::marker::Model;
use std::sync::ledger::Ledger;

/// The first k documents of a query by all its postings, found document at a time.
#[derive(Drop)]
pub struct MaxScore {
    docs: u32,
    terms: Row<QueryTerm>,
    lists: Vec<TermList>,
    best: Candidates,
    answered: bool,
}

impl Model for MaxScore {
    ghost use Rattle.max_score.specs.Private.Unread.{IsKept};
    ghost use Rattle.max_score.specs.Searches.{SearchView};

    ghost Value = { SearchView };

    ghost view = { λ s. record {
      docs = s.docs;
      terms = s.terms;
      k = s.best.k;
      answered = s.answered;
      hits = s.best.hits.items;
    } };

    ghost invariant = { λ s. IsKept s.docs s.terms s.lists.items s.best s.answered };
}

impl MaxScore {
    /// A search that has no answer yet. k is 1 to 100,000. No other call takes memory.
    pub fn new<S: Source>(
        alloc: Global,
        source: &S,
        query: &Query,
        k: u32,
    ) -> Result<MaxScore, NoMemory>
        requires known { AreKnown (S.index source.now) query.now.terms }
        requires some { 1 ≤ k }
        requires few { k ≤ MOST_HITS }
        ensures over { IfOk result (λ search. IsSearchOver search (S.index source.now)) }
        ensures terms { IfOk result (λ search. search.terms ≡ query.now.terms) }
        ensures k { IfOk result (λ search. search.k ≡ k) }
        ensures unanswered { IfOk result (λ search. search.answered ≡ false) }
    {
        let mut terms = Row::new(alloc);
        terms.extend(query.terms.as_slice())?;
        let lists = new_lists(alloc, source, query.terms.as_slice())?;
        let best = Candidates::new(alloc, k)?;
        Ok(MaxScore {
            docs: source.docs(),
            terms,
            lists,
            best,
            answered: false,
        })
    }

    /// Finds the answer: reads all postings of the query's terms, which are counted as steps, and scores those
    /// documents that may be among the first k. Does nothing where the answer has been found before.
    pub fn answer<S: Source, L: Ledger>(&mut self, source: &S, steps: &mut Steps<L>)
        requires { IsSearchOver self.old (S.index source.now) }
        ensures over { IsSearchOver self.new (S.index source.now) }
        ensures answered { self.new.answered ≡ true }
        ensures hits { self.new.hits ≡ exhaustive_answer (S.index source.now) self.old.terms self.old.k }
        ensures same { IsSearchOf self.old self.new }
        ensures steps { steps.new
            ≡ steps.old + (if self.old.answered then 0 else query_postings (S.index source.now) self.old.terms) }
    {
        if self.answered {
            return;
        }
        a_plan_has_the_segments_of_its_postings();
        the_plan_has_the_named_segments();
        source.is_searchable();
        read_lists(&mut self.lists, source, steps);
        self.best.threshold = first_threshold(&self.lists, source, self.best.k);
        walk(&self.lists, self.docs, &mut self.best);
        self.best.finish();
        self.answered = true;
    }

    /// The answer, by falling score, then rising document; empty before it has been found.
    pub fn hits(&self) -> &[Hit]
        ensures { result.now ≡ self.now.hits }
    {
        self.best.hits.as_slice()
    }
}
