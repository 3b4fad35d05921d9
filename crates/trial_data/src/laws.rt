//! Laws of the definitions. Each function does nothing: its contract is the law, and a caller
//! learns it by the call.

ghost use Rattle.std.specs.Prelude.{ℕ, ◌≡◌, ◌+◌, ◌<◌, ◌≤◌, length, All};
ghost use Rattle.std.specs.List.Sorted.{IsStrictlyIncreasing};
ghost use Rattle.jass_base.specs.declared.posting.Posting.{Posting};
ghost use Rattle.jass_base.specs.Postings.{docs_of};
ghost use Rattle.trial_data.specs.Generator.{next_state};
ghost use Rattle.trial_data.specs.Trials.{none_behind, posting_behind, postings_from, put_posting, term_postings};

/// Postings are drawn one after another up to the first draw that gives no document, whatever the
/// number of documents that may be left: it is there so that the definition ends.
pub fn postings_are_drawn_in_turn()
    ensures more { (docs term left from state : ℕ) → docs ≤ from + left → (posting_behind term from state).doc < docs
        → postings_from docs term left from state ≡ put_posting (posting_behind term from state)
        (postings_from docs term left ((posting_behind term from state).doc + 1) (next_state (next_state state))) }
    ensures end { (docs term left from state : ℕ) → docs ≤ (posting_behind term from state).doc
        → postings_from docs term left from state ≡ none_behind state }
{}

/// The postings of a term are those of a postings list: documents rise and are the collection's, and
/// a tf is from 1 to 8.
pub fn postings_are_those_of_a_list()
    ensures rising { (docs term state : ℕ) → IsStrictlyIncreasing (docs_of (term_postings docs term state).postings) }
    ensures below { (docs term state : ℕ) → All (λ doc. doc < docs) (docs_of (term_postings docs term state).postings) }
    ensures tf { (docs term state : ℕ)
        → All (λ (p : Posting). (1 ≤ p.tf) × (p.tf ≤ 8)) (term_postings docs term state).postings }
    ensures few { (docs term state : ℕ) → length (term_postings docs term state).postings ≤ docs }
{}
