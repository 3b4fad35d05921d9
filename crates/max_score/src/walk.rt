ghost use Rattle.max_score.specs.declared.term_list.TermList.{TermList};
ghost use Rattle.std.specs.Prelude.{get_or, ◌≡◌, ◌+◌, ◌<◌, ◌≤◌, ℕ, All, IfSome, IsNone, length, take};
ghost use Rattle.std.specs.Int.{bit_at};
ghost use Rattle.max_score.specs.Private.Lists.{AreBounded, most_of, score_in, scores_in};
ghost use Rattle.max_score.specs.Private.Room.{HasRoom};
ghost use Rattle.max_score.specs.Private.Standing.{IsPassed};
ghost use Rattle.max_score.specs.Private.Walking.{HasMet};

use crate::candidates::Candidates;
use crate::term_list::TermList;
use jass_base::Hit;

/// Takes in all documents that may be among the first.
pub fn walk(lists: &[TermList], docs: u32, best: &mut Candidates)
    requires bounded { AreBounded lists.now }
    requires covers { All (λ (list : TermList). list.cursor.docs ≡ docs) lists.now }
    requires begun { HasMet docs lists.now 0 best.old }
    requires room { HasRoom best.old }
    ensures met { HasMet docs lists.now docs best.new }
    ensures k { best.new.k ≡ best.old.k }
{
    let from = walk_windows(lists, docs, best);
    'rest: for doc in from..docs {
        consider(lists, doc, best);
    }
}

/// Takes in those of the documents in front of the one that it answers, by windows of 64.
fn walk_windows(lists: &[TermList], docs: u32, best: &mut Candidates) -> u32
    requires bounded { AreBounded lists.now }
    requires covers { All (λ (list : TermList). list.cursor.docs ≡ docs) lists.now }
    requires begun { HasMet docs lists.now 0 best.old }
    requires room { HasRoom best.old }
    ensures within { result ≤ docs }
    ensures met { HasMet docs lists.now result best.new }
    ensures room { HasRoom best.new }
    ensures k { best.new.k ≡ best.old.k }
{
    let mut from = 0;
    'windows: while docs - from >= 64 {
        let first = essential(lists, best.threshold);
        let marks = marks(&lists[first..], from);
        walk_marked(lists, docs, from, marks, best);
        from += 64;
    }
    from
}

/// Takes in those of 64 documents whose mark is set: bit i is that of document `from` + i.
fn walk_marked(lists: &[TermList], docs: u32, from: u32, marks: u64, best: &mut Candidates)
    requires bounded { AreBounded lists.now }
    requires covers { All (λ (list : TermList). list.cursor.docs ≡ docs) lists.now }
    requires within { from + 64 ≤ docs }
    requires begun { HasMet docs lists.now from best.old }
    requires unmarked { (i : ℕ) → i < 64 → bit_at marks i ≡ 0
        → IsPassed (scores_in docs lists.now) best.old.k (from + i) }
    requires room { HasRoom best.old }
    ensures met { HasMet docs lists.now (from + 64) best.new }
    ensures room { HasRoom best.new }
    ensures k { best.new.k ≡ best.old.k }
{
    let mut doc = from;
    let mut ahead = marks;
    'marked: while ahead != 0 {
        let gap = ahead.trailing_zeros();
        consider(lists, doc + gap, best);
        ahead = (ahead >> gap) >> 1;
        doc += gap + 1;
    }
}

/// Takes in a document where its score passes the threshold.
fn consider(lists: &[TermList], doc: u32, best: &mut Candidates)
    requires bounded { AreBounded lists.now }
    requires inside { All (λ (list : TermList). doc < list.cursor.docs) lists.now }
    requires room { HasRoom best.old }
    ensures met { (docs : ℕ) → doc < docs → HasMet docs lists.now doc best.old
        → HasMet docs lists.now (doc + 1) best.new }
    ensures room { HasRoom best.new }
    ensures k { best.new.k ≡ best.old.k }
{
    if let Some(score) = score_of(lists, doc, best.threshold) {
        best.offer(Hit { doc, score });
    }
}

/// The place of the first essential list: those before it together add no more than the threshold.
fn essential(lists: &[TermList], threshold: u32) -> usize
    requires { (i : ℕ) (none : TermList) → i < length lists.now
        → (get_or lists.now i none).bound ≡ most_of (take (i + 1) lists.now) }
    ensures within { result ≤ length lists.now }
    ensures most { most_of (take result lists.now) ≤ threshold }
{
    let mut first = 0;
    'lists: while first < lists.len() && lists[first].bound <= threshold {
        first += 1;
    }
    first
}

/// Which of 64 documents stand in some list: bit i is the mark of document `from` + i.
fn marks(lists: &[TermList], from: u32) -> u64
    requires { All (λ (list : TermList). from + 64 ≤ list.cursor.docs) lists.now }
    ensures { (i : ℕ) → i < 64 → bit_at result i ≡ 0 → score_in lists.now (from + i) ≡ 0 }
{
    let mut marks = 0;
    for list in lists {
        marks |= list.cursor.marks(from);
    }
    marks
}

/// The score of a document, where it passes the threshold.
fn score_of(lists: &[TermList], doc: u32, threshold: u32) -> Option<u32>
    requires bounded { AreBounded lists.now }
    requires inside { All (λ (list : TermList). doc < list.cursor.docs) lists.now }
    ensures score { IfSome result (λ score. (score ≡ score_in lists.now doc) × (threshold < score)) }
    ensures low { IsNone result → score_in lists.now doc ≤ threshold }
{
    let mut score = 0;
    let mut left = lists.len();
    'lists: while left > 0 {
        let list = &lists[left - 1];
        if score + list.bound <= threshold {
            return None;
        }
        score += u32::from(list.cursor.impact(doc)) * u32::from(list.times);
        left -= 1;
    }
    if score > threshold { Some(score) } else { None }
}
