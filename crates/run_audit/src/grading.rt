ghost use Rattle.std.specs.Prelude.{◌≡◌, ℕ, List};
ghost use Rattle.ranking_model.specs.Scores.{standing_of};
ghost use Rattle.ranking_model.specs.Finality.{IsGrade};
ghost use Rattle.run_audit.specs.Private.Grading.{grade_by, is_safe, is_safe_from, are_safe, ends_safe, unscored, do_documents_stay};

use jass_base::{Grade, Hit};

/// What the unscored postings can still change of the first `k` documents, where none of them
/// adds more than `bound` to a document. `runner_up` is the hit behind the `hits`, and
/// `least_untouched` the least document without a score.
#[tactic(auto, unfolding(crate::specs::Private::Grading::grade_by))]
pub fn grade(
    hits: &[Hit],
    runner_up: Option<Hit>,
    least_untouched: Option<u32>,
    k: u32,
    bound: u32,
) -> Grade
    ensures rule { result ≡
        grade_by k bound (record { hits = hits.now; runner_up = runner_up; least_untouched = least_untouched }) }
    ensures graded { (scores : List ℕ) →
        standing_of scores k ≡ record { hits = hits.now; runner_up = runner_up; least_untouched = least_untouched } →
        IsGrade scores k bound result }
{
    if bound == 0 {
        return Grade::Final;
    }
    if !documents_stay(hits, runner_up, least_untouched, k, bound) {
        return Grade::Open;
    }
    if order_stays(hits, bound) {
        Grade::Final
    } else {
        Grade::Set
    }
}

/// Whether no other document can enter: behind the last of k hits each stays behind it, and where
/// there are fewer hits any gain brings in a document without a score.
fn documents_stay(
    hits: &[Hit],
    runner_up: Option<Hit>,
    least_untouched: Option<u32>,
    k: u32,
    bound: u32,
) -> bool
    ensures { result ≡ do_documents_stay k bound hits.now runner_up least_untouched }
{
    if hits.len() < k as usize {
        return least_untouched.is_none();
    }
    last_stays_before(hits, runner_up, bound)
        && last_stays_before(hits, unscored(least_untouched), bound)
}

/// A document without a score, as the weakest hit that it could be.
fn unscored(doc: Option<u32>) -> Option<Hit>
    ensures { result ≡ unscored doc }
{
    match doc {
        Some(doc) => Some(Hit { doc, score: 0 }),
        None => None,
    }
}

fn last_stays_before(hits: &[Hit], behind: Option<Hit>, bound: u32) -> bool
    ensures { result ≡ ends_safe bound hits.now behind }
{
    match hits.last() {
        Some(last) => stays_before_any(*last, behind, bound),
        None => true,
    }
}

/// Whether no hit can pass the one before it.
fn order_stays(hits: &[Hit], bound: u32) -> bool
    ensures { result ≡ are_safe bound hits.now }
{
    for next in 1..hits.len() {
        if !stays_before(hits[next - 1], hits[next], bound) {
            return false;
        }
    }
    true
}

fn stays_before_any(ahead: Hit, behind: Option<Hit>, bound: u32) -> bool
    ensures { result ≡ is_safe_from bound ahead behind }
{
    match behind {
        Some(behind) => stays_before(ahead, behind, bound),
        None => true,
    }
}

/// Whether `ahead` ranks before `behind` even where only `behind` gains, and gains the bound.
fn stays_before(ahead: Hit, behind: Hit, bound: u32) -> bool
    ensures { result ≡ is_safe bound ahead behind }
{
    let reach = u64::from(behind.score) + u64::from(bound);
    let score = u64::from(ahead.score);
    score > reach || score == reach && ahead.doc < behind.doc
}
