ghost use Rattle.std.specs.Prelude.{◌≡◌, ℕ, ◌<◌, ◌≤◌, true, false, Some, All, length, slice_index};
ghost use Rattle.jass_base.specs.declared.answer.Hit.{Hit};
ghost use Rattle.final_certificate.specs.Rule.{ends_safe, is_safe};
ghost use Rattle.ranking_model.specs.Scores.{first_ranked};
ghost use Rattle.session_scores.specs.Scores.{IsSettled, ScoresStand, docs_of, k_of, scores_of};
ghost use Rattle.sharp_bounds.specs.Rule.{are_safe_within, do_others_stay, do_untouched_stay, ranked_behind, settles};
ghost use Rattle.sharp_search.specs.Deciding.{limits_of, stays_out};

use frame_pool::FramePool;
use jass_base::Hit;
use ranking_model::laws::the_ranking_has_documents_of_the_scores;
use session_scores::Scores;
use sharp_bounds::{Masks, unseen_sum};

/// Whether no gains can change the first k documents or their order, where nobody gains more than the bound, nor more
/// than the next weights of the terms whose bits its mask hasn't.
#[tactic(auto, unfolding(sharp_bounds::specs::Rule::settles))]
pub fn is_settled(
    scores: &Scores,
    pool: &FramePool,
    masks: &Masks,
    weights: &[u32],
    docs: u32,
    k: u32,
    bound: u32,
) -> bool
    requires stand { ScoresStand scores.now pool.now }
    requires settled { IsSettled scores.now pool.now }
    requires docs { docs_of scores.now ≡ docs }
    requires asked { k_of scores.now ≡ k }
    requires some { 1 ≤ k }
    requires masks { length masks.now.masks ≡ docs }
    requires few { length weights.now ≤ 64 }
    ensures { result ≡ settles k bound (limits_of masks.now.masks weights.now) (scores_of scores.now pool.now) }
{
    if bound == 0 {
        return true;
    }
    if !hits_stay(scores, pool, masks, weights, docs, k) {
        return false;
    }
    if !untouched_stay(scores.hits(), scores.least_untouched(pool), k, bound) {
        return false;
    }
    others_stay(scores, pool, masks, weights, docs, k)
}

/// Whether no hit can pass the one before it.
fn hits_stay(
    scores: &Scores,
    pool: &FramePool,
    masks: &Masks,
    weights: &[u32],
    docs: u32,
    k: u32,
) -> bool
    requires stand { ScoresStand scores.now pool.now }
    requires settled { IsSettled scores.now pool.now }
    requires docs { docs_of scores.now ≡ docs }
    requires asked { k_of scores.now ≡ k }
    requires masks { length masks.now.masks ≡ docs }
    requires few { length weights.now ≤ 64 }
    ensures { result ≡ are_safe_within (slice_index (limits_of masks.now.masks weights.now))
        (first_ranked (scores_of scores.now pool.now) k) }
{
    the_ranking_has_documents_of_the_scores();
    order_stays(scores.hits(), masks, weights)
}

fn order_stays(hits: &[Hit], masks: &Masks, weights: &[u32]) -> bool
    requires inside { All (λ (hit : Hit). hit.doc < length masks.now.masks) hits.now }
    requires few { length weights.now ≤ 64 }
    ensures { result ≡ are_safe_within (slice_index (limits_of masks.now.masks weights.now)) hits.now }
{
    for next in 1..hits.len() {
        let limit = limit_of(masks, weights, hits[next].doc);
        if !stays_before(hits[next - 1], hits[next], limit) {
            return false;
        }
    }
    true
}

/// Whether no document without a score can enter.
fn untouched_stay(hits: &[Hit], least: Option<u32>, k: u32, bound: u32) -> bool
    ensures { result ≡ do_untouched_stay k bound hits.now least }
{
    if hits.len() < k as usize {
        return least.is_none();
    }
    match least {
        Some(doc) => last_stays_before(hits, doc, bound),
        None => true,
    }
}

/// Whether the last hit stays before a document without a score.
fn last_stays_before(hits: &[Hit], doc: u32, bound: u32) -> bool
    ensures { result ≡ ends_safe bound hits.now (Some (record { doc = doc; score = 0 })) }
{
    match hits.last() {
        Some(last) => stays_before(*last, Hit { doc, score: 0 }, u64::from(bound)),
        None => true,
    }
}

/// Whether no document with a score that isn't a hit can enter.
fn others_stay(
    scores: &Scores,
    pool: &FramePool,
    masks: &Masks,
    weights: &[u32],
    docs: u32,
    k: u32,
) -> bool
    requires stand { ScoresStand scores.now pool.now }
    requires settled { IsSettled scores.now pool.now }
    requires docs { docs_of scores.now ≡ docs }
    requires asked { k_of scores.now ≡ k }
    requires some { 1 ≤ k }
    requires masks { length masks.now.masks ≡ docs }
    requires few { length weights.now ≤ 64 }
    ensures { result ≡ do_others_stay (slice_index (limits_of masks.now.masks weights.now))
        (first_ranked (scores_of scores.now pool.now) k) (ranked_behind (scores_of scores.now pool.now) k) }
{
    let hits = scores.hits();
    if hits.len() < k as usize {
        return true;
    }
    match hits.last() {
        Some(last) => none_enters(scores, pool, masks, weights, docs, *last),
        None => true,
    }
}

/// Whether each document stays out, where this is the last hit.
fn none_enters(
    scores: &Scores,
    pool: &FramePool,
    masks: &Masks,
    weights: &[u32],
    docs: u32,
    last: Hit,
) -> bool
    requires stand { ScoresStand scores.now pool.now }
    requires docs { docs_of scores.now ≡ docs }
    requires masks { length masks.now.masks ≡ docs }
    requires few { length weights.now ≤ 64 }
    ensures stay { result ≡ true → (doc : ℕ) → doc < docs
        → stays_out (slice_index (limits_of masks.now.masks weights.now)) (scores_of scores.now pool.now) last doc ≡ true }
    ensures enters { result ≡ false → (doc : ℕ) × (doc < docs)
        × (stays_out (slice_index (limits_of masks.now.masks weights.now)) (scores_of scores.now pool.now) last doc ≡ false) }
{
    for doc in 0..docs {
        if !stays_out(scores, pool, masks, weights, last, doc) {
            return false;
        }
    }
    true
}

fn stays_out(
    scores: &Scores,
    pool: &FramePool,
    masks: &Masks,
    weights: &[u32],
    last: Hit,
    doc: u32,
) -> bool
    requires stand { ScoresStand scores.now pool.now }
    requires inside { doc < docs_of scores.now }
    requires masks { doc < length masks.now.masks }
    requires few { length weights.now ≤ 64 }
    ensures { result ≡ stays_out (slice_index (limits_of masks.now.masks weights.now))
        (scores_of scores.now pool.now) last doc }
{
    let score = scores.score(pool, doc);
    if score == 0 {
        return true;
    }
    let hit = Hit { doc, score };
    !stays_before(last, hit, 0) || stays_before(last, hit, limit_of(masks, weights, doc))
}

/// What a document may still gain.
fn limit_of(masks: &Masks, weights: &[u32], doc: u32) -> u64
    requires inside { doc < length masks.now.masks }
    requires few { length weights.now ≤ 64 }
    ensures { result ≡ slice_index (limits_of masks.now.masks weights.now) doc }
{
    unseen_sum(masks.mask(doc), weights)
}

/// Whether `ahead` ranks before `behind` even where only `behind` gains, and gains the limit.
fn stays_before(ahead: Hit, behind: Hit, limit: u64) -> bool
    ensures { result ≡ is_safe limit ahead behind }
{
    if ahead.score < behind.score {
        return false;
    }
    let gap = u64::from(ahead.score - behind.score);
    gap > limit || gap == limit && ahead.doc < behind.doc
}
