// The first documents as scores rise, where they tie. Hits put in order by counting passes.
ghost use Rattle.std.specs.Prelude.{◌≡◌, ◌+◌, ◌*◌, ◌<◌, ◌≤◌, All, IsTrue, length, replicate};
ghost use Rattle.lane_kernels.specs.Bitmap.{set_bits};
ghost use Rattle.session_scores.specs.Scores.{ScoresStand, docs_of, own_view, scores_of};

use frame_pool::FramePool;
use jass_base::{Hit, NoMemory};
use lane_kernels::bits_to_docs;
use session_scores::Scores;
use std::alloc::Global;
use std::marker::Model;
use std::process::Abort;

/// The scores of so many documents in a pool of their own, all of whose frames are promised to them. None is above
/// `most`.
struct Scored {
    pool: FramePool,
    scores: Scores,
    docs: u32,
    frames: u32,
    most: u32,
}

impl Model for Scored {
    ghost use Rattle.std.specs.Prelude.{ℕ, ◌≡◌, ◌≤◌, All};
    ghost use Rattle.session_scores.specs.Scores.{ScoresStand, docs_of, own_view, scores_of};

    ghost Value = { ℕ };

    ghost view = { λ s. s.docs };

    ghost invariant = { λ s. (docs_of s.scores ≡ s.docs) × (((own_view s.scores s.pool).promise ≡ s.frames)
        × (ScoresStand s.scores s.pool × All (λ score. score ≤ s.most) (scores_of s.scores s.pool))) };
}

/// Scores of 0, to which all frames of a pool are promised.
fn promised(
    rt: &impl Abort,
    alloc: Global,
    pool: &mut FramePool,
    frames: u32,
    docs: u32,
    k: u32,
) -> Scores
    requires some { 1 ≤ k }
    requires few { k ≤ 279 }
    ensures stand { ScoresStand result pool.new }
    ensures docs { docs_of result ≡ docs }
    ensures promise { (own_view result pool.new).promise ≡ frames }
    ensures scores { scores_of result pool.new ≡ replicate docs 0 }
{
    let chain = pool.promise(frames).expect(rt, "refused");
    match Scores::new(alloc, docs, k, pool, chain) {
        Ok(scores) => scores,
        Err((chain, NoMemory)) => {
            pool.give_back(chain);
            panic!(rt; "no memory")
        }
    }
}

/// Scores of 0 in a pool of so many frames.
fn opened(rt: &impl Abort, alloc: Global, frames: u32, docs: u32, k: u32) -> Scored
    requires frames { frames ≤ 402 }
    requires some { 1 ≤ k }
    requires few { k ≤ 279 }
{
    let mut pool = FramePool::new(alloc, frames, 1).expect(rt, "no memory");
    let scores = promised(rt, alloc, &mut pool, frames, docs, k);
    Scored {
        pool,
        scores,
        docs,
        frames,
        most: 0,
    }
}

/// What no score is above once a weight is added to these documents, of which there are at most 128 out of so many.
fn most_after(rt: &impl Abort, docs: &[u32], w: u32, most: u32, limit: u32) -> u32
    ensures block { length docs.now ≤ 128 }
    ensures inside { All (λ doc. doc < limit) docs.now }
    ensures weight { 1 ≤ w }
    ensures most { result ≡ most + w * length docs.now }
{
    assert!(rt; docs.len() <= 128 && are_below(docs, limit) && 1 <= w);
    let gain = w.checked_mul(docs.len() as u32).expect(rt, "too much");
    most.checked_add(gain).expect(rt, "too much")
}

/// Whether all documents are below a limit.
fn are_below(docs: &[u32], limit: u32) -> bool
    ensures { IsTrue result → All (λ doc. doc < limit) docs.now }
{
    docs.iter().all(|doc| *doc < limit)
}

/// What no score is above once a weight is added to the documents of a row whose bits are set.
fn most_after_bits(rt: &impl Abort, row: u32, bits: &[u8], w: u32, most: u32, limit: u32) -> u32
    ensures row { row ≤ 1 }
    ensures few { length bits.now ≤ 16 }
    ensures inside { All (λ doc. doc < limit) (set_bits (128 * row) bits.now) }
    ensures weight { 1 ≤ w }
    ensures most { result ≡ most + w * length (set_bits (128 * row) bits.now) }
{
    assert!(rt; row <= 1 && bits.len() <= 16);
    let mut block = [0u32; 128];
    let count = bits_to_docs(bits, 128 * row, &mut block);
    assert!(rt; count <= 128);
    most_after(rt, &block[..count], w, most, limit)
}

/// Adds a weight to the scores of some documents.
fn add_some(rt: &impl Abort, scored: &mut Scored, docs: &[u32], w: u32) {
    assert!(rt; scored.docs.div_ceil(256) <= scored.frames);
    let most = most_after(rt, docs, w, scored.most, scored.docs);
    scored.scores.add_all(&mut scored.pool, docs, w);
    scored.most = most;
}

/// Adds a weight where bits are set.
fn add_bits(rt: &impl Abort, scored: &mut Scored, row: u32, bits: &[u8], w: u32) {
    assert!(rt; scored.docs.div_ceil(256) <= scored.frames);
    let most = most_after_bits(rt, row, bits, w, scored.most, scored.docs);
    scored.scores.add_bits(&mut scored.pool, row, bits, w);
    scored.most = most;
}

/// Adds a weight to the score of one document.
fn add_one(rt: &impl Abort, scored: &mut Scored, doc: u32, w: u32) {
    assert!(rt; scored.scores.frames() < scored.frames);
    let most = most_after(rt, &[doc], w, scored.most, scored.docs);
    scored.scores.add(&mut scored.pool, doc, w);
    scored.most = most;
}

/// Settles the first documents.
fn settle(scored: &mut Scored) {
    scored.scores.settle(&mut scored.pool);
}

/// Adds a weight to the scores of some documents, and settles the first ones.
fn add(rt: &impl Abort, scored: &mut Scored, docs: &[u32], w: u32) {
    add_some(rt, scored, docs, w);
    settle(scored);
}

/// Adds a weight where bits of a byte are set, and settles the first documents.
fn add_byte(rt: &impl Abort, scored: &mut Scored, byte: u8, w: u32) {
    add_bits(rt, scored, 0, &[byte], w);
    settle(scored);
}

/// Adds a weight to all scores of a row of 128 documents.
fn add_row(rt: &impl Abort, scored: &mut Scored, row: u32, w: u32) {
    add_bits(rt, scored, row, &[255; 16], w);
}

/// Gives the frames back.
fn close(scored: Scored) {
    let Scored {
        mut pool,
        scores,
        docs: _,
        frames: _,
        most: _,
    } = scored;
    pool.give_back(scores.into_chain());
    drop(pool);
}

/// The first hits are these.
fn check_hits(rt: &impl Abort, scored: &Scored, hits: &[Hit]) {
    assert!(rt; scored.scores.hits() == hits);
}

/// This hit is behind the first ones.
fn check_next(rt: &impl Abort, scored: &Scored, next: Option<Hit>) {
    assert!(rt; scored.scores.runner_up() == next);
}

/// So many frames are taken.
fn check_frames(rt: &impl Abort, scored: &Scored, frames: u32) {
    assert!(rt; scored.scores.frames() == frames);
}

/// Document 0 is the least one without a score.
fn check_untouched(rt: &impl Abort, scored: &Scored) {
    assert!(rt; scored.scores.least_untouched(&scored.pool) == Some(0));
}

#[test]
fn bits_are_documents(rt: HostRuntime) {
    let mut scored = opened(&rt, rt.alloc(), 1, 5, 2);
    check_bits(&rt, &mut scored);
    close(scored);
}

/// The first hits once documents 1 and 4 have risen.
const TWO_RISEN: [Hit; 2] = [Hit { doc: 1, score: 4 }, Hit { doc: 4, score: 4 }];

/// The first hits once documents 1, 2 and 3 have risen behind that.
const THREE_RISEN: [Hit; 2] = [Hit { doc: 1, score: 8 }, Hit { doc: 2, score: 4 }];

/// Bits raise the scores of their documents, and take a frame only where one is set.
fn check_bits(rt: &impl Abort, scored: &mut Scored) {
    // No bit: no frame is taken.
    add_byte(rt, scored, 0, 4);
    check_frames(rt, scored, 0);

    add_byte(rt, scored, 0b10010, 4);
    check_hits(rt, scored, &TWO_RISEN);
    check_frames(rt, scored, 1);

    // Documents 2 and 3 reach the score of document 4, and stand before it; document 1 rises too.
    add_byte(rt, scored, 0b01110, 4);
    check_hits(rt, scored, &THREE_RISEN);
    check_next(rt, scored, Some(Hit { doc: 3, score: 4 }));
    check_untouched(rt, scored);
}

/// Documents and their weight, and the first hit and the one behind it once they are settled.
type Addition<'a> = (&'a [u32], u32, Hit, Hit);

const TIE: [Addition<'static>; 1] = [(
    &[3, 1],
    4,
    Hit { doc: 1, score: 4 },
    Hit { doc: 3, score: 4 },
)];

const MORE_TIES: [Addition<'static>; 2] = [
    // Added a second time, document 2 reaches just the last score, and stands before document 3; document 4 would stand
    // behind.
    (
        &[4, 2],
        2,
        Hit { doc: 1, score: 4 },
        Hit { doc: 2, score: 4 },
    ),
    // The first document rises, and passes nobody.
    (&[1], 1, Hit { doc: 1, score: 5 }, Hit { doc: 2, score: 4 }),
];

/// Makes each addition, and finds the hits that stand beside it.
fn check_additions(rt: &impl Abort, scored: &mut Scored, additions: &[Addition<'_>]) {
    for (docs, w, first, next) in additions {
        add(rt, scored, docs, *w);
        check_hits(rt, scored, &[*first]);
        check_next(rt, scored, Some(*next));
    }
}

/// Scores that tie.
fn check_ties(rt: &impl Abort, scored: &mut Scored) {
    check_hits(rt, scored, &[]);
    check_next(rt, scored, None);
    check_additions(rt, scored, &TIE);
    check_untouched(rt, scored);
    add(rt, scored, &[4, 2], 2);
    check_additions(rt, scored, &MORE_TIES);
    check_frames(rt, scored, 1);
}

#[test]
fn ties_go_to_the_lower_document(rt: HostRuntime) {
    let mut scored = opened(&rt, rt.alloc(), 1, 5, 1);
    check_ties(&rt, &mut scored);
    close(scored);
}

/// Documents 128 and 129 stay alone, and those with the same score and a lower number pass them.
const BEHIND_A_CUT: [Addition<'static>; 1] = [(
    &[6, 4, 3],
    1,
    Hit { doc: 3, score: 2 },
    Hit { doc: 4, score: 2 },
)];

const BEHIND_ANOTHER: [Addition<'static>; 1] = [(
    &[4],
    10,
    Hit { doc: 4, score: 12 },
    Hit { doc: 128, score: 7 },
)];

/// Notes of scores that are cut.
fn check_cuts(rt: &impl Abort, scored: &mut Scored) {
    // Each document of a row is noted, and the next row makes a cut: of the first one documents 0 and 1 stay.
    add_row(rt, scored, 0, 1);
    add_row(rt, scored, 1, 2);
    check_additions(rt, scored, &BEHIND_A_CUT);

    // Document 4 of the heap falls behind a cut, and is noted as it passes the last hit again.
    add_row(rt, scored, 1, 5);
    add_some(rt, scored, &[3, 5, 6], 1);
    check_additions(rt, scored, &BEHIND_ANOTHER);
}

#[test]
fn notes_are_cut_between_two_settlings(rt: HostRuntime) {
    let mut scored = opened(&rt, rt.alloc(), 1, 256, 1);
    check_cuts(&rt, &mut scored);
    close(scored);
}

/// Adds so many scores that counting passes put them in order, three for each score, with such steps from document to
/// document and from score to score.
fn add_many(rt: &impl Abort, scored: &mut Scored, step: u32)
    requires { step ≤ 50000 }
{
    for index in 0..402u32 {
        let number = index * 7 % 402;
        add_one(rt, scored, number * step, number / 3 * step + 1);
    }
}

/// The hit at a place; at place 279 it is the one behind the hits.
fn hit_at(scored: &Scored, place: u32) -> Option<Hit> {
    if place < 279 {
        scored.scores.hits().get(place as usize).copied()
    } else {
        scored.scores.runner_up()
    }
}

/// Whether this hit stands at a place.
fn is_at(scored: &Scored, place: u32, hit: Hit) -> bool {
    hit_at(scored, place) == Some(hit)
}

/// These hits are in order.
fn check_order(rt: &impl Abort, scored: &Scored, step: u32)
    requires { step ≤ 50000 }
{
    for place in 0..280u32 {
        let triple = 133 - place / 3;
        let hit = Hit {
            doc: (3 * triple + place % 3) * step,
            score: triple * step + 1,
        };
        assert!(rt; is_at(scored, place, hit));
    }
}

/// Many hits with such steps are put in order.
fn check_many(rt: &impl Abort, alloc: Global, step: u32) {
    assert!(rt; step <= 50_000);
    let mut scored = opened(rt, alloc, 402, 401 * step + 1, 279);
    add_many(rt, &mut scored, step);
    settle(&mut scored);
    check_order(rt, &scored, step);
    close(scored);
}

#[test]
fn many_hits_are_put_in_order(rt: HostRuntime) {
    // One pass for the documents and one for the scores, two, and three.
    for step in [1u32, 10000, 50000] {
        check_many(&rt, rt.alloc(), step);
    }
}
