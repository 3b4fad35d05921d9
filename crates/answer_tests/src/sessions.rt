// Sessions over the file of three documents and one term, whose postings weigh 9, 5 and 1.

ghost use Rattle.std.specs.Prelude.{◌≡◌, ◌<◌, ◌≤◌, [], ◌∷◌, IfOk};
ghost use Rattle.session_engine.specs.Plans.{HasFreeNumber};
ghost use Rattle.session_engine.specs.Standing.{SessionStands};

use frame_pool::FramePool;
use index_file::IndexFile;
use jass_base::{Budget, Grade, Hit, Query, QueryTerm, Report, Row, Steps, Text};
use session_engine::laws::a_standing_session_has_its_chain;
use session_engine::{OpenStop, Session, need};
use std::alloc::Global;
use std::marker::{Brand, Model};
use std::process::Abort;
use std::sync::ledger::{Blank, Ledger};

/// Documents d0 to d2; `a`: (0,9), (1,5), (2,1).
const FILE: [u8; 103] = [
    0x4a, 0x41, 0x53, 0x53, 0x49, 0x44, 0x58, 0x32, 0x67, 0x00, 0x00, 0x00, 0x00, 0x00, 0x00, 0x00,
    0x03, 0x00, 0x00, 0x00, 0x01, 0x00, 0x00, 0x00, 0x03, 0x00, 0x00, 0x00, 0x00, 0x00, 0x00, 0x00,
    0x09, 0x00, 0x00, 0x00, 0x00, 0x00, 0x00, 0x00, 0x02, 0x00, 0x00, 0x00, 0x64, 0x30, 0x02, 0x00,
    0x00, 0x00, 0x64, 0x31, 0x02, 0x00, 0x00, 0x00, 0x64, 0x32, 0x00, 0x00, 0x01, 0x00, 0x61, 0x03,
    0x00, 0x00, 0x00, 0x09, 0x00, 0x01, 0x00, 0x00, 0x00, 0x00, 0x01, 0x00, 0x00, 0x00, 0x05, 0x00,
    0x01, 0x00, 0x00, 0x00, 0x00, 0x01, 0x00, 0x00, 0x00, 0x01, 0x00, 0x01, 0x00, 0x00, 0x00, 0x00,
    0x01, 0x00, 0x00, 0x00, 0x00, 0x01, 0x02,
];

/// Documents d0 to d2; `a`: (0,9), (2,9), in a bitmap.
const DENSE: [u8; 79] = [
    0x4a, 0x41, 0x53, 0x53, 0x49, 0x44, 0x58, 0x32, 0x4f, 0x00, 0x00, 0x00, 0x00, 0x00, 0x00, 0x00,
    0x03, 0x00, 0x00, 0x00, 0x01, 0x00, 0x00, 0x00, 0x02, 0x00, 0x00, 0x00, 0x00, 0x00, 0x00, 0x00,
    0x09, 0x00, 0x00, 0x00, 0x00, 0x00, 0x00, 0x00, 0x02, 0x00, 0x00, 0x00, 0x64, 0x30, 0x02, 0x00,
    0x00, 0x00, 0x64, 0x31, 0x02, 0x00, 0x00, 0x00, 0x64, 0x32, 0x00, 0x00, 0x01, 0x00, 0x61, 0x01,
    0x00, 0x00, 0x00, 0x09, 0x00, 0x02, 0x00, 0x00, 0x00, 0x02, 0x01, 0x00, 0x00, 0x00, 0x05,
];

/// The index of a file of these bytes.
fn index_of(rt: &impl Abort, alloc: Global, bytes: &[u8]) -> IndexFile {
    let mut row = Row::new(alloc);
    row.extend(bytes).expect(rt, "no memory");
    IndexFile::from_bytes(alloc, row).expect(rt, "refused")
}

/// The query for the term with number 0.
fn asked(rt: &impl Abort, alloc: Global) -> Query
    ensures { result.terms ≡ record { term = 0; times = 1 } ∷ [] }
{
    Query {
        id: Text::from_str(alloc, "q").expect(rt, "no memory"),
        terms: terms(rt, alloc),
        unknown: 0,
    }
}

/// The term with number 0, named once.
fn terms(rt: &impl Abort, alloc: Global) -> Row<QueryTerm>
    ensures { result ≡ record { term = 0; times = 1 } ∷ [] }
{
    let mut terms = Row::new(alloc);
    terms
        .extend(&[QueryTerm { term: 0, times: 1 }])
        .expect(rt, "no memory");
    terms
}

/// What comes of a session for the one term of a file, of whose frames it needs one.
fn begun(
    rt: &impl Abort,
    alloc: Global,
    file: &IndexFile,
    pool: &mut FramePool,
    k: u32,
) -> Result<Session, OpenStop>
    requires some { 1 ≤ k }
    requires few { k ≤ 3 }
    requires chain { HasFreeNumber pool.old }
    ensures stands { IfOk result (λ session. SessionStands session file.now.index pool.new) }
{
    assert!(rt; file.terms() == 1);
    let query = asked(rt, alloc);
    assert!(rt; need(file, &query) == 1);
    Session::open(alloc, file, pool, query, k)
}

/// A session with its file and a pool.
struct Sitting {
    file: IndexFile,
    pool: FramePool,
    session: Session,
}

impl Model for Sitting {
    ghost use Rattle.std.specs.Prelude.{ℕ};
    ghost use Rattle.session_engine.specs.Standing.{SessionStands, k_of};

    ghost Value = { ℕ };

    ghost view = { λ s. k_of s.session };

    ghost invariant = { λ s. SessionStands s.session s.file.index s.pool };
}

/// A session for the first k documents of a file, in a pool of one frame.
fn opened(rt: &impl Abort, alloc: Global, bytes: &[u8], k: u32) -> Sitting
    requires some { 1 ≤ k }
    requires few { k ≤ 3 }
{
    let file = index_of(rt, alloc, bytes);
    let mut pool = FramePool::new(alloc, 1, 1).expect(rt, "no memory");
    let Ok(session) = begun(rt, alloc, &file, &mut pool, k) else {
        panic!(rt; "refused")
    };
    Sitting {
        file,
        pool,
        session,
    }
}

/// The report of a grant.
fn grant<L: Ledger>(sitting: &mut Sitting, budget: Budget, steps: &mut Steps<L>) -> Report {
    let Sitting {
        file,
        pool,
        session,
    } = sitting;
    session.grant(file, pool, budget, steps)
}

/// The reports of grants of one posting, of one more, and of all.
fn granted<L: Ledger>(sitting: &mut Sitting, blank: Blank) -> [Report; 3]
    requires name { blank.name ≡ L.name }
    requires parts { blank.parts ≡ L.parts }
    requires some { 0 < blank.parts }
{
    let mut steps = Steps::<L>::new(blank);
    let first = grant(sitting, Budget::Postings(1), &mut steps);
    let second = grant(sitting, Budget::Postings(1), &mut steps);
    let last = grant(sitting, Budget::All, &mut steps);
    [first, second, last]
}

/// The same with a ledger of its own.
fn reports(sitting: &mut Sitting) -> [Report; 3] {
    granted::<Brand>(sitting, Blank::new(1))
}

/// A final report of so many segments of one posting each.
fn report(segments: u32, cutoff: u32, next: u32) -> Report {
    Report {
        postings: u64::from(segments),
        segments,
        of: 3,
        cutoff,
        next,
        bound: next,
        grade: Grade::Final,
    }
}

/// Gives a session's frames back.
fn close(session: Session, file: &IndexFile, pool: &mut FramePool)
    requires stands { SessionStands session file.now.index pool.old }
{
    a_standing_session_has_its_chain();
    session.close(pool);
}

/// The pool of a session that gave its frames back.
fn closed(sitting: Sitting) -> FramePool {
    let Sitting {
        file,
        mut pool,
        session,
    } = sitting;
    close(session, &file, &mut pool);
    drop(file);
    pool
}

/// Nothing is scored yet.
fn check_new(rt: &impl Abort, session: &Session) {
    assert!(rt; session.answer().is_empty() && session.frames() == 0);
}

/// A session for one hit has this last report, and the answer of all postings.
fn check_all_postings(rt: &impl Abort, session: &Session, last: Report) {
    assert!(rt; session.report() == last && session.frames() == 1);
    assert!(rt; session.answer() == [Hit { doc: 0, score: 9 }].as_slice());
    assert!(rt; session.query().unknown == 0);
}

/// The reports of three grants.
fn check_grants(rt: &impl Abort, sitting: &mut Sitting) {
    let [first, second, last] = reports(sitting);
    assert!(rt; first == report(1, 9, 5) && second == report(2, 5, 1) && last == report(3, 1, 0));
}

/// A new session has scored nothing. Three grants score all postings, and take the one frame.
fn check_sitting(rt: &impl Abort, sitting: &mut Sitting) {
    check_new(rt, &sitting.session);
    check_grants(rt, sitting);
    check_all_postings(rt, &sitting.session, report(3, 1, 0));
    assert!(rt; sitting.pool.spare() == 0);
}

/// How many frames of the pool are spare once a session gave its own back.
fn spare_behind(sitting: Sitting) -> u32 {
    let pool = closed(sitting);
    let spare = pool.spare();
    drop(pool);
    spare
}

#[test]
fn grants_of_one_posting_and_of_all(rt: HostRuntime) {
    let mut sitting = opened(&rt, rt.alloc(), &FILE, 1);
    check_sitting(&rt, &mut sitting);
    assert!(&rt; spare_behind(sitting) == 1);
}

/// One segment is a bitmap, and two postings are scored in all.
fn check_bitmap(rt: &impl Abort, sitting: &mut Sitting) {
    assert!(rt; sitting.file.codecs().bitmap == 1);
    let [_, second, last] = reports(sitting);
    assert!(rt; second.postings == 2 && last.postings == 2);
}

/// The answer is two hits.
fn check_both(rt: &impl Abort, session: &Session) {
    assert!(rt;
        session.answer() == [Hit { doc: 0, score: 9 }, Hit { doc: 2, score: 9 }].as_slice()
    );
}

#[test]
fn a_bitmap_is_scored(rt: HostRuntime) {
    let mut sitting = opened(&rt, rt.alloc(), &DENSE, 3);
    check_bitmap(&rt, &mut sitting);
    check_both(&rt, &sitting.session);
    drop(closed(sitting));
}

/// Why no session for the first hit of a file is opened.
fn stopped(rt: &impl Abort, alloc: Global, file: &IndexFile, pool: &mut FramePool) -> OpenStop
    requires chain { HasFreeNumber pool.old }
{
    match begun(rt, alloc, file, pool, 1) {
        Ok(session) => {
            close(session, file, pool);
            panic!(rt; "opened")
        }
        Err(stop) => stop,
    }
}

/// A session whose pool has no frame isn't opened.
fn check_full(rt: &impl Abort, alloc: Global) {
    let file = index_of(rt, alloc, &FILE);
    let stop = stopped_without_frames(rt, alloc, &file);
    drop(file);
    assert!(rt; stop == OpenStop::PoolFull { need: 1, free: 0 });
}

/// Why no session is opened in a pool without frames.
fn stopped_without_frames(rt: &impl Abort, alloc: Global, file: &IndexFile) -> OpenStop {
    let mut pool = FramePool::new(alloc, 0, 1).expect(rt, "no memory");
    let stop = stopped(rt, alloc, file, &mut pool);
    drop(pool);
    stop
}

#[test]
fn a_pool_without_spare_frames_is_full(rt: HostRuntime) {
    check_full(&rt, rt.alloc());
}
