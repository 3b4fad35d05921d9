// Several files searched as one.

ghost use Rattle.std.specs.Prelude.{◌≡◌, ◌<◌};

use frame_pool::FramePool;
use index_file::IndexFile;
use jass_base::{Budget, Hit, Names, Report, Row, Steps};
use query_reader::{Mode, read_terms};
use session_engine::Session;
use shard_search::Shards;
use std::alloc::Global;
use std::marker::Brand;
use std::process::Abort;
use std::sync::ledger::{Blank, Ledger};

/// Documents d0 to d2; `a`: (0,9), (1,5), (2,1).
const FILE: [u8; 103] = [
    0x4a, 0x41, 0x53, 0x53, 0x49, 0x44, 0x58, 0x32, 0x67, 0x00, 0x00, 0x00, 0x00, 0x00, 0x00, 0x00,
    0x03, 0x00, 0x00, 0x00, 0x01, 0x00, 0x00, 0x00, 0x03, 0x00, 0x00, 0x00, 0x00, 0x00, 0x00, 0x00,
    0x09, 0x00, 0x00, 0x00, 0x00, 0x00, 0x00, 0x00, 0x02, 0x00, 0x00, 0x00, 0x64, 0x30, 0x02, 0x00,
    0x00, 0x00, 0x64, 0x31, 0x02, 0x00, 0x00, 0x00, 0x64, 0x32, 0x00, 0x00, 0x01, 0x00, 0x61, 0x03,
    0x00, 0x00, 0x00, 0x09, 0x00, 0x01, 0x00, 0x00, 0x00, 0x00, 0x01, 0x00, 0x00, 0x00, 0x05, 0x00,
    0x01, 0x00, 0x00, 0x00, 0x00, 0x01, 0x00, 0x00, 0x00, 0x01, 0x00, 0x01, 0x00, 0x00, 0x00, 0x00,
    0x01, 0x00, 0x00, 0x00, 0x00, 0x01, 0x02,
];

/// Documents d0 to d2; `a`: (0,9), (2,9), in a bitmap.
const DENSE: [u8; 79] = [
    0x4a, 0x41, 0x53, 0x53, 0x49, 0x44, 0x58, 0x32, 0x4f, 0x00, 0x00, 0x00, 0x00, 0x00, 0x00, 0x00,
    0x03, 0x00, 0x00, 0x00, 0x01, 0x00, 0x00, 0x00, 0x02, 0x00, 0x00, 0x00, 0x00, 0x00, 0x00, 0x00,
    0x09, 0x00, 0x00, 0x00, 0x00, 0x00, 0x00, 0x00, 0x02, 0x00, 0x00, 0x00, 0x64, 0x30, 0x02, 0x00,
    0x00, 0x00, 0x64, 0x31, 0x02, 0x00, 0x00, 0x00, 0x64, 0x32, 0x00, 0x00, 0x01, 0x00, 0x61, 0x01,
    0x00, 0x00, 0x00, 0x09, 0x00, 0x02, 0x00, 0x00, 0x00, 0x02, 0x01, 0x00, 0x00, 0x00, 0x05,
];

/// The index of a file of these bytes.
fn index_of(rt: &impl Abort, alloc: Global, bytes: &[u8]) -> IndexFile {
    let mut row = Row::new(alloc);
    row.extend(bytes).expect(rt, "no memory");
    IndexFile::from_bytes(alloc, row).expect(rt, "refused")
}

/// Two files as one.
fn both(rt: &impl Abort, alloc: Global, first: &[u8], second: &[u8]) -> Shards {
    let mut parts = Row::new(alloc);
    assert!(rt; parts.push(index_of(rt, alloc, first)).is_ok());
    assert!(rt; parts.push(index_of(rt, alloc, second)).is_ok());
    match Shards::new(alloc, parts) {
        Ok(shards) => shards,
        Err(_) => panic!(rt; "refused"),
    }
}

/// The report of three postings of the query, and its hits' documents and scores.
fn answered<L: Ledger>(
    rt: &impl Abort,
    alloc: Global,
    shards: &Shards,
    blank: Blank,
) -> (Report, [Hit; 2])
    requires name { blank.name ≡ L.name }
    requires parts { blank.parts ≡ L.parts }
    requires some { 0 < blank.parts }
{
    let mut steps = Steps::<L>::new(blank);
    let mut pool = FramePool::new(alloc, 1, 1).expect(rt, "no memory");
    let query = read_terms(alloc, "q", "a", Mode::Plain, shards).expect(rt, "refused");
    let Ok(mut session) = Session::open(alloc, shards, &mut pool, query, 2) else {
        panic!(rt; "refused")
    };
    let report = session.grant(shards, &mut pool, Budget::Postings(3), &mut steps);
    let hits = session.answer();
    assert!(rt; hits.len() == 2);
    let two = [hits[0], hits[1]];
    session.close(&mut pool);
    (report, two)
}

/// The same with a ledger of its own.
fn answer(rt: &impl Abort, alloc: Global, shards: &Shards) -> (Report, [Hit; 2]) {
    answered::<Brand>(rt, alloc, shards, Blank::new(1))
}

#[test]
fn a_class_is_scored_over_all_parts(rt: HostRuntime) {
    let shards = both(&rt, rt.alloc(), &FILE, &FILE);
    let (report, hits) = answer(&rt, rt.alloc(), &shards);
    assert!(&rt; report.postings == 2 && report.segments == 1 && report.of == 3);
    assert!(&rt; report.cutoff == 9 && report.next == 5 && report.bound == 5);
    assert!(&rt; hits == [Hit { doc: 0, score: 9 }, Hit { doc: 3, score: 9 }]);
    assert!(&rt; Names::docs(&shards) == 6);
    assert!(&rt; shards.name(3) == "d0");
}

#[test]
fn a_bitmap_of_a_later_part_is_raised(rt: HostRuntime) {
    let shards = both(&rt, rt.alloc(), &FILE, &DENSE);
    let (report, hits) = answer(&rt, rt.alloc(), &shards);
    assert!(&rt; report.postings == 3 && report.segments == 1);
    assert!(&rt; hits == [Hit { doc: 0, score: 9 }, Hit { doc: 3, score: 9 }]);
}
