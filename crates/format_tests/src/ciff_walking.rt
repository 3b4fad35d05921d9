// Walks over a file: opening one, its pieces in order, a list that is read again, read faults, and the
// order of terms.

ghost use Rattle.std.specs.Prelude.{◌≡◌, ◌<◌, ◌≤◌, length, None, IsTrue, IfSome};
ghost use Rattle.ciff_read.specs.Walk.{IsGiven};

use crate::ciff_reading::{Case, FILE, told};
use ciff_read::{CiffFault, CiffRefusal, CiffWalk, CiffWhy, Piece};
use jass_base::{Cabinet, Failed, MemCabinet, PostingsList, Row};
use std::alloc::Global;
use std::process::Abort;

/// Whether opening a walk over a file of these bytes answers so: as above, and 0 at 0 for a walk.
fn opens(rt: &impl Abort, alloc: Global, bytes: &[u8], number: u32, at: u64) -> bool {
    let opening = match fault_of_opening(alloc, cabinet(rt, alloc, bytes)) {
        None => (0, 0),
        Some(fault) => told(fault),
    };
    opening == (number, at)
}

/// The fault that opening a walk answers.
fn fault_of_opening(alloc: Global, mut files: MemCabinet) -> Option<CiffFault> {
    CiffWalk::open(alloc, &mut files, "file").err()
}

const OPENED: [Case<'static>; 6] = [
    (&FILE, 0, 0),
    (&[], 10, 0),
    (b"\xfb\xff\xff\xff\x0f", 10, 0),
    (b"\xfc\xff\xff\xff\x0f", 22, 0),
    (b"\x05\x18\x81\x80\x80\x20", 22, 0),
    (b"\x02\x03\x00", 12, 1),
];

fn check_opened(rt: &impl Abort, alloc: Global, cases: &[Case<'_>]) {
    for (bytes, number, at) in cases {
        assert!(rt; opens(rt, alloc, bytes, *number, *at));
    }
}

#[test]
fn walks_are_opened(rt: HostRuntime) {
    check_opened(&rt, rt.alloc(), &OPENED);
    check_opened(
        &rt,
        rt.alloc(),
        &[(&FILE[..22], 0, 0), (&FILE[..21], 10, 0)],
    );
}

#[test]
fn a_missing_file_is_a_read_fault(rt: HostRuntime) {
    assert!(&rt; opening_fails(rt.alloc()));
}

/// Whether opening a walk over a file that isn't there answers a read fault.
fn opening_fails(alloc: Global) -> bool {
    let files = MemCabinet::new(alloc, Row::new(alloc), Row::new(alloc));
    fault_of_opening(alloc, files) == Some(CiffFault::ReadFault)
}

/// Two files under the name `file`, of which one is read, and so many reads go well; what they hold isn't told.
#[derive(Drop)]
struct Switched<'a> {
    first: &'a [u8],
    second: &'a [u8],
    is_second: bool,
    reads: u32,
    read_faults: u64,
    write_faults: u64,
}

impl<'a> Cabinet for Switched<'a> {
    ghost told = { λ _. None };

    ghost read_faults = { λ s. s.read_faults };

    ghost write_faults = { λ s. s.write_faults };

    fn read_at(&mut self, name: &str, at: u64, buf: &mut [u8]) -> Result<usize, Failed> {
        if name != "file" || self.reads == 0 {
            self.read_faults = self.read_faults.saturating_add(1);
            return Err(Failed);
        }
        self.reads -= 1;
        let file = if self.is_second {
            self.second
        } else {
            self.first
        };
        Ok(copied(file, at, buf))
    }

    fn create(&mut self, _name: &str) -> Result<(), Failed> {
        self.write_faults = self.write_faults.saturating_add(1);
        Err(Failed)
    }

    fn append(&mut self, _name: &str, _bytes: &[u8]) -> Result<(), Failed> {
        self.write_faults = self.write_faults.saturating_add(1);
        Err(Failed)
    }
}

/// Copies bytes of a file from a place on, and answers how many.
fn copied(file: &[u8], at: u64, buf: &mut [u8]) -> usize
    ensures { result ≤ length buf.old }
{
    let from = (at as usize).min(file.len());
    let count = (file.len() - from).min(buf.len());
    buf[..count].copy_from_slice(&file[from..from + count]);
    count
}

/// The file of one term, and one of these bytes.
fn two_files(second: &[u8]) -> Switched<'_> {
    Switched {
        first: &FILE,
        second,
        is_second: false,
        reads: 100,
        read_faults: 0,
        write_faults: 0,
    }
}

/// A cabinet with a file of these bytes.
fn cabinet(rt: &impl Abort, alloc: Global, bytes: &[u8]) -> MemCabinet {
    let mut files = MemCabinet::new(alloc, Row::new(alloc), Row::new(alloc));
    files.store("file", bytes).expect(rt, "memory");
    files
}

/// Takes the postings of a list back, and gives their number.
fn count_back(walk: &mut CiffWalk, list: PostingsList) -> u64
    ensures { walk.new ≡ walk.old }
{
    let count = list.postings.len() as u64;
    walk.take_back(list.postings);
    count
}

/// The number of a fault, and the place of a refusal, in the shape of a piece. Each number of a refusal
/// is 10 or more; the bound changes none, and shows that none is that of a piece.
fn numbers(fault: CiffFault) -> (u32, u64, u64)
    ensures { 4 < result.0 }
{
    match fault {
        CiffFault::Refused(refusal) => (refusal.why.number().max(5), refusal.at, 0),
        CiffFault::ReadFault => (5, 0, 0),
        CiffFault::NoMemory => (6, 0, 0),
    }
}

/// The next piece: what it is, and two of its numbers; of a refusal its number and place.
fn piece(walk: &mut CiffWalk, files: &mut Switched<'_>) -> (u32, u64, u64)
    ensures { 3 ≤ result.0 → result.0 ≤ 4 → walk.new.kept ≡ walk.old.kept }
{
    match walk.next_piece(files) {
        Ok(Piece::Start { lists, docs, .. }) => (1, u64::from(lists), u64::from(docs)),
        Ok(Piece::List { at, list }) => (2, at, count_back(walk, list)),
        Ok(Piece::Doc { number, item }) => (3, u64::from(number), u64::from(item.length)),
        Ok(Piece::End) => (4, 0, 0),
        Err(fault) => numbers(fault),
    }
}

/// The pieces of the file of one term, with the end twice.
const PIECES: [(u32, u64, u64); 7] = [
    (1, 1, 3),
    (2, 22, 3),
    (3, 0, 9),
    (3, 1, 5),
    (3, 2, 1),
    (4, 0, 0),
    (4, 0, 0),
];

fn check_pieces(
    rt: &impl Abort,
    walk: &mut CiffWalk,
    files: &mut Switched<'_>,
    pieces: &[(u32, u64, u64)],
) {
    for wanted in pieces {
        assert!(rt; piece(walk, files) == *wanted);
    }
}

fn check_walk(rt: &impl Abort, alloc: Global) {
    let mut files = two_files(&FILE);
    let mut walk = opened(rt, alloc, &mut files);
    check_pieces(rt, &mut walk, &mut files, &PIECES);
    drop(walk);
}

#[test]
fn pieces_come_in_the_order_of_the_file(rt: HostRuntime) {
    check_walk(&rt, rt.alloc());
}

/// Reads a list, and gives its place. Its postings aren't handed back.
fn read_list(walk: &mut CiffWalk, files: &mut Switched<'_>) -> Option<u64>
    ensures { IfSome result (IsGiven walk.new.kept) }
{
    let Ok(Piece::List { at, .. }) = walk.next_piece(files) else {
        return None;
    };
    Some(at)
}

/// Reads three documents' records and the end, and says whether they came.
fn read_rest(walk: &mut CiffWalk, files: &mut Switched<'_>) -> bool
    ensures { IsTrue result → walk.new.kept ≡ walk.old.kept }
{
    piece(walk, files).0 == 3
        && piece(walk, files).0 == 3
        && piece(walk, files).0 == 3
        && piece(walk, files).0 == 4
}

/// Reads the file of one term to its end, and gives the place of its list.
fn read_all(walk: &mut CiffWalk, files: &mut Switched<'_>) -> Option<u64>
    ensures { IfSome result (IsGiven walk.new.kept) }
{
    if piece(walk, files).0 != 1 {
        return None;
    }
    let at = read_list(walk, files)?;
    if read_rest(walk, files) {
        Some(at)
    } else {
        None
    }
}

/// What reading a list again answers.
type Answer = (u32, u64, u64, u64);

/// A list that is read again: its place, and the number of its postings; of a refusal its
/// number and place, and the two numbers that differ.
fn again(walk: &mut CiffWalk, files: &mut Switched<'_>, at: u64) -> Answer
    requires { IsGiven walk.old.kept at }
    ensures { walk.new.kept ≡ walk.old.kept }
{
    match walk.list_again(files, at) {
        Ok(list) => (2, at, count_back(walk, list), 0),
        Err(fault) => fault_again(fault),
    }
}

/// The number of a fault, and of a refusal its place and the two numbers that differ.
fn fault_again(fault: CiffFault) -> Answer {
    let (number, at, _) = numbers(fault);
    match fault {
        CiffFault::Refused(
            CiffRefusal {
                why: CiffWhy::Changed { kept, found },
                ..
            },
        ) => (number, at, kept, found),
        _ => (number, at, 0, 0),
    }
}

/// The front of the file, and a list of the same term with a posting less.
const SHORTER: [u8; 40] = [
    0x15, 0x08, 0x01, 0x10, 0x01, 0x18, 0x03, 0x20, 0x01, 0x28, 0x03, 0x30, 0x0f, 0x39, 0x00, 0x00,
    0x00, 0x00, 0x00, 0x00, 0x14, 0x40, 0x11, 0x0a, 0x01, 0x61, 0x10, 0x03, 0x18, 0x0f, 0x22, 0x02,
    0x10, 0x09, 0x22, 0x04, 0x08, 0x01, 0x10, 0x05,
];

/// A walk over the file in the cabinet.
fn opened(rt: &impl Abort, alloc: Global, files: &mut Switched<'_>) -> CiffWalk {
    CiffWalk::open(alloc, files, "file").expect(rt, "a walk")
}

/// Whether the second file is read after the end, and what reading the list again answers, twice.
const AGAIN: [(bool, Answer, Answer); 2] = [
    (false, (2, 22, 3, 0), (2, 22, 3, 0)),
    (true, (23, 22, 3, 2), (23, 22, 3, 2)),
];

fn check_again(rt: &impl Abort, alloc: Global, rows: &[(bool, Answer, Answer)]) {
    for (is_second, first, second) in rows {
        assert!(rt; is_read_again(rt, alloc, *is_second, *first, *second));
    }
}

/// Whether reading the list again answers so.
fn is_read_again(
    rt: &impl Abort,
    alloc: Global,
    is_second: bool,
    first: Answer,
    second: Answer,
) -> bool {
    let mut files = two_files(&SHORTER);
    let mut walk = opened(rt, alloc, &mut files);
    let answer = answers_again(&mut walk, &mut files, is_second, first, second);
    drop(walk);
    answer
}

/// The same of a walk that was opened.
fn answers_again(
    walk: &mut CiffWalk,
    files: &mut Switched<'_>,
    is_second: bool,
    first: Answer,
    second: Answer,
) -> bool {
    let Some(at) = read_all(walk, files) else {
        return false;
    };
    files.is_second = is_second;
    answers_twice(walk, files, at, first, second)
}

/// Whether a list that is read again, twice, is answered so.
fn answers_twice(
    walk: &mut CiffWalk,
    files: &mut Switched<'_>,
    at: u64,
    first: Answer,
    second: Answer,
) -> bool
    requires { IsGiven walk.old.kept at }
{
    again(walk, files, at) == first && again(walk, files, at) == second
}

#[test]
fn lists_are_read_again(rt: HostRuntime) {
    check_again(&rt, rt.alloc(), &AGAIN);
}

/// Which call answers a read fault after so many reads: 1 opening, 2 a piece, 3 the list that is
/// read again; and whether the next call answers it, too.
fn fault_after(alloc: Global, reads: u32) -> (u32, bool) {
    let mut files = two_files(&FILE);
    files.reads = reads;
    match CiffWalk::open(alloc, &mut files, "file") {
        Ok(mut walk) => {
            let fault = fault_of_walk(&mut walk, &mut files);
            drop(walk);
            fault
        }
        Err(fault) => (1, fault == CiffFault::ReadFault),
    }
}

/// The same for a walk that was opened.
fn fault_of_walk(walk: &mut CiffWalk, files: &mut Switched<'_>) -> (u32, bool) {
    match read_all(walk, files) {
        Some(at) => (
            3,
            answers_twice(walk, files, at, (5, 0, 0, 0), (5, 0, 0, 0)),
        ),
        None => (2, piece(walk, files) == (5, 0, 0)),
    }
}

/// How many reads go well, which call answers a fault then, and whether the next one answers it, too.
const FAULTS: [(u32, u32, bool); 5] = [
    (0, 1, true),
    (1, 2, true),
    (2, 2, true),
    (3, 3, true),
    (4, 3, false),
];

fn check_faults(rt: &impl Abort, alloc: Global, faults: &[(u32, u32, bool)]) {
    for (reads, call, twice) in faults {
        assert!(rt; fault_after(alloc, *reads) == (*call, *twice));
    }
}

#[test]
fn read_faults_are_answered_again(rt: HostRuntime) {
    check_faults(&rt, rt.alloc(), &FAULTS);
}

/// A file of lists without postings, with these terms.
fn file_of_terms(rt: &impl Abort, alloc: Global, terms: &[&str]) -> Row<u8> {
    let mut bytes = Row::new(alloc);
    bytes
        .extend(&[2, 0x10, (terms.len() % 128) as u8])
        .expect(rt, "memory");
    for term in terms {
        put_term(rt, &mut bytes, term);
    }
    bytes
}

fn put_term(rt: &impl Abort, bytes: &mut Row<u8>, term: &str) {
    let len = (term.len() % 128) as u8;
    bytes
        .extend(&[len.wrapping_add(2), 0x0a, len])
        .expect(rt, "memory");
    bytes.extend(term.as_bytes()).expect(rt, "memory");
}

/// How many lists a walk over the file of these terms gives, and the piece behind them.
fn lists_given(rt: &impl Abort, alloc: Global, terms: &[&str]) -> (u32, (u32, u64, u64)) {
    let bytes = file_of_terms(rt, alloc, terms);
    let given = lists_of_file(rt, alloc, bytes.as_slice());
    drop(bytes);
    given
}

/// The same of a file of these bytes.
fn lists_of_file(rt: &impl Abort, alloc: Global, file: &[u8]) -> (u32, (u32, u64, u64)) {
    let mut files = two_files(file);
    files.is_second = true;
    let mut walk = opened(rt, alloc, &mut files);
    let given = lists_behind(&mut walk, &mut files);
    drop(walk);
    given
}

/// How many lists come behind the header, and the piece behind them; that of the header where it
/// is another one.
fn lists_behind(walk: &mut CiffWalk, files: &mut Switched<'_>) -> (u32, (u32, u64, u64)) {
    let mut last = piece(walk, files);
    if last.0 != 1 {
        return (0, last);
    }
    for count in 0..8 {
        last = piece(walk, files);
        if last.0 != 2 {
            return (count, last);
        }
    }
    (8, last)
}

const TERMS: [&str; 6] = ["a", "ab", "c", "b", "d", "aa"];

/// The six terms, and each of them once more.
const TWICE: [[&str; 7]; 6] = [
    ["a", "ab", "c", "b", "d", "aa", "a"],
    ["a", "ab", "c", "b", "d", "aa", "ab"],
    ["a", "ab", "c", "b", "d", "aa", "c"],
    ["a", "ab", "c", "b", "d", "aa", "b"],
    ["a", "ab", "c", "b", "d", "aa", "d"],
    ["a", "ab", "c", "b", "d", "aa", "aa"],
];

fn check_once(rt: &impl Abort, alloc: Global) {
    assert!(rt; lists_given(rt, alloc, &TERMS) == (6, (4, 0, 0)));
}

fn check_twice(rt: &impl Abort, alloc: Global, rows: &[[&str; 7]]) {
    for terms in rows {
        assert!(rt; lists_given(rt, alloc, terms) == (6, (18, 29, 0)));
    }
}

#[test]
fn each_term_is_new_once(rt: HostRuntime) {
    check_once(&rt, rt.alloc());
    check_twice(&rt, rt.alloc(), &TWICE);
}
