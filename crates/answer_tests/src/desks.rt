// Desks over small index files, whose terms, heads and payloads stand here, and whose documents are d0, d1 and so on.

ghost use Rattle.std.specs.Prelude.{◌≡◌, ◌≤◌, ◌<◌, length};

use gathered_text::{Buffer, flush};
use index_file::IndexFile;
use itoa::Buffer as Digits;
use jass_base::{MemSink, Row, Steps, WriteFault};
use memchr::memchr;
use session_desk::{Desk, Went};
use std::alloc::Global;
use std::marker::Brand;
use std::process::Abort;
use std::sync::ledger::{Blank, Ledger};

/// `cat`: (0,3), (1,1), (3,1); `dog`: (1,2), (2,3); of four documents.
const CAT_AND_DOG: [u8; 71] = [
    0x00, 0x00, 0x03, 0x00, 0x63, 0x61, 0x74, 0x02, 0x00, 0x00, 0x00, 0x03, 0x00, 0x01, 0x00, 0x00,
    0x00, 0x00, 0x01, 0x00, 0x00, 0x00, 0x01, 0x00, 0x02, 0x00, 0x00, 0x00, 0x00, 0x02, 0x00, 0x00,
    0x00, 0x00, 0x00, 0x03, 0x00, 0x64, 0x6f, 0x67, 0x02, 0x00, 0x00, 0x00, 0x03, 0x00, 0x01, 0x00,
    0x00, 0x00, 0x00, 0x01, 0x00, 0x00, 0x00, 0x02, 0x00, 0x01, 0x00, 0x00, 0x00, 0x00, 0x01, 0x00,
    0x00, 0x00, 0x00, 0x01, 0x01, 0x02, 0x01,
];

/// `a`: (0,9), (1,5), (2,1); of three documents.
const ONE_TERM: [u8; 45] = [
    0x00, 0x00, 0x01, 0x00, 0x61, 0x03, 0x00, 0x00, 0x00, 0x09, 0x00, 0x01, 0x00, 0x00, 0x00, 0x00,
    0x01, 0x00, 0x00, 0x00, 0x05, 0x00, 0x01, 0x00, 0x00, 0x00, 0x00, 0x01, 0x00, 0x00, 0x00, 0x01,
    0x00, 0x01, 0x00, 0x00, 0x00, 0x00, 0x01, 0x00, 0x00, 0x00, 0x00, 0x01, 0x02,
];

/// `cat`: (0,2), (299,1); `dog`: (1,3), (298,1); of 300 documents.
const TWO_PAGES: [u8; 72] = [
    0x00, 0x00, 0x03, 0x00, 0x63, 0x61, 0x74, 0x02, 0x00, 0x00, 0x00, 0x02, 0x00, 0x01, 0x00, 0x00,
    0x00, 0x00, 0x01, 0x00, 0x00, 0x00, 0x01, 0x00, 0x01, 0x00, 0x00, 0x00, 0x00, 0x02, 0x00, 0x00,
    0x00, 0x00, 0x00, 0x03, 0x00, 0x64, 0x6f, 0x67, 0x02, 0x00, 0x00, 0x00, 0x03, 0x00, 0x01, 0x00,
    0x00, 0x00, 0x00, 0x01, 0x00, 0x00, 0x00, 0x01, 0x00, 0x01, 0x00, 0x00, 0x00, 0x00, 0x02, 0x00,
    0x00, 0x00, 0x00, 0xab, 0x02, 0x01, 0xaa, 0x02,
];

/// `p`: (0,2), (1,3); `q`: (0,1); of two documents.
const LEVEL_AT_LAST: [u8; 54] = [
    0x00, 0x00, 0x01, 0x00, 0x70, 0x02, 0x00, 0x00, 0x00, 0x03, 0x00, 0x01, 0x00, 0x00, 0x00, 0x00,
    0x01, 0x00, 0x00, 0x00, 0x02, 0x00, 0x01, 0x00, 0x00, 0x00, 0x00, 0x01, 0x00, 0x00, 0x00, 0x00,
    0x00, 0x01, 0x00, 0x71, 0x01, 0x00, 0x00, 0x00, 0x01, 0x00, 0x01, 0x00, 0x00, 0x00, 0x00, 0x01,
    0x00, 0x00, 0x00, 0x01, 0x00, 0x00,
];

/// `p`: (0,7), (1,7), (2,2000); `q`: (0,998), (2,1); of three documents. The head of impact 2,000 doesn't fit a word.
const ASIDE: [u8; 67] = [
    0x00, 0x00, 0x01, 0x00, 0x70, 0x02, 0x00, 0x00, 0x00, 0xd0, 0x07, 0x01, 0x00, 0x00, 0x00, 0x00,
    0x01, 0x00, 0x00, 0x00, 0x07, 0x00, 0x02, 0x00, 0x00, 0x00, 0x00, 0x02, 0x00, 0x00, 0x00, 0x00,
    0x00, 0x01, 0x00, 0x71, 0x02, 0x00, 0x00, 0x00, 0xe6, 0x03, 0x01, 0x00, 0x00, 0x00, 0x00, 0x01,
    0x00, 0x00, 0x00, 0x01, 0x00, 0x01, 0x00, 0x00, 0x00, 0x00, 0x01, 0x00, 0x00, 0x00, 0x02, 0x00,
    0x00, 0x00, 0x02,
];

/// The terms, heads and payloads of a file, and its numbers.
#[derive(Clone, Copy)]
struct Terms<'a> {
    docs: u32,
    terms: u32,
    postings: u64,
    greatest: u32,
    bytes: &'a [u8],
}

const A: Terms<'static> = Terms {
    docs: 4,
    terms: 2,
    postings: 5,
    greatest: 3,
    bytes: &CAT_AND_DOG,
};

const B: Terms<'static> = Terms {
    docs: 3,
    terms: 1,
    postings: 3,
    greatest: 9,
    bytes: &ONE_TERM,
};

const C: Terms<'static> = Terms {
    docs: 300,
    terms: 2,
    postings: 4,
    greatest: 3,
    bytes: &TWO_PAGES,
};

const LEVEL: Terms<'static> = Terms {
    docs: 2,
    terms: 2,
    postings: 3,
    greatest: 3,
    bytes: &LEVEL_AT_LAST,
};

const HEAVY: Terms<'static> = Terms {
    docs: 3,
    terms: 2,
    postings: 5,
    greatest: 2_000,
    bytes: &ASIDE,
};

/// Appends bytes.
fn put(rt: &impl Abort, bytes: &mut Vec<u8>, more: &[u8]) {
    bytes.extend_from_slice(more).expect(rt, "no memory");
}

/// Puts the name of a document.
fn put_name(rt: &impl Abort, names: &mut Vec<u8>, doc: u32) {
    let mut digits = Digits::new();
    let number = digits.format(doc).as_bytes();
    put(rt, names, &[1 + number.len() as u8, 0, 0, 0, b'd']);
    put(rt, names, number);
}

/// The names of so many documents.
fn names(rt: &impl Abort, alloc: Global, docs: u32) -> Vec<u8> {
    let mut names = Vec::new(alloc);
    for doc in 0..docs {
        put_name(rt, &mut names, doc);
    }
    names
}

/// Puts the header of a file of these terms, which has so many bytes.
fn put_header(rt: &impl Abort, bytes: &mut Vec<u8>, terms: Terms<'_>, length: u64) {
    put(rt, bytes, b"JASSIDX2");
    put(rt, bytes, &length.to_le_bytes());
    put(rt, bytes, &terms.docs.to_le_bytes());
    put(rt, bytes, &terms.terms.to_le_bytes());
    put(rt, bytes, &terms.postings.to_le_bytes());
    put(rt, bytes, &terms.greatest.to_le_bytes());
    put(rt, bytes, &[0; 4]);
}

/// The bytes of the file of these terms.
fn bytes_of(rt: &impl Abort, alloc: Global, terms: Terms<'_>) -> Vec<u8> {
    let names = names(rt, alloc, terms.docs);
    let length = (names.len() as u64)
        .saturating_add(terms.bytes.len() as u64)
        .saturating_add(40);
    let mut bytes = Vec::new(alloc);
    put_header(rt, &mut bytes, terms, length);
    put(rt, &mut bytes, names.as_slice());
    put(rt, &mut bytes, terms.bytes);
    bytes
}

/// The file of these terms.
fn file_of(rt: &impl Abort, alloc: Global, terms: Terms<'_>) -> IndexFile {
    let bytes = Row::from_vec(bytes_of(rt, alloc, terms));
    IndexFile::from_bytes(alloc, bytes).expect(rt, "refused")
}

/// A desk of so many frames over the file of these terms.
fn desk_over(rt: &impl Abort, alloc: Global, terms: Terms<'_>, frames: u32) -> Desk<IndexFile> {
    assert!(rt; frames == 1 || frames == 2);
    match Desk::new(alloc, file_of(rt, alloc, terms), frames) {
        Ok(desk) => desk,
        Err(_) => panic!(rt; "no memory"),
    }
}

/// Answers a line, and puts the reply.
fn answer_one<L: Ledger>(
    desk: &mut Desk<IndexFile>,
    line: &[u8],
    out: &mut MemSink,
    buffer: &mut Buffer,
    steps: &mut Steps<L>,
) -> Result<Went, WriteFault> {
    let went = desk.answer_line(line, out, buffer, steps)?;
    flush(out, buffer)?;
    Ok(went)
}

/// Answers the lines of a script, each of which ends with a line feed, and puts each reply by itself, as far as nothing
/// fails.
fn answer_all<L: Ledger>(
    desk: &mut Desk<IndexFile>,
    script: &[u8],
    out: &mut MemSink,
    steps: &mut Steps<L>,
) -> Result<Went, WriteFault> {
    let mut buffer = Buffer::new();
    answer_lines(desk, script, out, &mut buffer, steps)
}

/// Answers the lines of a script as `answer_all` does, with a buffer for the replies that the caller owns.
fn answer_lines<L: Ledger>(
    desk: &mut Desk<IndexFile>,
    script: &[u8],
    out: &mut MemSink,
    buffer: &mut Buffer,
    steps: &mut Steps<L>,
) -> Result<Went, WriteFault> {
    let mut rest = script;
    let mut went = Went::On;
    while let Some(end) = memchr(b'\n', rest) {
        let (line, behind) = rest.split_at(end);
        went = answer_one(desk, line, out, buffer, steps)?;
        rest = &behind[1..];
    }
    Ok(went)
}

/// Answers a script at a desk over so many documents, and then another, where nothing fails, and closes the desk. Tells
/// how the last line of the first one went.
fn both_answered<L: Ledger>(
    rt: &impl Abort,
    blank: Blank,
    mut desk: Desk<IndexFile>,
    docs: u32,
    script: &[u8],
    behind: &[u8],
    out: &mut MemSink,
) -> Result<Went, WriteFault>
    requires name { blank.name ≡ L.name }
    requires parts { blank.parts ≡ L.parts }
    requires some { 0 < blank.parts }
{
    let mut steps = Steps::<L>::new(blank);
    let went = answer_all(&mut desk, script, out, &mut steps);
    let later = answer_all(&mut desk, behind, out, &mut steps);
    let file = desk.close();
    let count = file.docs();
    drop(file);
    assert!(rt; count == docs && later.is_ok());
    went
}

/// A sink whose puts fail as named.
fn sink_of(rt: &impl Abort, alloc: Global, bad: &[u64]) -> MemSink {
    let bad = Vec::from_slice(alloc, bad).expect(rt, "no memory");
    MemSink::new(alloc, Row::from_vec(bad))
}

/// Puts what a desk of so many frames prints for a script, and then for another one behind it, whose puts must not fail.
/// Tells how the last line of the first script went, or nothing where a put of it failed.
fn answered(
    rt: &impl Abort,
    alloc: Global,
    terms: Terms<'_>,
    frames: u32,
    script: &[u8],
    behind: &[u8],
    out: &mut MemSink,
) -> Option<Went> {
    let desk = desk_over(rt, alloc, terms, frames);
    both_answered::<Brand>(rt, Blank::new(1), desk, terms.docs, script, behind, out).ok()
}

/// Whether a desk of so many frames prints this for a script, whose last line went so.
fn prints(
    rt: &impl Abort,
    alloc: Global,
    terms: Terms<'_>,
    frames: u32,
    script: &[u8],
    out: &[u8],
    went: Went,
) -> bool {
    let mut sink = sink_of(rt, alloc, &[]);
    let last = answered(rt, alloc, terms, frames, script, b"", &mut sink);
    let told = last == Some(went) && sink.written() == out;
    drop(sink);
    told
}

/// Terms of a file, the frames of a desk over it, a script, and what is printed for it.
type Script<'a> = (Terms<'a>, u32, &'a [u8], &'a [u8]);

/// Scripts whose last line is `end`.
const SCRIPTS: [Script<'static>; 7] = [
    (
        C,
        2,
        b"open x 3 cat\nopen y 3 dog\ngrant x 1\nclose x\nopen y 3 dog\ngrant y 1\ntop y\nend\n",
        b"opened x need 2 unknown 0\n\
        refused 74 pool 2 0\n\
        x postings 1 segments 1 of 2 cutoff 2 next 1 bound 1 unknown 0 open\n\
        closed x\n\
        opened y need 2 unknown 0\n\
        y postings 1 segments 1 of 2 cutoff 3 next 1 bound 1 unknown 0 open\n\
        hits 1\ny Q0 d1 1 3 jass\n\
        bye\n",
    ),
    (
        A,
        2,
        b"open x 4 cat dog\nopen y 4 dog cat\ngrant x 1\ngrant y 1\ngrant x 1\ngrant y 4\ngrant y all\ntop x\nend\n",
        b"opened x need 1 unknown 0\n\
        opened y need 1 unknown 0\n\
        x postings 1 segments 1 of 4 cutoff 3 next 3 bound 4 unknown 0 open\n\
        y postings 1 segments 1 of 4 cutoff 3 next 3 bound 5 unknown 0 open\n\
        x postings 2 segments 2 of 4 cutoff 3 next 2 bound 3 unknown 0 open\n\
        y postings 5 segments 4 of 4 cutoff 1 next 0 bound 0 unknown 0 final\n\
        y postings 5 segments 4 of 4 cutoff 1 next 0 bound 0 unknown 0 final\n\
        hits 2\nx Q0 d0 1 3 jass\nx Q0 d2 2 3 jass\n\
        bye\n",
    ),
    (
        B,
        2,
        b"open x 3 a\ngrant x 18446744073709551615\ngrant x 18446744073709551615\nopen y 3 a\ngrant y all\nend\n",
        b"opened x need 1 unknown 0\n\
        x postings 3 segments 3 of 3 cutoff 1 next 0 bound 0 unknown 0 final\n\
        x postings 3 segments 3 of 3 cutoff 1 next 0 bound 0 unknown 0 final\n\
        opened y need 1 unknown 0\n\
        y postings 3 segments 3 of 3 cutoff 1 next 0 bound 0 unknown 0 final\n\
        bye\n",
    ),
    (
        B,
        1,
        b"top z\nopen x 1\nopen x 1\n\nopen y 1 a^255 a\nopen y 1 a^256\nwhy y\ntop y\n\t end \n",
        b"refused 71 unknown session\n\
        opened x need 0 unknown 0\n\
        refused 72 name in use\n\
        refused 70 bad line\n\
        refused 53 named too often\n\
        opened y need 0 unknown 1\n\
        y postings 0 segments 0 of 0 cutoff 0 next 0 bound 0 unknown 1 final\n\
        hits 0\n\
        bye\n",
    ),
    (
        A,
        1,
        b"open x 4 cat^2 dog\ngrant x all\ntop x\nend\n",
        b"opened x need 1 unknown 0\n\
        x postings 5 segments 4 of 4 cutoff 2 next 0 bound 0 unknown 0 final\n\
        hits 4\nx Q0 d0 1 6 jass\nx Q0 d1 2 4 jass\nx Q0 d2 3 3 jass\nx Q0 d3 4 2 jass\n\
        bye\n",
    ),
    (
        LEVEL,
        1,
        b"open x 2 p q\ngrant x 2\ntop x\ngrant x all\ntop x\nend\n",
        b"opened x need 1 unknown 0\n\
        x postings 2 segments 2 of 3 cutoff 2 next 1 bound 1 unknown 0 set\n\
        hits 2\nx Q0 d1 1 3 jass\nx Q0 d0 2 2 jass\n\
        x postings 3 segments 3 of 3 cutoff 1 next 0 bound 0 unknown 0 final\n\
        hits 2\nx Q0 d0 1 3 jass\nx Q0 d1 2 3 jass\n\
        bye\n",
    ),
    (
        HEAVY,
        1,
        b"open x 2 p q^2\ngrant x 2\ntop x\ngrant x all\ntop x\nend\n",
        b"opened x need 1 unknown 0\n\
        x postings 2 segments 2 of 4 cutoff 1996 next 7 bound 9 unknown 0 set\n\
        hits 2\nx Q0 d2 1 2000 jass\nx Q0 d0 2 1996 jass\n\
        x postings 5 segments 4 of 4 cutoff 2 next 0 bound 0 unknown 0 final\n\
        hits 2\nx Q0 d0 1 2003 jass\nx Q0 d2 2 2002 jass\n\
        bye\n",
    ),
];

/// Each script is answered as stands beside it, to its end.
fn check_scripts(rt: &impl Abort, alloc: Global, scripts: &[Script<'_>]) {
    for (terms, frames, script, out) in scripts {
        assert!(rt; prints(rt, alloc, *terms, *frames, script, out, Went::End));
    }
}

#[test]
fn sessions_share_frames_and_keep_apart(rt: HostRuntime) {
    check_scripts(&rt, rt.alloc(), &SCRIPTS);
}

/// A session, and bad lines behind it.
const BAD_LINES: &[u8] = b"open x 1 a\ngrant x 1\n\
    grant\ngrant x\ngrant x -1\ngrant x 1 2\n\
    open x 0\nopen x 100001\nopen x! 1\nEnd\n\xff\nwhy x\n";

/// What is printed for them, for a line that is too long, and for one that is just short enough.
const BAD_LINES_TOLD: &[u8] = b"opened x need 1 unknown 0\n\
    x postings 1 segments 1 of 3 cutoff 9 next 5 bound 5 unknown 0 final\n\
    refused 70 bad line\n\
    refused 70 bad line\n\
    refused 70 bad line\n\
    refused 70 bad line\n\
    refused 70 bad line\n\
    refused 70 bad line\n\
    refused 70 bad line\n\
    refused 70 bad line\n\
    refused 70 bad line\n\
    x postings 1 segments 1 of 3 cutoff 9 next 5 bound 5 unknown 0 final\n\
    refused 70 bad line\n\
    x postings 1 segments 1 of 3 cutoff 9 next 5 bound 5 unknown 0 final\n";

/// Puts a line `why x` that is too long, and one that is just short enough.
fn put_long_lines(rt: &impl Abort, script: &mut Vec<u8>, blanks: &[u8])
    requires { 1 ≤ length blanks.now }
{
    put(rt, script, b"why x");
    put(rt, script, blanks);
    put(rt, script, b"\nwhy x");
    put(rt, script, &blanks[1..]);
    put(rt, script, b"\n");
}

/// Bad lines, and lines that are just too long and just short enough.
fn bad_script(rt: &impl Abort, alloc: Global) -> Vec<u8> {
    let mut script = Vec::new(alloc);
    put(rt, &mut script, BAD_LINES);
    let blanks = vec![in alloc; b' '; 1_048_572].expect(rt, "no memory");
    put_long_lines(rt, &mut script, blanks.as_slice());
    drop(blanks);
    script
}

/// What is printed for them is as told.
fn check_bad_lines(rt: &impl Abort, alloc: Global) {
    let script = bad_script(rt, alloc);
    let told = prints(rt, alloc, B, 1, script.as_slice(), BAD_LINES_TOLD, Went::On);
    drop(script);
    assert!(rt; told);
}

#[test]
fn bad_lines_change_nothing(rt: HostRuntime) {
    check_bad_lines(&rt, rt.alloc());
}

/// Puts a line that opens a session without mentions, whose name is of two digits.
fn put_opening(rt: &impl Abort, script: &mut Vec<u8>, number: u8)
    requires { number < 100 }
{
    put(rt, script, b"open n");
    put(rt, script, &[b'0' + number / 10, b'0' + number % 10]);
    put(rt, script, b" 1\n");
}

/// The lines that open 65 sessions.
fn openings(rt: &impl Abort, alloc: Global) -> Vec<u8> {
    let mut script = Vec::new(alloc);
    for number in 0..65u8 {
        put_opening(rt, &mut script, number);
    }
    script
}

/// The last lines that are printed for 65 sessions without mentions.
fn check_many_sessions(rt: &impl Abort, alloc: Global) {
    let script = openings(rt, alloc);
    let full = ends_full(rt, alloc, script.as_slice());
    drop(script);
    assert!(rt; full);
}

/// Whether the last session of a script is refused behind the 64th, since the desk is full.
fn ends_full(rt: &impl Abort, alloc: Global, script: &[u8]) -> bool {
    let mut sink = sink_of(rt, alloc, &[]);
    let went = answered(rt, alloc, B, 1, script, b"", &mut sink);
    let last = b"opened n63 need 0 unknown 0\nrefused 73 desk full\n";
    let full = went == Some(Went::On) && sink.written().ends_with(last);
    drop(sink);
    full
}

#[test]
fn a_desk_has_64_sessions(rt: HostRuntime) {
    check_many_sessions(&rt, rt.alloc());
}

/// The last line that is printed behind a script whose second put fails.
fn check_put_fails(rt: &impl Abort, alloc: Global) {
    let script = b"open x 1 a\ngrant x 1\n";
    let mut sink = sink_of(rt, alloc, &[1]);
    let went = answered(rt, alloc, B, 1, script, b"why x\n", &mut sink);
    let last = b"x postings 1 segments 1 of 3 cutoff 9 next 5 bound 5 unknown 0 final\n";
    let told = sink.written().ends_with(last);
    drop(sink);
    assert!(rt; went.is_none() && told);
}

#[test]
fn a_line_whose_reply_fails_has_its_effect(rt: HostRuntime) {
    check_put_fails(&rt, rt.alloc());
}
