// The lines of short inputs up to a limit, and a line that is too long, in a feed one of whose reads fails.

use feed_lines::{FeedLines, Filled};
use jass_base::{Feed, MemFeed, Row, SliceFeed};
use std::alloc::Global;
use std::process::Abort;

/// Appends bytes.
fn put(rt: &impl Abort, told: &mut Row<u8>, bytes: &[u8]) {
    told.extend(bytes).expect(rt, "no memory");
}

/// Puts the next line, where it ends by LF, and a bar behind it.
fn put_line(rt: &impl Abort, told: &mut Row<u8>, lines: &mut FeedLines) {
    if let Some(end) = lines.end_of_line() {
        put(rt, told, lines.line(end));
        put(rt, told, b"|");
        lines.pass(end);
    }
}

/// The first four lines that end by LF, a bar behind each, and the rest.
fn lines_and_rest(rt: &impl Abort, alloc: Global, lines: &mut FeedLines) -> Row<u8> {
    let mut told = Row::new(alloc);
    for _ in 0..4 {
        put_line(rt, &mut told, lines);
    }
    put(rt, &mut told, lines.rest());
    told
}

/// An input, how many bytes of it may be taken, its lines and the rest, why no more comes, and what stays in the input.
type Case<'a> = (&'a [u8], u64, &'a [u8], Filled, &'a [u8]);

const CASES: [Case<'static>; 8] = [
    (b"", 9, b"", Filled::End, b""),
    (b"ab\ncd\r\n\n\r\nef", 99, b"ab|cd|||ef", Filled::End, b""),
    (b"a\r\r\nb\rc\r", 99, b"a\r|b\rc", Filled::End, b""),
    (b"ab\ncd\n", 7, b"ab|cd|", Filled::End, b""),
    (b"ab\ncd\n", 6, b"ab|cd|", Filled::Limit, b""),
    (b"ab\ncd\n", 4, b"ab|c", Filled::Limit, b"d\n"),
    (b"ab\r\ncd\n", 3, b"ab", Filled::Limit, b"\ncd\n"),
    (b"ab\n", 0, b"", Filled::Limit, b"ab\n"),
];

/// Whether an input, of which so many bytes may be taken, gives these lines and then no more, for this reason.
fn is_read(
    rt: &impl Abort,
    alloc: Global,
    input: &mut SliceFeed<'_>,
    limit: u64,
    want: &[u8],
    last: Filled,
) -> bool {
    let mut lines = FeedLines::new(alloc, limit).expect(rt, "no memory");
    let given = gives_lines(rt, alloc, &mut lines, input, want)
        && is_filled(&mut lines, input, last);
    drop(lines);
    given
}

/// Whether nothing was taken yet, a first filling doesn't fail, and these are the lines then and the rest.
fn gives_lines(
    rt: &impl Abort,
    alloc: Global,
    lines: &mut FeedLines,
    input: &mut SliceFeed<'_>,
    want: &[u8],
) -> bool {
    if !lines.is_empty() || lines.fill(input).is_err() {
        return false;
    }
    let told = lines_and_rest(rt, alloc, lines);
    let are_wanted = told.as_slice() == want;
    drop(told);
    are_wanted
}

/// Whether the next filling comes to this.
fn is_filled(lines: &mut FeedLines, input: &mut SliceFeed<'_>, last: Filled) -> bool {
    lines.fill(input).ok() == Some(last)
}

/// Whether these bytes stay in an input.
fn keeps(input: &mut SliceFeed<'_>, behind: &[u8]) -> bool {
    let mut buf = [0u8; 8];
    input.read(&mut buf).ok() == Some(behind.len()) && buf.starts_with(behind)
}

/// Whether an input gives these lines up to the limit, and keeps the bytes behind them.
fn is_taken(
    rt: &impl Abort,
    alloc: Global,
    bytes: &[u8],
    limit: u64,
    want: &[u8],
    last: Filled,
    behind: &[u8],
) -> bool {
    let mut input = SliceFeed::new(bytes);
    is_read(rt, alloc, &mut input, limit, want, last) && keeps(&mut input, behind)
}

/// Each input gives the lines that stand beside it, and keeps the bytes behind them.
fn check_cases(rt: &impl Abort, alloc: Global, cases: &[Case<'_>]) {
    for (bytes, limit, want, last, behind) in cases {
        assert!(rt; is_taken(rt, alloc, bytes, *limit, want, *last, behind));
    }
}

#[test]
fn lines_are_taken_up_to_the_limit(rt: HostRuntime) {
    check_cases(&rt, rt.alloc(), &CASES);
}

/// A feed of a line of 1,048,579 bytes, and the line `b`, whose second read fails.
fn long_line(rt: &impl Abort, alloc: Global) -> MemFeed {
    let line = vec![in alloc; b'a'; 1_048_579].expect(rt, "no memory");
    let mut bytes = Row::from_vec(line);
    put(rt, &mut bytes, b"\nb\n");
    let mut bad = Row::new(alloc);
    bad.extend(&[1]).expect(rt, "no memory");
    MemFeed::new(bytes, bad)
}

/// What comes of filling, how many bytes wait then, whether they are of a long line, and where the line ends.
type Step = (Option<Filled>, usize, bool, Option<usize>);

const STEPS: [Step; 3] = [
    (Some(Filled::More), 1_048_578, false, None),
    (None, 0, true, None),
    (Some(Filled::More), 4, true, Some(1)),
];

/// Each step gives what stands beside it.
fn check_steps(rt: &impl Abort, lines: &mut FeedLines, input: &mut MemFeed, steps: &[Step]) {
    for (filled, waits, long, end) in steps {
        assert!(rt; lines.fill(input).ok() == *filled && is_at(lines, *waits, *long, *end));
    }
}

/// Whether so many bytes wait, whether they are of a long line, and where the line ends, are as told.
fn is_at(lines: &FeedLines, waits: usize, long: bool, end: Option<usize>) -> bool {
    lines.rest().len() == waits && lines.is_long() == long && lines.end_of_line() == end
}

/// Whether the line that is left can be passed, and the line `b` stands behind it.
fn is_passed(lines: &mut FeedLines) -> bool {
    match lines.end_of_line() {
        Some(end) => {
            lines.pass(end);
            !lines.is_long() && lines.rest() == b"b\n".as_slice()
        }
        None => false,
    }
}

/// The front of a long line is lost.
fn check_long_line(rt: &impl Abort, alloc: Global) {
    let mut input = long_line(rt, alloc);
    let mut lines = FeedLines::new(alloc, 2_000_000).expect(rt, "no memory");
    check_steps(rt, &mut lines, &mut input, &STEPS);
    drop(input);
    let passed = is_passed(&mut lines);
    drop(lines);
    assert!(rt; passed);
}

#[test]
fn a_long_line_loses_its_front(rt: HostRuntime) {
    check_long_line(&rt, rt.alloc());
}
