// Runs as they are read, where there is memory.

use jass_base::Text;
use std::alloc::Global;
use std::process::Abort;
use trec_run::{RunFault, RunLine, RunWhy, read_run};

/// Four lines of a search.
const FOUR_LINES: &[u8] =
    b"301 Q0 d0 1 3 jass.1\n301 Q0 d2 2 3 jass.1\n301 Q0 d0 1 3 jass.2\n301 Q0 d1 2 3 jass.2\n";

/// A text has so many lines.
fn check_count(rt: &impl Abort, alloc: Global, text: &[u8], count: usize) {
    let run = read_run(alloc, text).expect(rt, "refused");
    let lines = run.len();
    drop(run);
    assert!(rt; lines == count);
}

#[test]
fn four_lines_of_a_search(rt: HostRuntime) {
    check_count(&rt, rt.alloc(), FOUR_LINES, 4);
}

/// Whether a line has these columns.
fn is_line(line: &RunLine) -> bool {
    is_text(&line.id, "1")
        && is_text(&line.name, "d")
        && line.rank == 2
        && line.score == 3
        && is_text(&line.tag, "t")
}

/// Whether a column is this text.
fn is_text(text: &Text, wanted: &str) -> bool {
    text.as_str() == wanted
}

/// The one line that follows a line without bytes.
fn check_second(rt: &impl Abort, alloc: Global, text: &[u8]) {
    let run = read_run(alloc, text).expect(rt, "refused");
    let second = is_one_line(run.as_slice());
    drop(run);
    assert!(rt; second);
}

/// Whether there is one line, with these columns.
fn is_one_line(lines: &[RunLine]) -> bool {
    match lines {
        [line] => is_line(line),
        _ => false,
    }
}

#[test]
fn blanks_and_lines_without_bytes(rt: HostRuntime) {
    check_second(&rt, rt.alloc(), b"\n\t 1\tQ0  d 2 3 t \r\n");
}

/// Texts, each with its first bad line and why it is bad.
const REFUSED: [(&[u8], u64, RunWhy); 6] = [
    (b"\r\n1 Q0 d 1 2.5 t\n", 2, RunWhy::Number),
    (b"1 Q0 d 1 2.5 t\n", 1, RunWhy::Number),
    (b"1 Q0 d 1 2", 1, RunWhy::Columns),
    (b"1 Q0 d 1 2 t u", 1, RunWhy::Columns),
    (b"1 Q1 d 1 x t", 1, RunWhy::Columns),
    (b"1 Q0 d\xff 1 x t", 1, RunWhy::Columns),
];

/// Each text is refused so.
fn check_refused(rt: &impl Abort, alloc: Global, texts: &[(&[u8], u64, RunWhy)]) {
    for (text, line, why) in texts {
        assert!(rt; refuses(alloc, text, *line, *why));
    }
}

#[test]
fn bad_lines(rt: HostRuntime) {
    check_refused(&rt, rt.alloc(), &REFUSED);
}

fn refuses(alloc: Global, text: &[u8], line: u64, why: RunWhy) -> bool {
    read_run(alloc, text).err() == Some(RunFault::Refused { line, why })
}
