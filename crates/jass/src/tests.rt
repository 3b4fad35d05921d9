// The trusted edge: the host's files as a cabinet, and streams as a feed and a sink; an answer over
// them. The exit status of a command line that tells its arguments.

ghost use Rattle.std.specs.Prelude.{◌≡◌, ◌<◌, Some, map};

use crate::arguments::Arguments;
use crate::host_cabinet::HostCabinet;
use crate::host_feed::HostFeed;
use crate::host_sink::HostSink;
use crate::program::run_line;
use jass_base::{Cabinet, Feed, MemCabinet, MemSink, Row, Sink, SliceFeed, Steps};
use std::alloc::Global;
use std::env::FillError;
use std::fs::{
    Permissions, hard_link, metadata, remove_file, set_permissions, symlink_metadata, write,
};
use std::marker::Brand;
use std::os::unix::fs::{MetadataExt, PermissionsExt, symlink};
use std::sync::ledger::{Blank, Ledger};

/// Makes a file by a cabinet of its own; whether each call went well.
fn makes(rt: &HostRuntime, name: &str, bytes: &[u8]) -> bool {
    let mut files = HostCabinet::new(rt);
    files.create(name).is_ok() && files.append(name, bytes).is_ok() && files.finish(name).is_ok()
}

/// Whether a file of up to 16 bytes holds these.
fn holds(rt: &HostRuntime, name: &str, bytes: &[u8]) -> bool {
    let mut files = HostCabinet::new(rt);
    let mut piece = [0u8; 16];
    match files.read_at(name, 0, &mut piece) {
        Ok(count) => piece.get(..count) == Some(bytes),
        Err(_) => false,
    }
}

/// Whether a name, or a link of the name, stands.
fn stands(rt: &HostRuntime, name: &str) -> bool {
    symlink_metadata(rt, name).is_ok()
}

#[test]
fn files_are_made_and_read(rt: HostRuntime) {
    let mut files = HostCabinet::new(&rt);
    let name = "jass_host_made.tmp";
    let mut piece = [0u8; 8];
    assert!(&rt; files.create(name).is_ok());
    assert!(&rt; files.append(name, b"segment").is_ok());
    assert!(&rt; !stands(&rt, name));
    assert!(&rt; files.finish(name).is_ok());
    let count = files.read_at(name, 3, &mut piece).unwrap_or(0);
    assert_eq!(&rt; count, 4);
    assert!(&rt; piece == *b"ment\0\0\0\0");
    assert!(&rt; files.finish(name).is_ok());
    assert!(&rt; remove_file(&rt, name).is_ok());
    assert!(&rt;
        files
            .read_at("jass_no_such_file.tmp", 0, &mut piece)
            .is_err()
    );
}

#[test]
fn a_file_made_again_keeps_its_rights_alone(rt: HostRuntime) {
    let name = "jass_host_again.tmp";
    assert!(&rt; makes(&rt, name, b"segment"));
    assert!(&rt; set_permissions(&rt, name, Permissions::from_mode(0o640)).is_ok());
    assert!(&rt; write(&rt, "jass_host_again.tmp.part", b"left behind by a crash").is_ok());
    assert!(&rt; makes(&rt, name, b"term"));
    assert!(&rt; holds(&rt, name, b"term"));
    assert_eq!(&rt; rights(&rt, name), 0o640);
    assert!(&rt; !stands(&rt, "jass_host_again.tmp.part"));
    assert!(&rt; remove_file(&rt, name).is_ok());
}

/// The permission bits of a file; 0 where it can't be looked at.
fn rights(rt: &HostRuntime, name: &str) -> u32 {
    match metadata(rt, name) {
        Ok(found) => found.mode() & 0o777,
        Err(_) => 0,
    }
}

#[test]
fn a_file_that_is_not_finished_is_as_before(rt: HostRuntime) {
    let name = "jass_host_unfinished.tmp";
    assert!(&rt; makes(&rt, name, b"segment"));
    assert!(&rt; begins(&rt, name));
    assert!(&rt; holds(&rt, name, b"segment"));
    assert!(&rt; !stands(&rt, "jass_host_unfinished.tmp.part"));
    assert!(&rt; remove_file(&rt, name).is_ok());
}

/// Makes a file and doesn't finish it.
fn begins(rt: &HostRuntime, name: &str) -> bool {
    let mut files = HostCabinet::new(rt);
    files.create(name).is_ok() && files.append(name, b"term").is_ok()
}

#[test]
fn a_part_of_another_run_is_left_alone(rt: HostRuntime) {
    let name = "jass_host_runs.tmp";
    let mut first = HostCabinet::new(&rt);
    let mut second = HostCabinet::new(&rt);
    assert!(&rt; first.create(name).is_ok());
    assert!(&rt; second.create(name).is_ok());
    assert!(&rt; first.finish(name).is_err());
    assert!(&rt; !stands(&rt, name));
    assert!(&rt; second.finish(name).is_ok());
    assert!(&rt; remove_file(&rt, name).is_ok());
}

/// Names that lead to one file, and one whose part would stand in its place.
const ALIASES: [&str; 5] = [
    "jass_host_read.tmp.part",
    "./jass_host_read.tmp.part",
    "jass_host_link.tmp",
    "jass_host_hard_link.tmp",
    "jass_host_read.tmp",
];

#[test]
fn nothing_is_made_in_place_of_what_was_read(rt: HostRuntime) {
    let [name, _, link, hard, _] = ALIASES;
    let mut piece = [0u8; 16];
    assert!(&rt; makes(&rt, name, b"segment"));
    assert!(&rt; symlink(&rt, name, link).is_ok());
    assert!(&rt; hard_link(&rt, name, hard).is_ok());
    let mut files = HostCabinet::new(&rt);
    assert!(&rt; files.read_at(name, 0, &mut piece).is_ok());
    for alias in ALIASES {
        assert!(&rt; files.create(alias).is_err());
        assert!(&rt; holds(&rt, name, b"segment"));
    }
    assert!(&rt; makes(&rt, link, b"term"));
    assert!(&rt; symlink_metadata(&rt, link).is_ok_and(|found| found.is_symlink()));
    assert!(&rt; holds(&rt, name, b"term"));
    for made in [link, hard, name] {
        assert!(&rt; remove_file(&rt, made).is_ok());
    }
}

#[test]
fn streams_are_read_and_written(rt: HostRuntime) {
    let mut piece = [0u8; 4];
    let mut feed = HostFeed::new(Some(b"posting".as_slice()));
    assert_eq!(&rt; feed.read(&mut piece).unwrap_or(0), 4);
    assert!(&rt; piece == *b"post");
    let mut sink = HostSink::new(Some(Vec::new(rt.alloc())));
    assert!(&rt; sink.put(b"impact").is_ok());
    assert!(&rt;
        sink.inner()
            .is_some_and(|put| put.as_slice() == b"impact".as_slice())
    );
}

/// A command line in memory.
#[derive(Drop)]
struct Line<'a> {
    arguments: &'a [&'a [u8]],
}

impl<'a> Arguments for Line<'a> {
    ghost told = { λ l. Some (map (λ argument. argument.now) l.arguments.now) };

    fn argument(&self, place: usize, buf: &mut [u8]) -> Result<usize, FillError> {
        let Some(argument) = self.arguments.get(place) else {
            return Err(FillError::NotPresent);
        };
        let count = argument.len();
        if count > buf.len() {
            return Err(FillError::TooLong);
        }
        buf[..count].copy_from_slice(argument);
        Ok(count)
    }
}

/// The exit status of a command line over a cabinet without files.
fn exit_by<L: Ledger>(alloc: Global, blank: Blank, arguments: &[&[u8]]) -> (u8, MemSink)
    requires name { blank.name ≡ L.name }
    requires parts { blank.parts ≡ L.parts }
    requires some { 0 < blank.parts }
{
    let mut files = MemCabinet::new(alloc, Row::new(alloc), Row::new(alloc));
    let mut input = SliceFeed::new(b"");
    let mut out = MemSink::new(alloc, Row::new(alloc));
    let mut notes = MemSink::new(alloc, Row::new(alloc));
    let mut steps = Steps::<L>::new(blank);
    let line = Line { arguments };
    let status = run_line(
        alloc, &line, &mut files, &mut input, &mut out, &mut notes, &mut steps,
    );
    (status.number(), notes)
}

fn exits(alloc: Global, arguments: &[&[u8]]) -> (u8, MemSink) {
    exit_by::<Brand>(alloc, Blank::new(1), arguments)
}

#[test]
fn exit_statuses_are_those_of_runs(rt: HostRuntime) {
    let table: [(&[&[u8]], u8, &[u8]); 7] = [
        (&[b"jass", b"--help"], 0, b""),
        (&[b"jass"], 2, b"word 1\n"),
        (&[], 2, b"word 1\n"),
        (&[b"jass", b"\xff", b"a.ciff"], 2, b"word 1\n"),
        (&[b"jass", b"rewrite", b"a.ciff", b"\xff"], 2, b"word 3\n"),
        (&[b"jass", b"rewrite", b"", b"\xff"], 2, b"word 2\n"),
        (
            &[b"jass", b"rewrite", b"a.ciff", b"b.ciff"],
            4,
            b"a.ciff: read fault\n",
        ),
    ];
    for (arguments, status, noted) in table {
        let (ended, notes) = exits(rt.alloc(), arguments);
        assert_eq!(&rt; ended, status);
        assert!(&rt; notes.written() == noted);
    }
}

/// The example file, which `data/b.ciff` holds too.
const EXAMPLE: &[u8] =
    b"\x15\x08\x01\x10\x01\x18\x03\x20\x01\x28\x03\x30\x0f\x39\0\0\0\0\0\0\x14\x40\
    \x17\x0a\x01a\x10\x03\x18\x0f\x22\x02\x10\x09\x22\x04\x08\x01\x10\x05\x22\x04\x08\x01\x10\x01\
    \x06\x12\x02d0\x18\x09\x08\x08\x01\x12\x02d1\x18\x05\x08\x08\x02\x12\x02d2\x18\x01";

/// What the example prints.
const ANSWER: &[u8] = b"q postings 3 segments 3 of 3 cutoff 1 next 0 bound 0 unknown 0 final\n\
    q Q0 d0 1 9 jass\nq Q0 d1 2 5 jass\nq Q0 d2 3 1 jass\n";

/// The exit status of a command line over the host's files, what it prints, and what it notes.
fn host_exit<L: Ledger>(
    rt: &HostRuntime,
    blank: Blank,
    arguments: &[&[u8]],
) -> (u8, HostSink<Vec<u8>>, HostSink<Vec<u8>>)
    requires name { blank.name ≡ L.name }
    requires parts { blank.parts ≡ L.parts }
    requires some { 0 < blank.parts }
{
    let alloc = rt.alloc();
    let mut files = HostCabinet::new(rt);
    let mut input = HostFeed::new(Some(b"".as_slice()));
    let mut out = HostSink::new(Some(Vec::new(alloc)));
    let mut notes = HostSink::new(Some(Vec::new(alloc)));
    let mut steps = Steps::<L>::new(blank);
    let line = Line { arguments };
    let status = run_line(
        alloc, &line, &mut files, &mut input, &mut out, &mut notes, &mut steps,
    );
    (status.number(), out, notes)
}

fn exits_at_host(
    rt: &HostRuntime,
    arguments: &[&[u8]],
) -> (u8, HostSink<Vec<u8>>, HostSink<Vec<u8>>) {
    host_exit::<Brand>(rt, Blank::new(1), arguments)
}

#[test]
fn the_example_is_answered(rt: HostRuntime) {
    let name = "jass_host_example.tmp";
    assert!(&rt; makes(&rt, name, EXAMPLE));
    let arguments: [&[u8]; 6] = [b"jass", b"once", name.as_bytes(), b"3", b"all", b"a"];
    let (ended, out, notes) = exits_at_host(&rt, &arguments);
    assert!(&rt; remove_file(&rt, name).is_ok());
    assert_eq!(&rt; ended, 0);
    assert!(&rt; out.inner().is_some_and(|put| put.as_slice() == ANSWER));
    assert!(&rt; notes.inner().is_some_and(|put| put.is_empty()));
}
