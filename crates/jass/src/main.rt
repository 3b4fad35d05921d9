#![tactic(auto)]

//! The program: the host's arguments, files, input, output and notes handed to `jass_top::run`.

use jass_base::Steps;
use std::marker::Brand;
use std::sync::ledger::{Blank, Ledger};

mod advice;
mod arguments;
mod file_identity;
mod file_kind;
mod host_arguments;
mod host_cabinet;
mod host_feed;
mod host_files;
mod host_notes;
mod host_sink;
mod part_file;
mod program;
mod refusal_advice;
mod standard_streams;
mod target;
mod terminal;
#[cfg(test)]
mod tests;
mod word_advice;
mod words;

ghost use Rattle.std.specs.Prelude.{◌≡◌, ◌<◌};
ghost use Rattle.jass.specs.Exits.{EndsRun};

use advice::Advice;
use host_arguments::HostArguments;
use host_cabinet::HostCabinet;
use host_feed::HostFeed;
use host_notes::HostNotes;
use host_sink::HostSink;
use program::{Exit, run_line};
use standard_streams::StandardStreams;
use std::io;
use std::io::Write;
use terminal::notes_go_to_a_terminal;
use words::words_of;

fn main(rt: HostRuntime) -> Exit {
    counted::<Brand>(&rt, Blank::new(1))
}

/// Runs the command line's command, whose steps are counted by a ledger. The host tells neither its
/// arguments nor what files and streams hold, so the end is that of some run.
fn counted<L: Ledger>(rt: &HostRuntime, blank: Blank) -> Exit
    requires name { blank.name ≡ L.name }
    requires parts { blank.parts ≡ L.parts }
    requires some { 0 < blank.parts }
    ensures { EndsRun result }
{
    let streams = StandardStreams::hold(rt);
    let mut files = HostCabinet::new(rt);
    let mut input = HostFeed::new(streams.input.usable(rt.reader()));
    let mut out = HostSink::new(streams.output.usable(rt.stdout()));
    let mut notes = HostNotes::new(rt.alloc(), streams.notes.usable(rt.stderr()));
    let mut steps = Steps::<L>::new(blank);
    let exit = run_line(
        rt.alloc(),
        &HostArguments::new(rt),
        &mut files,
        &mut input,
        &mut out,
        &mut notes,
        &mut steps,
    );
    if notes_go_to_a_terminal(rt) {
        say_more(rt, notes, out.reason(), &mut files);
    }
    exit
}

/// Says more of the note of a run, for a person. That nothing can be put there is no fault of the run.
fn say_more<W: Write + Drop>(
    rt: &HostRuntime,
    notes: HostNotes<W>,
    output_reason: Option<io::Error>,
    files: &mut HostCabinet<'_>,
) {
    let (kept, out) = notes.parts();
    let Ok(note) = std::str::from_utf8(kept.as_slice()) else {
        return;
    };
    let Ok(words) = words_of(rt.alloc(), &HostArguments::new(rt)) else {
        return;
    };
    let reason = if note.starts_with("output: ") {
        output_reason
    } else {
        files.reason()
    };
    let mut advice = Advice {
        out,
        alloc: rt.alloc(),
        words: words.as_slice(),
        reason,
    };
    let _ = advice.on(note, files);
}
