ghost use Rattle.std.specs.Prelude.{◌++◌, codes};
ghost use Rattle.jass_base.specs.Outside.{Wrote};
ghost use Rattle.jass_top.specs.Stops.{place_text, word_text};
ghost use Rattle.jass_top.specs.Private.Stops.{stop_text};

use crate::stop::{Place, Stop};
use gathered_text::put_all;
use itoa::Buffer;
use jass_base::{Sink, WriteFault};

/// Puts the line of the first bad word, counted from 1, on the notes.
pub fn put_word<E: Sink>(notes: &mut E, which: u32) -> Result<(), WriteFault>
    ensures { Wrote E.written E.faults E.rest notes.old notes.new (word_text which) result }
{
    let mut digits = Buffer::new();
    let which = digits.format(which).as_bytes();
    put_all(notes, &[b"word ", which, b"\n"])
}

/// Puts the line of a command that stopped on the notes.
pub fn put_stop<E: Sink>(notes: &mut E, stop: Stop<'_>) -> Result<(), WriteFault>
    ensures { Wrote E.written E.faults E.rest notes.old notes.new (stop_text stop.entry) result }
{
    match stop {
        Stop::NoMemory => put_all(notes, &[b"no memory\n"]),
        Stop::Refused { name, number, at } => {
            let mut digits = Buffer::new();
            let number = digits.format(number).as_bytes();
            put_refusal(notes, name.as_bytes(), number, at)
        }
        Stop::ReadFault { name } => put_fault(notes, name.as_bytes(), b": read fault\n"),
        Stop::WriteFault { name } => put_fault(notes, name.as_bytes(), b": write fault\n"),
        Stop::InputLimit => put_all(notes, &[b"input limit\n"]),
    }
}

/// Puts the line of a refusal at a place.
fn put_refusal<E: Sink>(
    notes: &mut E,
    name: &[u8],
    number: &[u8],
    at: Place,
) -> Result<(), WriteFault>
    ensures { Wrote E.written E.faults E.rest notes.old notes.new
        (name.now ++ (codes ": refusal " ++ (number.now ++ place_text at))) result }
{
    let mut digits = Buffer::new();
    match at {
        Place::Byte(byte) => {
            let place = digits.format(byte).as_bytes();
            put_pieces(notes, name, number, b" at ", place)
        }
        Place::Line(line) => {
            let place = digits.format(line).as_bytes();
            put_pieces(notes, name, number, b" at line ", place)
        }
    }
}

/// Puts the pieces of that line, which have one lifetime so that they lie in one array.
fn put_pieces<'x, E: Sink>(
    notes: &mut E,
    name: &'x [u8],
    number: &'x [u8],
    at: &'x [u8],
    place: &'x [u8],
) -> Result<(), WriteFault>
    ensures { Wrote E.written E.faults E.rest notes.old notes.new
        (name.now ++ (codes ": refusal " ++ (number.now ++ (at.now ++ (place.now ++ codes "\n"))))) result }
{
    put_all(notes, &[name, b": refusal ", number, at, place, b"\n"])
}

/// Puts a name and what is said of it.
fn put_fault<'x, E: Sink>(notes: &mut E, name: &'x [u8], fault: &'x [u8]) -> Result<(), WriteFault>
    ensures { Wrote E.written E.faults E.rest notes.old notes.new (name.now ++ fault.now) result }
{
    put_all(notes, &[name, fault])
}
