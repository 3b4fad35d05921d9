//! The run lines of a few hits.

ghost use Rattle.std.specs.Prelude.{ℕ, ◌≡◌, ◌+◌, ◌*◌, ◌<◌, ◌≤◌, ◌^◌, ◌++◌, [], length, map, All, IfSome, List};
ghost use Rattle.jass_base.specs.declared.answer.Hit.{Hit};
ghost use Rattle.ranking_model.specs.Report.{run_lines};
ghost use Rattle.trec_run.specs.Private.Columns.{IsFrame, names_of, whole_tag};
ghost use Rattle.gathered_text.specs.Gathering.{Gathers};
ghost use Rattle.gathered_text.specs.declared.buffer.TheConstants.{ROOM};

use crate::frame::Frame;
use crate::line::{SHORT, SHORT_LINE, Shared, gather_line};
use gathered_text::{Buffer, make_room};
use jass_base::{Hit, Names, Sink, WriteFault};

/// The most hits of a block.
pub const BLOCK: usize = 16;

/// Gathers the run lines of a block of hits, the first of which has this rank.
pub fn gather_block<S: Sink, N: Names>(
    out: &mut S,
    buffer: &mut Buffer,
    shared: &Shared<'_>,
    frame: &mut Option<Frame>,
    index: &N,
    hits: &[Hit],
    first: u64,
) -> Result<(), WriteFault>
    requires docs { All (λ (hit : Hit). hit.doc < length (N.names index.now)) hits.now }
    requires frame { IfSome frame.old (λ frame. IsFrame frame shared.now.id.now (whole_tag shared.now)) }
    requires few { length hits.now ≤ 16 }
    requires ranks { first + length hits.now < 2 ^ 64 }
    ensures frame { IfSome frame.new (λ frame. IsFrame frame shared.now.id.now (whole_tag shared.now)) }
    ensures text { Gathers S.written S.faults S.rest out.old out.new buffer.old buffer.new
        (run_lines (N.names index.now) shared.now.id.now (whole_tag shared.now) first hits.now) result }
{
    let Some(frame) = frame else {
        return gather_each(out, buffer, shared, index, hits, first);
    };
    // Names are seldom in a cache. Each is looked up once, and all before a line is written: the loads then overlap.
    let mut row: [&[u8]; BLOCK] = [&[]; BLOCK];
    let names = &mut row[..hits.len()];
    if look_up(index, hits, names) > SHORT {
        return gather_each(out, buffer, shared, index, hits, first);
    }
    make_room(out, buffer, BLOCK * SHORT_LINE)?;
    push_each(buffer, frame, hits, names, first);
    Ok(())
}

/// Writes the name of each hit at its place, and answers the bytes of the longest.
fn look_up<'a, N: Names>(index: &'a N, hits: &[Hit], names: &mut [&'a [u8]]) -> usize
    requires docs { All (λ (hit : Hit). hit.doc < length (N.names index.now)) hits.now }
    requires places { length names.old ≡ length hits.now }
    ensures names { map (λ name. name.now) names.new ≡ names_of (N.names index.now) hits.now }
    ensures longest { All (λ name. length name.now ≤ result) names.new }
{
    let mut longest = 0;
    for i in 0..hits.len() {
        let name = index.name(hits[i].doc).as_bytes();
        longest = longest.max(name.len());
        names[i] = name;
    }
    longest
}

/// Puts run lines with this frame and these names, for which there is room behind what was gathered. The frame is then
/// ended for the lines of the last hit's score.
fn push_each(buffer: &mut Buffer, frame: &mut Frame, hits: &[Hit], names: &[&[u8]], first: u64)
    requires places { length names.now ≡ length hits.now }
    requires lengths { All (λ name. length name.now ≤ 128) names.now }
    requires few { length hits.now ≤ 16 }
    requires ranks { first + length hits.now < 2 ^ 64 }
    requires room { length buffer.old + 16 * 1024 ≤ ROOM }
    requires short { length frame.old.tail ≤ 53 }
    ensures frame { (id tag : List ℕ) → IsFrame frame.old id tag → IsFrame frame.new id tag }
    ensures lines { (all : List (List ℕ)) (id tag : List ℕ) → map (λ name. name.now) names.now ≡ names_of all hits.now
        → IsFrame frame.old id tag → buffer.new ≡ buffer.old ++ run_lines all id tag first hits.now }
{
    for i in 0..hits.len() {
        let score = hits[i].score;
        if score != frame.score {
            frame.end_with(score);
        }
        buffer.push_line(&frame.front, names[i], first + i as u64, &frame.ending);
    }
}

/// Gathers run lines piece by piece.
fn gather_each<S: Sink, N: Names>(
    out: &mut S,
    buffer: &mut Buffer,
    shared: &Shared<'_>,
    index: &N,
    hits: &[Hit],
    first: u64,
) -> Result<(), WriteFault>
    requires docs { All (λ (hit : Hit). hit.doc < length (N.names index.now)) hits.now }
    requires ranks { first + length hits.now < 2 ^ 64 }
    ensures { Gathers S.written S.faults S.rest out.old out.new buffer.old buffer.new
        (run_lines (N.names index.now) shared.now.id.now (whole_tag shared.now) first hits.now) result }
{
    let mut rank = first;
    for hit in hits {
        let name = index.name(hit.doc).as_bytes();
        gather_line(out, buffer, shared, name, rank, hit.score)?;
        rank += 1;
    }
    Ok(())
}
