ghost use Rattle.std.specs.Prelude.{◌<◌, ◌++◌, length, All};
ghost use Rattle.jass_base.specs.Outside.{Wrote};
ghost use Rattle.jass_base.specs.declared.answer.Hit.{Hit};
ghost use Rattle.ranking_model.specs.Report.{run_lines, tag_of};
ghost use Rattle.trec_run.specs.Private.Columns.{whole_tag};
ghost use Rattle.gathered_text.specs.Gathering.{Gathers};

use crate::block::{BLOCK, gather_block};
use crate::frame::frame_of;
use crate::line::Shared;
use gathered_text::{Buffer, flush};
use itoa::Buffer as Digits;
use jass_base::{Hit, Names, Sink, WriteFault};

/// Puts the run lines of an answer on the sink, in TREC's six columns: the query's id, `Q0`,
/// the document's name, its rank from 1 on, its score, and the tag. Part 0 prints the tag
/// alone, another part the tag, a point and the part. After a WriteFault a prefix of the
/// lines was put.
pub fn put_answer<S: Sink, N: Names>(
    out: &mut S,
    id: &str,
    index: &N,
    hits: &[Hit],
    tag: &str,
    part: u32,
) -> Result<(), WriteFault>
    requires { All (λ (hit : Hit). hit.doc < length (N.names index.now)) hits.now }
    ensures { Wrote S.written S.faults S.rest out.old out.new
        (run_lines (N.names index.now) id.now (tag_of tag.now part) 1 hits.now) result }
{
    let mut buffer = Buffer::new();
    gather_answer(out, &mut buffer, id, index, hits, tag, part)?;
    flush(out, &mut buffer)
}

/// Gathers the run lines of an answer, as `put_answer` puts them. After a WriteFault a prefix of what was gathered
/// before and the lines was put.
pub fn gather_answer<S: Sink, N: Names>(
    out: &mut S,
    buffer: &mut Buffer,
    id: &str,
    index: &N,
    hits: &[Hit],
    tag: &str,
    part: u32,
) -> Result<(), WriteFault>
    requires { All (λ (hit : Hit). hit.doc < length (N.names index.now)) hits.now }
    ensures { Gathers S.written S.faults S.rest out.old out.new buffer.old buffer.new
        (run_lines (N.names index.now) id.now (tag_of tag.now part) 1 hits.now) result }
{
    if part == 0 {
        gather_lines(out, buffer, id, index, hits, tag, "", "")
    } else {
        let mut digits = Digits::new();
        gather_lines(out, buffer, id, index, hits, tag, ".", digits.format(part))
    }
}

/// Gathers the run lines whose tags are followed by a point and a part, or by nothing.
fn gather_lines<S: Sink, N: Names>(
    out: &mut S,
    buffer: &mut Buffer,
    id: &str,
    index: &N,
    hits: &[Hit],
    tag: &str,
    point: &str,
    part: &str,
) -> Result<(), WriteFault>
    requires { All (λ (hit : Hit). hit.doc < length (N.names index.now)) hits.now }
    ensures { Gathers S.written S.faults S.rest out.old out.new buffer.old buffer.new
        (run_lines (N.names index.now) id.now (tag.now ++ (point.now ++ part.now)) 1 hits.now) result }
{
    let shared = Shared {
        id: id.as_bytes(),
        tag: tag.as_bytes(),
        point: point.as_bytes(),
        part: part.as_bytes(),
    };
    gather_blocks(out, buffer, &shared, index, hits)
}

/// Gathers the run lines of the hits, block by block.
fn gather_blocks<S: Sink, N: Names>(
    out: &mut S,
    buffer: &mut Buffer,
    shared: &Shared<'_>,
    index: &N,
    hits: &[Hit],
) -> Result<(), WriteFault>
    requires { All (λ (hit : Hit). hit.doc < length (N.names index.now)) hits.now }
    ensures { Gathers S.written S.faults S.rest out.old out.new buffer.old buffer.new
        (run_lines (N.names index.now) shared.now.id.now (whole_tag shared.now) 1 hits.now) result }
{
    let first = match hits.first() {
        Some(hit) => hit.score,
        None => 0,
    };
    let mut frame = frame_of(shared, first);
    let mut rank: u64 = 1;
    let mut rest = hits;
    while !rest.is_empty() {
        let (block, behind) = rest.split_at(rest.len().min(BLOCK));
        gather_block(out, buffer, shared, &mut frame, index, block, rank)?;
        rank += block.len() as u64;
        rest = behind;
    }
    Ok(())
}
