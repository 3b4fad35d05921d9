ghost use Rattle.std.specs.Prelude.{◌≡◌, ◌+◌, ◌≤◌, [], length, flat_map, IfOk};
ghost use Rattle.jass_base.specs.Outside.{Wrote};
ghost use Rattle.gathered_text.specs.Gathering.{Gathers};
ghost use Rattle.gathered_text.specs.declared.buffer.TheConstants.{ROOM};

use crate::buffer::{Buffer, PIECE, ROOM};
use jass_base::{Sink, WriteFault};

/// Puts bytes on the sink.
fn put<S: Sink>(out: &mut S, bytes: &[u8]) -> Result<(), WriteFault>
    ensures { Wrote S.written S.faults S.rest out.old out.new bytes.now result }
{
    match out.put(bytes) {
        Ok(()) => Ok(()),
        Err(_) => Err(WriteFault),
    }
}

/// Puts what was gathered on the sink. After a WriteFault a prefix of it was put.
pub fn flush<S: Sink>(out: &mut S, buffer: &mut Buffer) -> Result<(), WriteFault>
    ensures text { Wrote S.written S.faults S.rest out.old out.new buffer.old result }
    ensures empty { IfOk result (λ _. buffer.new ≡ []) }
    ensures kept { Gathers S.written S.faults S.rest out.old out.new buffer.old buffer.new [] result }
{
    put(out, buffer.as_slice())?;
    buffer.clear();
    Ok(())
}

/// Makes room for so many bytes: where there is too little, what was gathered goes to the sink up to the end of its last
/// whole piece, or all of it where many are asked for.
#[inline(always)]
pub fn make_room<S: Sink>(out: &mut S, buffer: &mut Buffer, count: usize) -> Result<(), WriteFault>
    requires { count ≤ ROOM }
    ensures text { Gathers S.written S.faults S.rest out.old out.new buffer.old buffer.new [] result }
    ensures room { IfOk result (λ _. length buffer.new + count ≤ ROOM) }
{
    if count <= buffer.room() {
        return Ok(());
    }
    put_pieces(out, buffer, count)
}

/// Puts what was gathered up to the end of its last whole piece, or all of it for more bytes than find room behind one.
#[inline(never)]
fn put_pieces<S: Sink>(out: &mut S, buffer: &mut Buffer, count: usize) -> Result<(), WriteFault>
    requires { count ≤ ROOM }
    ensures text { Gathers S.written S.faults S.rest out.old out.new buffer.old buffer.new [] result }
    ensures room { IfOk result (λ _. length buffer.new + count ≤ ROOM) }
{
    if count > ROOM - PIECE {
        return flush(out, buffer);
    }
    let whole = buffer.whole_pieces();
    put(out, &buffer.as_slice()[..whole])?;
    buffer.drop_front(whole);
    Ok(())
}

/// Puts bytes behind what was gathered. Those for which the buffer has no room go to the
/// sink at once.
pub fn put_bytes<S: Sink>(out: &mut S, buffer: &mut Buffer, bytes: &[u8]) -> Result<(), WriteFault>
    ensures { Gathers S.written S.faults S.rest out.old out.new buffer.old buffer.new bytes.now result }
{
    if bytes.len() <= ROOM {
        make_room(out, buffer, bytes.len())?;
        buffer.push(bytes);
        return Ok(());
    }
    flush(out, buffer)?;
    buffer.pass(bytes.len());
    put(out, bytes)
}

/// Puts pieces behind what was gathered, one behind the other.
pub fn gather_all<S: Sink>(
    out: &mut S,
    buffer: &mut Buffer,
    pieces: &[&[u8]],
) -> Result<(), WriteFault>
    ensures { Gathers S.written S.faults S.rest out.old out.new buffer.old buffer.new
        (flat_map (λ piece. piece.now) pieces.now) result }
{
    for piece in pieces {
        put_bytes(out, buffer, piece)?;
    }
    Ok(())
}

/// Puts pieces on the sink as one text. After a WriteFault a prefix of it was put.
pub fn put_all<S: Sink>(out: &mut S, pieces: &[&[u8]]) -> Result<(), WriteFault>
    ensures { Wrote S.written S.faults S.rest out.old out.new (flat_map (λ piece. piece.now) pieces.now) result }
{
    let mut buffer = Buffer::new();
    gather_all(out, &mut buffer, pieces)?;
    flush(out, &mut buffer)
}
