ghost use Rattle.std.specs.Prelude.{◌+◌, ◌*◌, ◌<◌, ◌∷◌};
ghost use Rattle.jass_base.specs.Wire.{short_varint};
ghost use Rattle.jass_base.specs.CiffText.{number_spelling, text_spelling};
ghost use Rattle.gathered_text.specs.Gathering.{Gathers};

use crate::spelling::{NUMBER_ROOM, VARINT_ROOM, push_number, push_varint};
use gathered_text::{Buffer, make_room, put_bytes};
use jass_base::{Sink, WriteFault};

/// Puts the length of a message.
pub fn put_size<S: Sink>(out: &mut S, buffer: &mut Buffer, size: u64) -> Result<(), WriteFault>
    ensures { Gathers S.written S.faults S.rest out.old out.new buffer.old buffer.new (short_varint size) result }
{
    make_room(out, buffer, VARINT_ROOM)?;
    push_varint(buffer, size);
    Ok(())
}

/// Puts the field of a number, or nothing for 0.
pub fn put_number<S: Sink>(
    out: &mut S,
    buffer: &mut Buffer,
    field: u8,
    value: u64,
) -> Result<(), WriteFault>
    requires { field < 16 }
    ensures { Gathers S.written S.faults S.rest out.old out.new buffer.old buffer.new
        (number_spelling field value) result }
{
    make_room(out, buffer, NUMBER_ROOM)?;
    push_number(buffer, field, value);
    Ok(())
}

/// Puts the tag of a text's field and the length of the text.
fn put_text_head<S: Sink>(
    out: &mut S,
    buffer: &mut Buffer,
    field: u8,
    len: u64,
) -> Result<(), WriteFault>
    requires { field < 15 }
    ensures { Gathers S.written S.faults S.rest out.old out.new buffer.old buffer.new
        ((field * 8 + 2) ∷ short_varint len) result }
{
    make_room(out, buffer, NUMBER_ROOM)?;
    buffer.push_byte(field * 8 + 2);
    push_varint(buffer, len);
    Ok(())
}

/// Puts the field of a text, or nothing for an empty one.
pub fn put_text<S: Sink>(
    out: &mut S,
    buffer: &mut Buffer,
    field: u8,
    text: &str,
) -> Result<(), WriteFault>
    requires { field < 15 }
    ensures { Gathers S.written S.faults S.rest out.old out.new buffer.old buffer.new
        (text_spelling field text.now) result }
{
    if text.is_empty() {
        return Ok(());
    }
    put_text_head(out, buffer, field, text.len() as u64)?;
    put_bytes(out, buffer, text.as_bytes())
}
