//! The parts of messages, spelled into a buffer that has the room for them.

ghost use Rattle.std.specs.Prelude.{◌≡◌, ◌+◌, ◌*◌, ◌≤◌, ◌<◌, ◌++◌, length};
ghost use Rattle.jass_base.specs.Wire.{short_varint};
ghost use Rattle.jass_base.specs.CiffText.{sized, number_spelling};
ghost use Rattle.gathered_text.specs.declared.buffer.TheConstants.{ROOM};

use crate::lengths::any_posting_len;
use gathered_text::Buffer;

/// The most bytes of a varint.
pub const VARINT_ROOM: usize = 10;

/// The most bytes of the field of a number: a tag of one byte, and a varint.
pub const NUMBER_ROOM: usize = 11;

/// The most bytes of the field of a posting: a tag and a length of one byte, and two numbers.
pub const POSTING_ROOM: usize = 24;

/// The tag of a posting in its list: field 4, a message.
const POSTING: u8 = 34;

/// The tag of the gap in a posting: field 1, a number.
const GAP: u8 = 8;

/// The tag of the tf in a posting: field 2, a number.
const TF: u8 = 16;

/// Puts the shortest varint of a number.
pub fn push_varint(buffer: &mut Buffer, value: u64)
    requires { length buffer.old + 10 ≤ ROOM }
    ensures bytes { buffer.new ≡ buffer.old ++ short_varint value }
    ensures few { length buffer.new ≤ length buffer.old + 10 }
{
    let mut left = value;
    'groups: while left >= 128 {
        buffer.push_byte((left % 128 + 128) as u8);
        left /= 128;
    }
    buffer.push_byte(left as u8);
}

/// Puts the field of a number, or nothing for 0.
pub fn push_number(buffer: &mut Buffer, field: u8, value: u64)
    requires room { length buffer.old + 11 ≤ ROOM }
    requires field { field < 16 }
    ensures bytes { buffer.new ≡ buffer.old ++ number_spelling field value }
    ensures few { length buffer.new ≤ length buffer.old + 11 }
{
    if value != 0 {
        buffer.push_byte(field * 8);
        push_varint(buffer, value);
    }
}

/// Puts the field of a posting, by its gap. Nearly all gaps have one to three bytes, and
/// nearly all tf one.
#[inline(always)]
pub fn push_posting(buffer: &mut Buffer, gap: u32, tf: u32)
    requires { length buffer.old + 24 ≤ ROOM }
    ensures { buffer.new ≡ buffer.old ++ (short_varint (4 * 8 + 2)
        ++ sized (number_spelling 1 gap ++ number_spelling 2 tf)) }
{
    if gap == 0 || gap >= 2_097_152 || tf == 0 || tf >= 128 {
        push_any_posting(buffer, gap, tf);
        return;
    }
    let tf = tf as u8;
    if gap < 128 {
        buffer.push(&[POSTING, 4, GAP, gap as u8, TF, tf]);
        return;
    }
    let low = (gap % 128 + 128) as u8;
    if gap < 16_384 {
        buffer.push(&[POSTING, 5, GAP, low, (gap / 128) as u8, TF, tf]);
        return;
    }
    let middle = (gap / 128 % 128 + 128) as u8;
    buffer.push(&[POSTING, 6, GAP, low, middle, (gap / 16_384) as u8, TF, tf]);
}

/// Puts the field of a posting of any numbers.
fn push_any_posting(buffer: &mut Buffer, gap: u32, tf: u32)
    requires { length buffer.old + 24 ≤ ROOM }
    ensures { buffer.new ≡ buffer.old ++ (short_varint (4 * 8 + 2)
        ++ sized (number_spelling 1 gap ++ number_spelling 2 tf)) }
{
    buffer.push_byte(POSTING);
    buffer.push_byte(any_posting_len(gap, tf));
    push_number(buffer, 1, u64::from(gap));
    push_number(buffer, 2, u64::from(tf));
}
