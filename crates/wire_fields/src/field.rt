ghost use Rattle.std.specs.Prelude.{ℕ, ◌≡◌, ◌≤◌, List, length};
ghost use Rattle.jass_base.specs.Wire.{number_after, text_after, eight_after};
ghost use Rattle.wire_fields.specs.Places.{IsWithin, ReadsField, field_in};
ghost use Rattle.wire_fields.specs.Private.Places.{ReadsValue};

use crate::fault::{WireFault, WireWhy};
use crate::varint::read_varint;

/// A field's value: a number, or where its bytes stand.
#[derive(Clone, Copy, Debug, PartialEq, Eq)]
pub enum Value {
    Varint(u64),
    /// The place of eight bytes.
    Eight(usize),
    /// The first place, and the place behind the last.
    Bytes(usize, usize),
    /// The place of four bytes.
    Four(usize),
}

/// A field of a message, and the place behind it.
#[derive(Clone, Copy, Debug, PartialEq, Eq)]
pub struct Field {
    /// 1 to 536,870,911.
    pub number: u32,
    pub value: Value,
    pub next: usize,
}

impl Field {
    /// The field's number where it is the varint of this field number, else the one before.
    #[inline]
    pub fn number_or(&self, number: u32, before: u64) -> u64
        ensures { (bytes : List ℕ) → result ≡ number_after number before (field_in bytes self.now) }
    {
        if self.number == number {
            if let Value::Varint(value) = self.value {
                return value;
            }
        }
        before
    }

    /// The field's bytes where it is the string of this field number, else those before.
    /// The field is one of `bytes`.
    pub fn bytes_or<'a>(&self, number: u32, bytes: &'a [u8], before: &'a [u8]) -> &'a [u8]
        requires value { IsWithin self.now.value self.now.next }
        requires within { self.now.next ≤ length bytes.now }
        ensures { result.now ≡ text_after number before.now (field_in bytes.now self.now) }
    {
        if self.number == number {
            if let Value::Bytes(first, after) = self.value {
                return &bytes[first..after];
            }
        }
        before
    }

    /// The field's eight bytes where it is the fixed value of this field number, else those
    /// before. The field is one of `bytes`.
    pub fn eight_or(&self, number: u32, bytes: &[u8], before: [u8; 8]) -> [u8; 8]
        requires value { IsWithin self.now.value self.now.next }
        requires within { self.now.next ≤ length bytes.now }
        ensures { result ≡ eight_after number before (field_in bytes.now self.now) }
    {
        if self.number == number {
            if let Value::Eight(first) = self.value {
                let mut eight = before;
                eight.copy_from_slice(&bytes[first..first + 8]);
                return eight;
            }
        }
        before
    }
}

/// Reads the field at a place of a message's body. None exactly at its end. A fault's place
/// is the field's first byte. Faults are looked for in the tag's varint, then the field
/// number, then the wire type, then the value.
#[inline(always)]
pub fn next_field(bytes: &[u8], at: usize) -> Result<Option<Field>, WireFault>
    requires { at ≤ length bytes.now }
    ensures { ReadsField bytes.now at result }
{
    if at == bytes.len() {
        return Ok(None);
    }
    let (tag, from) = read_varint(bytes, at)?;
    let number = tag / 8;
    if number == 0 || number > 536_870_911 {
        return Err(WireFault {
            at,
            why: WireWhy::FieldNumber,
        });
    }
    match read_value(bytes, from, tag % 8) {
        Ok((value, next)) => Ok(Some(Field {
            number: number as u32,
            value,
            next,
        })),
        Err(why) => Err(WireFault { at, why }),
    }
}

/// Reads the value of a wire type, and gives the place behind it.
#[inline(always)]
fn read_value(bytes: &[u8], from: usize, wire: u64) -> Result<(Value, usize), WireWhy>
    requires { from ≤ length bytes.now }
    ensures { ReadsValue wire bytes.now from result }
{
    match wire {
        0 => match read_varint(bytes, from) {
            Ok((value, next)) => Ok((Value::Varint(value), next)),
            Err(fault) => Err(fault.why),
        },
        1 => {
            if bytes.len() - from < 8 {
                return Err(WireWhy::Cut);
            }
            Ok((Value::Eight(from), from + 8))
        }
        2 => {
            let (count, first) = match read_varint(bytes, from) {
                Ok(read) => read,
                Err(fault) => return Err(fault.why),
            };
            if count > (bytes.len() - first) as u64 {
                return Err(WireWhy::Cut);
            }
            let next = first + count as usize;
            Ok((Value::Bytes(first, next), next))
        }
        5 => {
            if bytes.len() - from < 4 {
                return Err(WireWhy::Cut);
            }
            Ok((Value::Four(from), from + 4))
        }
        _ => Err(WireWhy::BadWire),
    }
}
