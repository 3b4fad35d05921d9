ghost use Rattle.std.specs.Prelude.{◌≤◌, length};
ghost use Rattle.wire_fields.specs.Places.{ReadsField};

use wire_fields::{Field, WireFault, next_field};

/// The field at a place of a postings list. Each tag that nearly all lists have is told apart first, and has
/// code of its own, made for that tag alone: else there is a jump by the wire type, and one by the field number.
#[inline(always)]
pub fn list_field(bytes: &[u8], at: usize) -> Result<Option<Field>, WireFault>
    requires { at ≤ length bytes.now }
    ensures { ReadsField bytes.now at result }
{
    if at == bytes.len() {
        return Ok(None);
    }
    match bytes[at] {
        0x0a => text_field(bytes, at),
        0x10 => number_field(bytes, at),
        0x18 => last_field(bytes, at),
        _ => next_field(bytes, at),
    }
}

/// The field at a place of a document's record, as `list_field` reads one of a list.
#[inline(always)]
pub fn doc_field(bytes: &[u8], at: usize) -> Result<Option<Field>, WireFault>
    requires { at ≤ length bytes.now }
    ensures { ReadsField bytes.now at result }
{
    if at == bytes.len() {
        return Ok(None);
    }
    match bytes[at] {
        0x08 => number_field(bytes, at),
        0x12 => text_field(bytes, at),
        0x18 => last_field(bytes, at),
        _ => next_field(bytes, at),
    }
}

/// The field at a place, where a term or a name is looked for.
#[inline(always)]
fn text_field(bytes: &[u8], at: usize) -> Result<Option<Field>, WireFault>
    requires { at ≤ length bytes.now }
    ensures { ReadsField bytes.now at result }
{
    next_field(bytes, at)
}

/// The field at a place, where a number is looked for.
#[inline(always)]
fn number_field(bytes: &[u8], at: usize) -> Result<Option<Field>, WireFault>
    requires { at ≤ length bytes.now }
    ensures { ReadsField bytes.now at result }
{
    next_field(bytes, at)
}

/// The field at a place, where the last number before the postings, or of a record, is looked for.
#[inline(always)]
fn last_field(bytes: &[u8], at: usize) -> Result<Option<Field>, WireFault>
    requires { at ≤ length bytes.now }
    ensures { ReadsField bytes.now at result }
{
    next_field(bytes, at)
}
