ghost use Rattle.std.specs.List.{list_all};
ghost use Rattle.std.specs.Str.{is_utf8};
ghost use Rattle.std.specs.Prelude.{nat_lt, not, ◌&&◌, ◌==◌, ◌≡◌, ◌≤◌, ◌<◌, ◌+◌, length, IfOk};
ghost use Rattle.index_layout.specs.Bytes.{u32_in};
ghost use Rattle.index_layout.specs.Reading.{is_name_text, name_end};
ghost use Rattle.index_layout.specs.Refusals.{Answers};
ghost use Rattle.jass_base.specs.declared.limits.TheConstants.{LONGEST_FILE};

use crate::number::u32_at;
use crate::plain::is_plain;
use index_layout::{OpenFault, OpenWhy, refused};
use jass_base::limits::LONGEST_NAME;

/// The place behind the name whose length stands at a place.
#[tactic(auto, unfolding(index_layout::specs::Reading::name_end, index_layout::specs::Reading::name_checks, index_layout::specs::Reading::name_in))]
pub fn name_end(bytes: &[u8], at: usize) -> Result<usize, OpenFault>
    requires at { at ≤ length bytes.now }
    requires few { length bytes.now ≤ LONGEST_FILE }
    ensures exact { Answers (λ next. next) result (name_end bytes.now at) }
    ensures within { IfOk result (λ next. next ≤ length bytes.now) }
    ensures next { IfOk result (λ next. next ≡ at + 4 + u32_in bytes.now at) }
{
    if bytes.len() - at < 4 {
        return Err(refused(at, OpenWhy::Length));
    }
    let size = u32_at(bytes, at) as usize;
    if size == 0 || size > LONGEST_NAME {
        return Err(refused(at, OpenWhy::Names));
    }
    if bytes.len() - at - 4 < size {
        return Err(refused(at, OpenWhy::Length));
    }
    if !is_name_text(&bytes[at + 4..at + 4 + size]) {
        return Err(refused(at, OpenWhy::Names));
    }
    Ok(at + 4 + size)
}

/// Whether bytes are text without a blank or a control character.
fn is_name_text(bytes: &[u8]) -> bool
    ensures { result ≡ is_name_text bytes.now }
{
    is_plain(bytes) || (is_text(bytes) && is_visible(bytes))
}

/// Whether bytes are UTF-8.
pub(crate) fn is_text(bytes: &[u8]) -> bool
    ensures { result ≡ is_utf8 bytes.now }
{
    match std::str::from_utf8(bytes) {
        Ok(_) => true,
        Err(_) => false,
    }
}

/// Whether no byte is a blank or a control character.
fn is_visible(bytes: &[u8]) -> bool
    ensures { result ≡ list_all (λ b. nat_lt 32 b && not (b == 127)) bytes.now }
{
    bytes.iter().all(|b| *b > 32 && *b != 127)
}
