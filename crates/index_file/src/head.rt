ghost use Rattle.std.specs.Prelude.{◌≡◌, ◌≤◌, ◌+◌, length, IfOk};
ghost use Rattle.index_layout.specs.Reading.{head_end, head_in};
ghost use Rattle.index_layout.specs.Refusals.{Answers};
ghost use Rattle.jass_base.specs.declared.limits.TheConstants.{LONGEST_FILE};
ghost use Rattle.index_file.specs.Parts.{IsCounted};

use crate::number::{u16_at, u32_at};
use index_layout::{OpenFault, OpenWhy, refused};
use segment_codecs::Codec;

/// The impact and the count of the head at a place, of 11 bytes; the impact is below a number.
#[tactic(auto, unfolding(index_layout::specs::Reading::head_end, index_layout::specs::Reading::head_checks, index_layout::specs::Reading::head_in))]
pub(crate) fn read_head(
    bytes: &[u8],
    docs: u32,
    above: u32,
    at: usize,
) -> Result<(u16, u32), OpenFault>
    requires at { at ≤ length bytes.now }
    requires few { length bytes.now ≤ LONGEST_FILE }
    ensures exact { Answers (λ _. at + 11) result (head_end bytes.now docs above at) }
    ensures impact { IfOk result (λ read. read.0 ≡ (head_in bytes.now at).impact) }
    ensures count { IfOk result (λ read. read.1 ≡ (head_in bytes.now at).count) }
    ensures counted { IfOk result (λ _. IsCounted docs (head_in bytes.now at)) }
    ensures within { IfOk result (λ _. at + 11 ≤ length bytes.now) }
{
    if bytes.len() - at < 11 {
        return Err(refused(at, OpenWhy::Length));
    }
    let impact = u16_at(bytes, at);
    if impact == 0 || u32::from(impact) >= above {
        return Err(refused(at, OpenWhy::Heads));
    }
    let count = u32_at(bytes, at + 2);
    if count == 0 || count > docs {
        return Err(refused(at, OpenWhy::Heads));
    }
    if Codec::from_number(bytes[at + 6]).is_none() {
        return Err(refused(at, OpenWhy::Heads));
    }
    Ok((impact, count))
}
