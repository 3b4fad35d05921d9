ghost use Rattle.std.specs.Prelude.{◌≡◌, ◌≤◌, ◌+◌, ◌-◌, length, map, IfOk};
ghost use Rattle.index_layout.specs.Reading.{head_end, head_in, read_heads};
ghost use Rattle.index_layout.specs.Refusals.{Answers};
ghost use Rattle.index_version1.specs.Private.Tables.{head_data};
ghost use Rattle.jass_base.specs.declared.limits.TheConstants.{GREATEST_IMPACT, LONGEST_FILE};

use crate::number::{u16_at, u32_at};
use index_layout::{OpenFault, OpenWhy, refused};
use jass_base::Row;
use jass_base::limits::GREATEST_IMPACT;
use segment_codecs::Codec;
use std::alloc::Global;

/// What stands in the file before the payload of a segment.
#[derive(Clone, Copy)]
pub struct Head {
    pub impact: u16,
    /// How many documents.
    pub count: u32,
    pub codec: Codec,
    /// The bytes of the payload.
    pub size: u32,
}

/// The head at a place, of 11 bytes, whose impact is below a number.
#[tactic(auto, unfolding(index_layout::specs::Reading::head_end, index_layout::specs::Reading::head_checks, index_layout::specs::Reading::head_in))]
fn read_head(bytes: &[u8], docs: u32, above: u32, at: usize) -> Result<Head, OpenFault>
    requires at { at ≤ length bytes.now }
    requires few { length bytes.now ≤ LONGEST_FILE }
    ensures exact { Answers (λ _. at + 11) result (head_end bytes.now docs above at) }
    ensures head { IfOk result (λ head. head_data head ≡ head_in bytes.now at) }
    ensures within { IfOk result (λ _. at + 11 ≤ length bytes.now) }
{
    if bytes.len() - at < 11 {
        return Err(refused(at, OpenWhy::Length));
    }
    let impact = u16_at(bytes, at);
    if impact == 0 || u32::from(impact) >= above {
        return Err(refused(at, OpenWhy::Heads));
    }
    let count = u32_at(bytes, at + 2);
    if count == 0 || count > docs {
        return Err(refused(at, OpenWhy::Heads));
    }
    let Some(codec) = Codec::from_number(bytes[at + 6]) else {
        return Err(refused(at, OpenWhy::Heads));
    };
    let size = u32_at(bytes, at + 7);
    Ok(Head {
        impact,
        count,
        codec,
        size,
    })
}

/// The heads of a term, so many from a place on, and the place behind them.
pub fn read_heads(
    alloc: Global,
    bytes: &[u8],
    docs: u32,
    count: u32,
    from: usize,
) -> Result<(Row<Head>, usize), OpenFault>
    requires from { from ≤ length bytes.now }
    requires few { length bytes.now ≤ LONGEST_FILE }
    ensures exact { Answers (λ x. record { heads = map head_data x.0; end = x.1 }) result
        (read_heads bytes.now docs count (GREATEST_IMPACT + 1) from) }
    ensures end { IfOk result (λ x. x.1 ≤ length bytes.now) }
{
    let mut heads = Row::new(alloc);
    let mut at = from;
    let mut above = GREATEST_IMPACT + 1;
    'heads: for _ in 0..count {
        let head = read_head(bytes, docs, above, at)?;
        match heads.push(head) {
            Ok(()) => {}
            Err(_) => return Err(OpenFault::NoMemory),
        }
        above = u32::from(head.impact);
        at += 11;
    }
    Ok((heads, at))
}
