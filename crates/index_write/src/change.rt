//! Whether segments still have the heads that were made of them.

ghost use Rattle.std.specs.Prelude.{◌≡◌, None, Some, length, map, All, IfErr, OnOk};
ghost use Rattle.jass_base.specs.Gaps.{AreDocs};
ghost use Rattle.jass_base.specs.declared.segment.Segment.{Segment};
ghost use Rattle.index_model.specs.Views.{segment_data};
ghost use Rattle.index_write.specs.Chosen.{head_data, chosen_heads};
ghost use Rattle.index_write.specs.Streaming.{change_of, head_change, heads_change, unless_same};
ghost use Rattle.index_write.specs.Private.Differences.{Finds};

use crate::head::PayloadHead;
use jass_base::Segment;

/// Two numbers that were to be the same.
#[derive(Clone, Copy)]
pub struct Change {
    pub kept: u64,
    pub found: u64,
}

/// Refuses numbers that differ.
fn same(kept: u64, found: u64) -> Result<(), Change>
    ensures ok { OnOk result (kept ≡ found) }
    ensures err { IfErr result (λ change. unless_same kept found None ≡ Some change) }
{
    if kept == found {
        Ok(())
    } else {
        Err(Change { kept, found })
    }
}

/// Refuses the first number in which a head differs from the kept one.
fn same_head(kept: &PayloadHead, found: &PayloadHead) -> Result<(), Change>
    ensures { Finds (head_change (head_data kept.now) (head_data found.now) None) result }
{
    same(u64::from(kept.impact), u64::from(found.impact))?;
    same(u64::from(kept.count), u64::from(found.count))?;
    same(
        u64::from(kept.codec.number()),
        u64::from(found.codec.number()),
    )?;
    same(u64::from(kept.bytes), u64::from(found.bytes))?;
    Ok(())
}

/// Refuses the first number in which the heads of as many segments differ from the kept ones.
fn same_numbers(kept: &[PayloadHead], segments: &[Segment], d: u32) -> Result<(), Change>
    requires docs { All (λ (s : Segment). AreDocs d s.docs) segments.now }
    requires count { length kept.now ≡ length segments.now }
    ensures { Finds (heads_change (map head_data kept.now) (chosen_heads d (map segment_data segments.now))) result }
{
    for (i, segment) in segments.iter().enumerate() {
        same_head(&kept[i], &PayloadHead::new(segment, d))?;
    }
    Ok(())
}

/// Refuses segments whose heads aren't the kept ones, by the first number that differs.
#[tactic(auto, unfolding(crate::specs::Streaming::change_of))]
pub fn same_heads(kept: &[PayloadHead], segments: &[Segment], d: u32) -> Result<(), Change>
    requires { All (λ (s : Segment). AreDocs d s.docs) segments.now }
    ensures { Finds (change_of (map head_data kept.now) (chosen_heads d (map segment_data segments.now))) result }
{
    same(kept.len() as u64, segments.len() as u64)?;
    same_numbers(kept, segments, d)
}
