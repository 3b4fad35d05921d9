// Whether bytes are the payload of a list.
ghost use Rattle.std.specs.Prelude.{◌+◌, ◌<◌, ◌≤◌, length};
ghost use Rattle.codec_packed.specs.Packing.{packed_of};
ghost use Rattle.jass_base.specs.Codecs.{Checks, IsDocCount};
ghost use Rattle.jass_base.specs.Gaps.{Judges};
ghost use Rattle.codec_packed.specs.Reading.{read_packed};
ghost use Rattle.codec_packed.specs.Private.Steps.{ChecksBlock};
ghost use Rattle.jass_base.specs.declared.limits.TheConstants.{MOST_DOCUMENTS};

use crate::block::read_block;
use crate::laws::payloads_are_read;
use crate::tail::check_gaps;
use jass_base::PayloadFault;
use lane_kernels::{fits128, running128};

/// Whether the bytes are the payload of a list of `count` documents below `d`. The faults are told
/// block by block, and then gap by gap.
///
/// Cut where a block or a gap isn't all there. Shape where a width is above 32 or isn't the least,
/// or where a gap isn't a shortest varint of at most four bytes. DocRange where a document is `d` or
/// above. Longer where bytes are left behind the last gap.
pub fn check(bytes: &[u8], count: u32, d: u32) -> Result<(), PayloadFault>
    requires { IsDocCount count d }
    ensures { Checks packed_of read_packed d count bytes.now result }
{
    payloads_are_read();
    judge(bytes, count, d)
}

/// The check, by what is read.
fn judge(bytes: &[u8], count: u32, d: u32) -> Result<(), PayloadFault>
    requires { IsDocCount count d }
    ensures { Judges (read_packed d count bytes.now) result }
{
    let mut at = 0;
    let mut least = 0;
    for _turn in 0..count / 128 {
        (at, least) = check_block(bytes, at, least, d)?;
    }
    check_gaps(bytes, at, least, count % 128, d)
}

/// Checks the block at a place. The answer is the place behind it and the least document there.
fn check_block(bytes: &[u8], at: usize, least: u32, d: u32) -> Result<(usize, u32), PayloadFault>
    requires place { at ≤ length bytes.now }
    requires least { least ≤ d }
    requires limit { d ≤ MOST_DOCUMENTS }
    ensures { ChecksBlock d bytes.now at least result }
{
    let mut docs = [0; 128];
    let behind = read_block(bytes, at, &mut docs)?;
    if !fits128(least, &docs, d) {
        return Err(PayloadFault::DocRange);
    }
    running128(least, &mut docs);
    Ok((behind, docs[127] + 1))
}
