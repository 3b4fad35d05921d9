ghost use Rattle.std.specs.Prelude.{◌≡◌, ◌≤◌, ◌^◌, length, nat_lt, not};
ghost use Rattle.std.specs.List.{list_all};
ghost use Rattle.jass_base.specs.Codecs.{Checks, IsDocCount};
ghost use Rattle.jass_base.specs.Gaps.{Judges};
ghost use Rattle.lane_kernels.specs.Bitmap.{set_bits};
ghost use Rattle.plain_codecs.specs.Bitmap.{bitmap_of, bitmap_size, read_bitmap};
ghost use Rattle.jass_base.specs.declared.limits.TheConstants.{MOST_DOCUMENTS};

use crate::bitmap::laws::payloads_are_read;
use crate::bitmap::size;
use jass_base::PayloadFault;
use lane_kernels::laws::set_bits_rise;

/// Whether bytes are the payload of `count` documents of an index of d documents.
///
/// Cut where there are fewer bytes than d bits take, Longer where there are more. Then
/// DocRange where a bit from d on is set, and Shape where not `count` bits are set.
pub fn check(bytes: &[u8], count: u32, d: u32) -> Result<(), PayloadFault>
    requires { IsDocCount count d }
    ensures { Checks (bitmap_of d) read_bitmap d count bytes.now result }
{
    payloads_are_read();
    judge(bytes, count, d)
}

/// The check, by what is read.
fn judge(bytes: &[u8], count: u32, d: u32) -> Result<(), PayloadFault>
    requires { IsDocCount count d }
    ensures { Judges (read_bitmap d count bytes.now) result }
{
    let size = size(d) as usize;
    if bytes.len() < size {
        return Err(PayloadFault::Cut);
    }
    if bytes.len() > size {
        return Err(PayloadFault::Longer);
    }
    if reaches(bytes, d) {
        return Err(PayloadFault::DocRange);
    }
    if ones(bytes) != count {
        return Err(PayloadFault::Shape);
    }
    Ok(())
}

/// Whether a bit from d on is set.
fn reaches(bytes: &[u8], d: u32) -> bool
    requires some { 1 ≤ d }
    requires limit { d ≤ MOST_DOCUMENTS }
    requires size { length bytes.now ≡ bitmap_size d }
    ensures { result ≡ not (list_all (λ doc. nat_lt doc d) (set_bits 0 bytes.now)) }
{
    set_bits_rise();
    let used = d % 8;
    if used == 0 {
        return false;
    }
    bytes[bytes.len() - 1] >> used != 0
}

/// How many bits are set.
fn ones(bytes: &[u8]) -> u32
    requires { length bytes.now ≤ 2 ^ 23 }
    ensures { result ≡ length (set_bits 0 bytes.now) }
{
    set_bits_rise();
    let mut count = 0;
    for byte in bytes {
        count += byte.count_ones();
    }
    count
}
