// The gaps behind the last full block, as shortest varints.
ghost use Rattle.std.specs.Prelude.{◌≡◌, ◌≤◌, ◌++◌, length, take, drop, OnOk, OnErr};
ghost use Rattle.jass_base.specs.Gaps.{gaps_from, read_gaps, spelled_gaps};
ghost use Rattle.codec_packed.specs.Giving.{AreFrom};
ghost use Rattle.codec_packed.specs.Private.Steps.{verdict};
ghost use Rattle.jass_base.specs.declared.limits.TheConstants.{MOST_DOCUMENTS};

use jass_base::{NoMemory, PayloadFault, Row, gap_length, put_gap, read_gap};

/// Appends the gaps of documents, the first at least `least`, or some of them where memory is
/// refused.
pub(crate) fn put_gaps(docs: &[u32], least: u32, out: &mut Row<u8>) -> Result<(), NoMemory>
    requires { AreFrom MOST_DOCUMENTS least docs.now }
    ensures ok { OnOk result (out.new ≡ out.old ++ spelled_gaps (gaps_from least docs.now)) }
    ensures err { OnErr result (take (length out.old) out.new ≡ out.old) }
{
    let mut next = least;
    for doc in docs {
        put_gap(*doc - next, out)?;
        next = *doc + 1;
    }
    Ok(())
}

/// The number of bytes of the gaps of documents, the first at least `least`.
pub(crate) fn gaps_size(docs: &[u32], least: u32) -> u64
    requires { AreFrom MOST_DOCUMENTS least docs.now }
    ensures { result ≡ length (spelled_gaps (gaps_from least docs.now)) }
{
    let mut size = 0;
    let mut next = least;
    for doc in docs {
        size += gap_length(*doc - next);
        next = *doc + 1;
    }
    size
}

/// Whether the bytes from a place on are so many gaps of documents below `d`, the first at least
/// `least`.
pub(crate) fn check_gaps(
    bytes: &[u8],
    at: usize,
    least: u32,
    count: u32,
    d: u32,
) -> Result<(), PayloadFault>
    requires place { at ≤ length bytes.now }
    requires least { least ≤ d }
    requires limit { d ≤ MOST_DOCUMENTS }
    ensures { result ≡ verdict (read_gaps d least count (drop at bytes.now)) }
{
    let mut place = at;
    let mut next = least;
    for _turn in 0..count {
        let (gap, behind) = read_gap(bytes, place)?;
        if gap >= d - next {
            return Err(PayloadFault::DocRange);
        }
        place = behind;
        next += gap + 1;
    }
    if place < bytes.len() {
        return Err(PayloadFault::Longer);
    }
    Ok(())
}
