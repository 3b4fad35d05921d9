//! A bitmap: bit x is set exactly where document x is in the list.

ghost use Rattle.std.specs.Prelude.{◌≡◌, ◌≤◌, ◌<◌, ◌+◌, ◌*◌, ◌^◌, length};
ghost use Rattle.std.specs.List.Sorted.{IsStrictlyIncreasing};
ghost use Rattle.jass_base.specs.Codecs.{Encodes};
ghost use Rattle.jass_base.specs.Gaps.{AreDocs};
ghost use Rattle.plain_codecs.specs.Bitmap.{bitmap_byte, bitmap_of, bitmap_size};
ghost use Rattle.plain_codecs.specs.Private.Partings.{IsParted};
ghost use Rattle.jass_base.specs.declared.limits.TheConstants.{MOST_DOCUMENTS};

mod checking;
mod cursor;
pub mod laws;

pub use checking::check;
pub use cursor::Cursor;
use jass_base::{NoMemory, Row};

/// How many bytes the payload of the documents has, in an index of d documents.
pub fn length(docs: &[u32], d: u32) -> u64
    requires { AreDocs d docs.now }
    ensures { result ≡ length (bitmap_of d docs.now) }
{
    u64::from(size(d))
}

/// How many bytes d bits take.
#[inline]
pub(crate) fn size(d: u32) -> u32
    requires { d ≤ MOST_DOCUMENTS }
    ensures is { result ≡ bitmap_size d }
    ensures most { result ≤ 2 ^ 23 }
{
    (d + 7) / 8
}

/// Appends the payload of the documents, in an index of d documents, or nothing where
/// memory is refused.
pub fn encode(docs: &[u32], d: u32, out: &mut Row<u8>) -> Result<(), NoMemory>
    requires { AreDocs d docs.now }
    ensures { Encodes (bitmap_of d docs.now) out.old out.new result }
{
    let before = out.len();
    let mut first = 0;
    for place in 0..size(d) {
        let (byte, next) = byte_at(docs, first, place);
        match out.push(byte) {
            Ok(()) => {}
            Err(_) => {
                out.truncate(before);
                return Err(NoMemory);
            }
        }
        first = next;
    }
    Ok(())
}

/// The byte at a place, and the first document behind it. The documents from `first` on are
/// in the byte or behind it, and those before `first` are before it.
fn byte_at(docs: &[u32], first: usize, place: u32) -> (u8, usize)
    requires docs { IsStrictlyIncreasing docs.now }
    requires place { place < 2 ^ 23 }
    requires first { IsParted docs.now first (8 * place) }
    ensures byte { result.0 ≡ bitmap_byte docs.now place }
    ensures next { IsParted docs.now result.1 (8 * (place + 1)) }
{
    let mut byte = 0u8;
    let mut at = first;
    while at < docs.len() && docs[at] / 8 == place {
        byte |= 1 << (docs[at] % 8);
        at += 1;
    }
    (byte, at)
}
