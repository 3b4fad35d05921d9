//! The gaps of the documents as shortest varints, one after the other.

ghost use Rattle.std.specs.Prelude.{◌≡◌, ◌++◌, length, take, OnOk, OnErr};
ghost use Rattle.jass_base.specs.Codecs.{Encodes};
ghost use Rattle.jass_base.specs.Gaps.{AreDocs};
ghost use Rattle.plain_codecs.specs.Varbyte.{varbyte_of};

mod checking;
mod cursor;
mod handing;
pub mod laws;
mod runs;
mod short;
mod spelling;

use crate::varbyte::spelling::{ROOM, put_short, short_length};
pub use checking::check;
pub use cursor::Cursor;
pub use handing::{check_front_into, check_into};
use jass_base::{NoMemory, Row};

/// How many bytes the payload of the documents has, in an index of d documents. They are summed up
/// in 32 bits, so that the compiler counts four gaps at a time.
pub fn length(docs: &[u32], d: u32) -> u64
    requires { AreDocs d docs.now }
    ensures { result ≡ length (varbyte_of docs.now) }
{
    let mut bytes = 0u32;
    let mut least = 0;
    for doc in docs {
        bytes += short_length(*doc - least);
        least = *doc + 1;
    }
    u64::from(bytes)
}

/// Appends the payload of the documents, in an index of d documents, or nothing where
/// memory is refused. The gaps are gathered, so that the row grows once for many of them.
pub fn encode(docs: &[u32], d: u32, out: &mut Row<u8>) -> Result<(), NoMemory>
    requires { AreDocs d docs.now }
    ensures { Encodes (varbyte_of docs.now) out.old out.new result }
{
    let before = out.len();
    let mut bytes = [0; ROOM];
    let mut len = 0;
    let mut least = 0;
    for doc in docs {
        if len > ROOM - 4 {
            append(&bytes[..len], before, out)?;
            len = 0;
        }
        len = put_short(*doc - least, len, &mut bytes);
        least = *doc + 1;
    }
    append(&bytes[..len], before, out)
}

/// Appends bytes, or cuts the row off at a length where memory is refused.
fn append(bytes: &[u8], before: usize, out: &mut Row<u8>) -> Result<(), NoMemory>
    ensures ok { OnOk result (out.new ≡ out.old ++ bytes.now) }
    ensures err { OnErr result (out.new ≡ take before out.old) }
{
    match out.extend(bytes) {
        Ok(()) => Ok(()),
        Err(NoMemory) => {
            out.truncate(before);
            Err(NoMemory)
        }
    }
}
