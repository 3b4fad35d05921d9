// Payloads from lists.
ghost use Rattle.std.specs.Prelude.{◌≡◌, ◌+◌, ◌*◌, ◌<◌, ◌++◌, length, take, OnOk, OnErr};
ghost use Rattle.jass_base.specs.Codecs.{Encodes};
ghost use Rattle.jass_base.specs.Gaps.{AreDocs};
ghost use Rattle.codec_packed.specs.Giving.{AreFrom};
ghost use Rattle.codec_packed.specs.Packing.{packed_of};
ghost use Rattle.jass_base.specs.declared.limits.TheConstants.{MOST_DOCUMENTS};

use crate::block::{BLOCK, put_block};
use crate::tail::put_gaps;
use jass_base::{NoMemory, Row};

/// Appends the payload of a list of documents, or nothing where memory is refused.
pub fn encode(docs: &[u32], d: u32, out: &mut Row<u8>) -> Result<(), NoMemory>
    requires { AreDocs d docs.now }
    ensures { Encodes (packed_of docs.now) out.old out.new result }
{
    let _ = d;
    let before = out.len();
    match put_docs(docs, out) {
        Ok(()) => Ok(()),
        Err(_) => {
            out.truncate(before);
            Err(NoMemory)
        }
    }
}

/// Appends the payload, or a part of it where memory is refused.
fn put_docs(docs: &[u32], out: &mut Row<u8>) -> Result<(), NoMemory>
    requires { AreFrom MOST_DOCUMENTS 0 docs.now }
    ensures ok { OnOk result (out.new ≡ out.old ++ packed_of docs.now) }
    ensures err { OnErr result (take (length out.old) out.new ≡ out.old) }
{
    let blocks = docs.len() / BLOCK;
    let mut least = 0;
    for block in 0..blocks {
        let start = BLOCK * block;
        put_block(&docs[start..start + BLOCK], least, out)?;
        least = docs[start + BLOCK - 1] + 1;
    }
    put_gaps(&docs[BLOCK * blocks..], least, out)
}
