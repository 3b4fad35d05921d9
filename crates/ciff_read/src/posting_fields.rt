ghost use Rattle.std.specs.Prelude.{◌≤◌, length, drop};
ghost use Rattle.ciff_read.specs.Refusals.{Answers};
ghost use Rattle.ciff_read.specs.Walking.{entry_at};

use crate::refusal::{CiffFault, refused_field};
use wire_fields::next_field;

/// A posting as it stands in the file.
#[derive(Clone, Copy)]
pub struct PostingFields {
    /// The document of the first posting of a list, and the gap to the one before of each
    /// later one.
    pub docid: u64,
    pub tf: u64,
}

/// Walks the fields of a posting's body, from a place to the end of `bytes`.
pub fn read_entry(bytes: &[u8], from: usize) -> Result<PostingFields, CiffFault>
    requires { from ≤ length bytes.now }
    ensures { Answers (λ entry. entry) result (entry_at from (drop from bytes.now)) }
{
    let mut entry = PostingFields { docid: 0, tf: 0 };
    let mut at = from;
    'fields: loop {
        match next_field(bytes, at) {
            Ok(Some(field)) => {
                entry.docid = field.number_or(1, entry.docid);
                entry.tf = field.number_or(2, entry.tf);
                at = field.next;
            }
            Ok(None) => return Ok(entry),
            Err(fault) => return Err(refused_field(fault)),
        }
    }
}
