ghost use Rattle.std.specs.Prelude.{◌<◌, ◌^◌};
ghost use Rattle.jass_base.specs.Limits.{IsText};

use crate::text::Text;

/// What a CIFF file says of itself in front. The engine passes these numbers on and uses
/// none of them. The numbers of 32 bits are signed in the format, and never negative here.
#[derive(Debug, Drop)]
pub struct Header {
    pub version: u32,
    /// Postings lists of the collection that the file was made from.
    pub total_lists: u32,
    /// Documents of the collection that the file was made from.
    pub total_docs: u32,
    pub total_terms: u64,
    /// The average length of a document: a double, whose eight bytes are not read.
    pub average: [u8; 8],
    pub description: Text,
    pub ghost version_in_range: { version < 2 ^ 31 },
    pub ghost lists_in_range: { total_lists < 2 ^ 31 },
    pub ghost docs_in_range: { total_docs < 2 ^ 31 },
    pub ghost terms_in_range: { total_terms < 2 ^ 63 },
    pub ghost description_is_text: { IsText description },
}
