ghost use Rattle.std.specs.Prelude.{◌≤◌};
ghost use Rattle.jass_base.specs.declared.limits.TheConstants.{MOST_DOCUMENTS, MOST_TERMS};

use jass_base::Header;

/// The first message of a file: what it says of itself, and how many messages follow.
#[derive(Drop)]
pub struct FileHead {
    pub header: Header,
    /// At most 2^24.
    pub lists: u32,
    /// At most 2^26.
    pub docs: u32,
    pub ghost few_lists: { lists ≤ MOST_TERMS },
    pub ghost few_docs: { docs ≤ MOST_DOCUMENTS },
}

/// The fields of the first message as they stand.
#[derive(Drop)]
pub struct HeadFields<'a> {
    pub version: u64,
    pub lists: u64,
    pub docs: u64,
    pub total_lists: u64,
    pub total_docs: u64,
    pub total_terms: u64,
    pub average: [u8; 8],
    pub description: &'a [u8],
}
