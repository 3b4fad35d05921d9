/// The fields of a document's record as they stand.
#[derive(Clone, Copy)]
pub struct DocFields<'a> {
    pub docid: u64,
    pub name: &'a [u8],
    pub length: u64,
}
