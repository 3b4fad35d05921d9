/// The fields of a postings list beside its postings, as they stand.
#[derive(Clone, Copy)]
pub struct ListFields<'a> {
    pub term: &'a [u8],
    pub df: u64,
    pub cf: u64,
}
