/// How many postings some heads count, and their greatest impact.
#[derive(Clone, Copy)]
pub struct Sums {
    pub postings: u64,
    pub greatest: u16,
}
