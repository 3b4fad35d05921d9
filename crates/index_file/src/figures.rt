/// The impact of a segment, and how many documents it has.
#[derive(Clone, Copy, Debug, PartialEq, Eq)]
pub struct Head {
    pub impact: u16,
    pub count: u32,
}

/// How many segments are in each codec.
#[derive(Clone, Copy, Debug, PartialEq, Eq)]
pub struct CodecUse {
    pub varbyte: u64,
    pub packed: u64,
    pub bitmap: u64,
    pub simple8: u64,
}
