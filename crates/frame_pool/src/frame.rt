/// The number of a frame in its pool, from 0.
#[derive(Clone, Copy, Debug, PartialEq, Eq)]
pub struct FrameId {
    pub number: u32,
}
