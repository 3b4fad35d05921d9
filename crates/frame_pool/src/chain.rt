use std::marker::Model;

/// A session's part of a pool: some frames are promised to it. It ends only by `FramePool::give_back`.
///
/// Contracts see it as its chain number.
pub struct Chain {
    pub(crate) number: u32,
}

impl Model for Chain {
    ghost use Rattle.std.specs.Prelude.{ℕ};

    ghost Value = { ℕ };

    ghost view = { λ c. c.number };
}
