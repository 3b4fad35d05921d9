ghost use Rattle.std.specs.Prelude.{◌≡◌, ◌<◌};
ghost use Rattle.trial_data.specs.Generator.{drawn, next_state};

use std::marker::Model;

/// Numbers from a seed: the linear congruence of the sample `rand` in ISO C, modulo 2^31, without
/// the lowest 8 bits of its state. Contracts see it as its state.
#[derive(Debug, Drop)]
pub struct Draws {
    state: u32,
}

impl Model for Draws {
    ghost use Rattle.std.specs.Prelude.{ℕ};

    ghost Value = { ℕ };

    ghost view = { λ d. d.state };
}

impl Draws {
    /// The numbers of a seed.
    pub fn new(seed: u32) -> Draws
        ensures { result ≡ seed }
    {
        Draws { state: seed }
    }

    /// The same numbers again.
    pub(crate) fn again(&self) -> Draws
        ensures { result ≡ self.now }
    {
        Draws { state: self.state }
    }

    /// The next number, below 2^23.
    #[tactic(auto, unfolding(crate::specs::Generator::next_state, crate::specs::Generator::drawn))]
    pub fn next(&mut self) -> u32
        ensures state { self.new ≡ next_state self.old }
        ensures number { result ≡ drawn self.new }
        ensures small { result < 8388608 }
    {
        let product = u64::from(self.state) * 1_103_515_245 + 12_345;
        self.state = (product % 0x8000_0000) as u32;
        self.state / 256
    }
}
