//! A linear congruential generator.
ghost use Rattle.std.specs.Prelude.{◌≡◌, ◌<◌, ◌≤◌};
ghost use Rattle.nf_sample.specs.Draws.{drawn, first_state, next_state};

use std::marker::Model;

/// Draws from a linear congruential generator modulo 2^31, of which only the high bits are used (D. E. Knuth, The Art
/// of Computer Programming, volume 2, section 3.2.1). It is seen as its state.
#[derive(Drop)]
pub struct Draws {
    state: u64,
}

impl Model for Draws {
    ghost use Rattle.std.specs.Prelude.{◌<◌, ◌^◌, ℕ};

    ghost Value = { ℕ };

    ghost view = { λ d. d.state };

    ghost invariant = { λ d. d.state < 2 ^ 31 };
}

impl Draws {
    /// The generator as a seed starts it.
    #[tactic(auto, unfolding(crate::specs::Draws::first_state))]
    pub fn new(seed: u32) -> Draws
        ensures { result ≡ first_state seed }
    {
        Draws {
            state: u64::from(seed) % (1 << 31),
        }
    }

    /// The next number below `most`.
    #[tactic(auto, unfolding(crate::specs::Draws::next_state, crate::specs::Draws::drawn))]
    pub fn below(&mut self, most: u32) -> u32
        requires some { 0 < most }
        ensures value { result ≡ drawn self.old most }
        ensures below { result < most }
        ensures state { self.new ≡ next_state self.old }
    {
        self.state = (self.state * 1_103_515_245 + 12_345) % (1 << 31);
        ((self.state >> 16) % u64::from(most)) as u32
    }
}
