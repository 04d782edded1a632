// Numbers in a fixed order that looks like none: an xorshift of 64 bits.
#![tactic(auto)]

ghost use Rattle.std.specs.Prelude.{◌≡◌};
ghost use Rattle.random.specs.Xorshift.{step};

use std::marker::Model;

/// A generator. From a seed of 0 every number is 0, and from any other seed none is.
#[derive(Drop, Debug)]
pub struct Random {
    state: u64,
}

impl Model for Random {
    ghost use Rattle.std.specs.Prelude.{ℕ};

    ghost Value = { ℕ };

    ghost view = { λ r. r.state };
}

impl Random {
    /// A generator that begins after the seed.
    pub fn new(seed: u64) -> Random
        ensures { result ≡ seed }
    {
        Random { state: seed }
    }

    /// The next number, which is also the generator's state from then on.
    #[tactic(auto, using(crate::proofs::Zero::zero_before_zero))]
    pub fn next_u64(&mut self) -> u64
        ensures number { result ≡ step self.old }
        ensures state { self.new ≡ result }
        ensures zero { result ≡ 0 → self.old ≡ 0 }
    {
        let mut state = self.state;
        state ^= state << 13;
        state ^= state >> 7;
        state ^= state << 17;
        self.state = state;
        state
    }
}
