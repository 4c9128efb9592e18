//! The generator from which a match is drawn.
ghost use Rattle.std.specs.Prelude.{◌≡◌, ◌<◌};
ghost use Rattle.made_match.specs.Making.{draw};

use std::marker::Model;

/// A linear congruential generator. Contracts see its state.
#[derive(Drop)]
pub(crate) struct Draws {
    state: u64,
}

impl Model for Draws {
    ghost use Rattle.std.specs.Prelude.{ℕ};

    ghost Value = { ℕ };

    ghost view = { λ draws. draws.state };
}

impl Draws {
    /// The generator that begins with a number.
    pub fn new(seed: u64) -> Draws
        ensures { result ≡ seed }
    {
        Draws { state: seed }
    }

    /// A number below `count`.
    #[tactic(auto, using(crate::proofs::Drawing::wrapped), unfolding(crate::specs::Making::draw))]
    pub fn below(&mut self, count: u32) -> u32
        requires { 0 < count }
        ensures value { result ≡ (draw count self.old).value }
        ensures below { result < count }
        ensures state { self.new ≡ (draw count self.old).state }
    {
        self.state = self
            .state
            .wrapping_mul(6_364_136_223_846_793_005)
            .wrapping_add(1_442_695_040_888_963_407);
        ((self.state >> 33) % u64::from(count)) as u32
    }
}
