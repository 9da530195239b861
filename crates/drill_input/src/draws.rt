//! A sequence of numbers that look drawn by lot.
ghost use Rattle.std.specs.Prelude.{◌≡◌, ◌<◌};
ghost use Rattle.drill_input.specs.Draws.{next, drawn};

use std::marker::Model;

/// A linear congruence modulo 2^64, which gives the same numbers again for the same first member. Contracts see the member
/// that the last draw used.
/// D. E. Knuth, The Art of Computer Programming, volume 2, section 3.2.1.
#[derive(Drop)]
pub struct Draws {
    seed: u64,
}

impl Model for Draws {
    ghost use Rattle.std.specs.Prelude.{ℕ};

    ghost Value = { ℕ };

    ghost view = { λ d. d.seed };
}

impl Draws {
    /// The sequence that begins with this number, of which nothing is drawn yet.
    pub fn new(seed: u64) -> Draws
        ensures { result ≡ seed }
    {
        Draws { seed }
    }

    /// The next number below a bound.
    #[tactic(auto, unfolding(crate::specs::Draws::next, crate::specs::Draws::drawn))]
    pub fn draw(&mut self, below: u32) -> u32
        requires { 0 < below }
        ensures moves { self.new ≡ next self.old }
        ensures number { result ≡ drawn below (next self.old) }
        ensures less { result < below }
    {
        let product = u128::from(self.seed) * 6_364_136_223_846_793_005 + 1_442_695_040_888_963_407;
        self.seed = (product % 18_446_744_073_709_551_616) as u64;
        ((self.seed / 8_589_934_592) as u32) % below
    }
}
