//! A gate that counts.
use http_server::Log;
use site_io::{Gate, Point};
use std::marker::Model;

/// A gate that adds up how many elements are built, up to the greatest u64. What it was told is known to proofs alone, and takes
/// no memory.
#[derive(Drop)]
pub(crate) struct CountingGate {
    built: u64,
    told: Log<Point, ()>,
}

impl Model for CountingGate {
    ghost use Rattle.std.specs.Prelude.{◌≡◌, map};
    ghost use Rattle.site_drill.specs.Tally.{Counted, built_in};

    ghost Value = { Counted };

    ghost view = { λ g. record { points = map (λ p. p.0) g.told.items; built = g.built } };

    ghost invariant = { λ g. g.built ≡ built_in (map (λ p. p.0) g.told.items) };
}

impl CountingGate {
    ghost use Rattle.std.specs.Prelude.{◌≡◌, []};
    ghost use Rattle.site_drill.specs.Tally.{built_in};

    /// Nothing was told yet.
    pub(crate) fn new() -> CountingGate
        ensures { result ≡ record { points = []; built = 0 } }
    {
        CountingGate {
            built: 0,
            told: Log::new(),
        }
    }

    /// How many elements were built.
    pub(crate) fn built(&self) -> u64
        ensures { result ≡ built_in self.now.points }
    {
        self.built
    }
}

impl Gate for CountingGate {
    ghost use Rattle.std.specs.Prelude.{Some};

    ghost reached = { λ g. Some g.points };

    #[tactic(auto, using(crate::proofs::Counting::one_more))]
    fn reach(&mut self, point: Point) {
        if let Point::BeforeReply(built) = point {
            self.built = self.built.saturating_add(built);
        }
        self.told = self.told.and(&point, &());
    }
}
