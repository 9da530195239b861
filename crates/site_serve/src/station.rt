//! Stations.

use site_io::{Clock, Door, Entropy, Gate};
use std::marker::Model;

/// What a worker works with: a door, a clock, chance and a gate of its own. Contracts see what these tell.
#[derive(Drop)]
pub struct Station<D: Door, C: Clock, E: Entropy, G: Gate> {
    pub door: D,
    pub clock: C,
    pub entropy: E,
    pub gate: G,
}

impl<D: Door, C: Clock, E: Entropy, G: Gate> Model for Station<D, C, E, G> {
    ghost use Rattle.site_serve.specs.Stations.{StationView};

    ghost Value = { StationView };

    ghost view = { λ s. record { coming = D.coming s.door; returned = D.returned s.door; is_out = D.is_out s.door; faults = D.faults s.door; moments = C.moments s.clock; given = C.given s.clock; chances = E.words s.entropy; words = E.given s.entropy; points = G.reached s.gate } };
}
