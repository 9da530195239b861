//! A worker at its station.
ghost use Rattle.std.specs.Prelude.{◌≡◌, false};
ghost use Rattle.site_serve.specs.Working.{DidServe};

use crate::station::Station;
use site_claims::Claiming;
use site_house::House;
use site_http::{Worked, work};
use site_io::{Clock, Door, Entropy, Gate};
use site_turn::Work;
use std::alloc::Global;
use std::marker::Model;
use std::sync::Wait;

/// A worker: its station, what gives it leave to take one connection more, and why it stopped, once it has.
#[derive(Drop)]
pub(crate) struct Server<'r, D: Door, C: Clock, E: Entropy, G: Gate> {
    pub(crate) station: Station<D, C, E, G>,
    pub(crate) more: Claiming<'r>,
    pub(crate) worked: Worked,
}

impl<'r, D: Door, C: Clock, E: Entropy, G: Gate> Model for Server<'r, D, C, E, G> {
    ghost use Rattle.site_serve.specs.Working.{ServerView};

    ghost Value = { ServerView };

    ghost view = { λ s. record { station = s.station; claimer = s.more.claimer; worked = s.worked } };
}

impl<R: Wait, D: Door, C: Clock, E: Entropy, G: Gate> Work<R> for Server<'_, D, C, E, G> {
    ghost may = { λ server house. server.station.is_out ≡ false };

    ghost does = { λ old new before after. DidServe old.station new.station old.claimer new.claimer new.worked before after };

    fn work<H: House>(&mut self, rt: &R, alloc: Global, house: &mut H) {
        let station = &mut self.station;
        self.worked = work(
            rt,
            alloc,
            house,
            &mut station.door,
            &mut station.clock,
            &mut station.entropy,
            &mut station.gate,
            &mut self.more,
        );
    }
}
