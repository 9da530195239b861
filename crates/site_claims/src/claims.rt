//! Claiming numbers.
ghost use Rattle.std.specs.Prelude.{◌≡◌, ◌+◌, ◌-◌, ◌^◌, ◌<◌, ◌≤◌, IfOk, true, false, if◌then◌else◌};
ghost use Rattle.site_claims.specs.Claims.{as_count, IsTable};

use crate::rule::{Asking, ClaimRoom, ClaimSeat, ClaimTable, Workers};
use http_server::Log;
use site_io::More;
use std::alloc::{AllocError, Global};
use std::marker::Model;

/// The numbers below a limit, which claimers claim, each once.
#[derive(Drop)]
pub struct Claims {
    table: ClaimTable,
    seat: ClaimSeat,
    limit: u64,
}

impl Model for Claims {
    ghost use Rattle.std.specs.Prelude.{◌≡◌, ◌<◌, []};
    ghost use Rattle.site_claims.specs.Claims.{ClaimsView, IsTable};

    ghost Value = { ClaimsView };

    ghost view = { λ c. record { table = c.seat.table_id; limit = c.limit; claims = c.seat.me.0.claims; over = c.seat.me.0.over; room = c.seat.me.0.room } };

    ghost invariant = { λ c. (c.seat.table_id ≡ c.table.shared.table_id) × IsTable c.seat.table_id × (c.seat.me.1 ≡ []) × (c.seat.me.0.limit ≡ c.limit) × (0 < c.limit) };
}

/// A claimer: one who claims numbers.
#[derive(Drop)]
pub struct Claimer {
    seat: ClaimSeat,
    limit: u64,
    is_over: bool,
}

impl Model for Claimer {
    ghost use Rattle.std.specs.Prelude.{◌≡◌, []};
    ghost use Rattle.site_claims.specs.Claims.{ClaimerView, IsTable, as_count};

    ghost Value = { ClaimerView };

    ghost view = { λ c. record { table = c.seat.table_id; limit = c.limit; claims = c.seat.me.0.claims; is_over = c.is_over } };

    ghost invariant = { λ c. IsTable c.seat.table_id × (c.seat.me.1 ≡ []) × (c.seat.me.0.limit ≡ c.limit) × (c.seat.me.0.over ≡ as_count c.is_over) × (c.seat.me.0.room ≡ 1) };
}

impl Claims {
    /// The claims of the numbers below a limit, which is at least one and at most 2^63: none is claimed yet, and there is room for
    /// 16 claimers. `Err` only where memory is wanting.
    pub fn new(alloc: Global, limit: u64) -> Result<Claims, AllocError>
        requires { (0 < limit) × (limit ≤ 2 ^ 63) }
        ensures { IfOk result (λ c. c ≡ record { table = c.table; limit = limit; claims = 0; over = 0; room = 16 }) }
    {
        let (table, seat) = ClaimTable::of_words(alloc, &[0], &limit)?;
        Ok(Claims { table, seat, limit })
    }

    /// The part of the claims that all claimers share.
    pub fn room(&self) -> &ClaimRoom
        ensures same { result.now.table_id ≡ self.now.table }
        ensures table { IsTable result.now.table_id }
    {
        &self.table.shared
    }

    /// A new claimer, which has claimed no number yet.
    pub fn claimer(&mut self) -> Claimer
        requires room { 0 < self.old.room }
        requires none_back { (self.old.claims ≡ 0) × (self.old.over ≡ 0) }
        ensures made { result ≡ record { table = self.old.table; limit = self.old.limit; claims = 0; is_over = false } }
        ensures less { self.new ≡ record self.old { room = self.old.room - 1 } }
    {
        let table = &self.table;
        let seat = table.shared.split_seat::<Workers>(&mut self.seat);
        Claimer {
            seat,
            limit: self.limit,
            is_over: false,
        }
    }

    /// Takes a claimer back, and what it claimed.
    pub fn give_back(&mut self, claimer: Claimer)
        requires { claimer.table ≡ self.old.table }
        ensures { self.new ≡ record self.old { claims = self.old.claims + claimer.claims; over = self.old.over + as_count claimer.is_over; room = self.old.room + 1 } }
    {
        let Claimer {
            seat,
            limit: _,
            is_over: _,
        } = claimer;
        let table = &self.table;
        table.shared.join_seat::<Workers>(&mut self.seat, seat);
    }

    /// Ends the claims, once all claimers are back, and tells how many numbers were claimed: all of them where a claimer was
    /// refused one.
    pub fn close(self) -> u64
        requires { self.room ≡ 16 }
        ensures sum { result ≡ self.claims }
        ensures within { result ≤ self.limit }
        ensures all { 0 < self.over → result ≡ self.limit }
    {
        let Claims { table, seat, limit } = self;
        let closed = table.close_with(seat);
        let drawn = closed.word(0);
        closed.free();
        drawn.min(limit)
    }
}

impl Claimer {
    /// Claims one more number, and tells whether one was left. Once none was left the claimer gets none any more.
    pub fn claim(&mut self, room: &ClaimRoom) -> bool
        requires { self.old.table ≡ room.now.table_id }
        ensures { self.new ≡ (if result then record self.old { claims = self.old.claims + 1 } else record self.old { is_over = true }) }
    {
        if self.is_over {
            return false;
        }
        let drawn = room.fetch_add::<Asking>(&mut self.seat, 0, 1);
        self.is_over = drawn >= self.limit;
        !self.is_over
    }
}

/// A claimer as the leave of a worker: with what it shares with the others, it gives leave for as many connections as it claims
/// numbers.
#[derive(Drop)]
pub struct Claiming<'a> {
    room: &'a ClaimRoom,
    claimer: Claimer,
    // One for each time that no leave was given, for proofs alone.
    refused: Log<(), ()>,
    ghost here: { claimer.table ≡ room.now.table_id },
}

impl<'a> Claiming<'a> {
    /// The leave that a claimer gives, beside what it shares with the others.
    pub fn new(room: &'a ClaimRoom, claimer: Claimer) -> Claiming<'a>
        requires { claimer.table ≡ room.now.table_id }
        ensures { result.claimer ≡ claimer }
    {
        Claiming {
            room,
            claimer,
            refused: Log::new(),
        }
    }

    /// The claimer, taken out again.
    pub fn into_claimer(self) -> Claimer
        ensures { result ≡ self.entry.claimer }
    {
        let Claiming {
            room: _,
            claimer,
            refused: _,
        } = self;
        claimer
    }
}

impl More for Claiming<'_> {
    ghost use Rattle.std.specs.Prelude.{length};
    ghost use Rattle.site_claims.specs.Claims.{name_of};

    ghost claims = { λ c. c.claimer.claims };

    ghost name = { λ c. name_of c.claimer.table };

    ghost is_over = { λ c. c.claimer.is_over };

    ghost refusals = { λ c. length c.refused.items };

    fn more(&mut self) -> bool {
        let more = self.claimer.claim(self.room);
        if !more {
            self.refused = self.refused.and(&(), &());
        }
        more
    }
}
