//! The table that all claim from, and its steps.
ghost use Rattle.site_claims.specs.Rule.{KeepsRule, founding};
ghost use Rattle.site_claims.specs.Steps.{Asks, joined, spent, without_worker, worker_of};

use atomic_table::{Join, Play, Seat, Shared, Split, Table, TableRule};
use std::alloc::Global;

/// What a seat of the table knows: how many numbers it claimed, how often it was refused one, how often it may be, and up
/// to which number is claimed. No value of it is made.
pub struct ClaimNote {
    pub claims: u64,
    pub over: u64,
    pub room: u64,
    pub limit: u64,
}

/// The rule of the claims, by how many numbers there are.
pub struct ClaimRule;

impl TableRule<(), ClaimNote, u64> for ClaimRule {
    ghost holds = { λ limit state. KeepsRule limit state };

    ghost first = { λ limit. founding limit };
}

/// A number is asked for.
pub(crate) struct Asking;

impl Play<(), ClaimNote> for Asking {
    ghost then = { λ _ old found new. Asks old found new };
}

/// A worker comes, or is given back.
pub(crate) struct Workers;

impl Split<ClaimNote> for Workers {
    ghost left = { without_worker };

    ghost right = { worker_of };
}

impl Join<ClaimNote> for Workers {
    ghost both = { joined };

    ghost spent = { spent };
}

/// What all claimers share. It may be used by many threads at once.
pub type ClaimRoom = Shared<(), ClaimNote, u64, ClaimRule>;

pub(crate) type ClaimSeat = Seat<(), ClaimNote>;

pub(crate) type ClaimTable = Table<(), ClaimNote, u64, ClaimRule, Global>;
