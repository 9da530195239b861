//! Rehearsals: turns of several requesters over one engine, one after the other, each by its own state.
#![tactic(auto)]

mod acting;
mod building;
mod framing;
mod keeping;
mod rehearsing;
mod seats;
mod turn;
mod visitor;

pub use rehearsing::{rehearse, rehearse_in};
pub use turn::{Act, Reply, Turn};
