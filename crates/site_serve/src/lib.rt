//! Workers that serve the connections of their doors over one engine, each in a thread where one can be started.
#![tactic(auto)]

mod crew;
mod serve;
mod server;
mod station;

pub use serve::{Served, Unserved, serve_all};
pub use station::Station;
