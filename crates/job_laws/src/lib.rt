//! Laws over what the jobs of the program promise.
#![tactic(auto)]

mod laws;

pub use laws::{replays_complete, runs_complete};
