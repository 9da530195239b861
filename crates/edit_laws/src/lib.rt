//! What every accepted edit keeps: it bears its pass's number, writes to distinct cells, and leaves a valid state valid.
#![tactic(auto)]

mod laws;

pub use laws::{verdicts_keep_valid, viewers_are_there};
