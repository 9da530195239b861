//! A site in memory, and a caller that is alone with it.
#![tactic(auto)]

mod house;
mod rows;

pub use house::alone_with;
pub use rows::{rows_of, starter_is_valid, starter_state, state_over};
