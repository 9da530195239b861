//! Numbers that workers claim, each once, up to a limit.
//!
//! All workers draw from one word of a table, by one addition each. The rule of the table, which holds between any two of
//! their steps, says that they claimed as many numbers together as the word says, and never more than the limit.
#![tactic(auto)]

mod claims;
mod rule;
mod threads;

pub use claims::{Claimer, Claiming, Claims};
pub use rule::{ClaimNote, ClaimRoom, ClaimRule};
pub use threads::claimers_go_between_threads;
