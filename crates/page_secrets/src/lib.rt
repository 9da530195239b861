//! What pages keep to themselves: what access denies leaves no trace in what a page shows, nor does a password.
#![tactic(auto)]

mod laws;

pub use laws::{hidden_is_untold, no_password_shows, nothing_leaks};
