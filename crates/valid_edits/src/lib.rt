//! Edits that keep a state valid: who else has what no two rows may have, and what is to be checked of an edit's writes
//! so that the state after it is valid.
#![tactic(auto)]

mod holders;
mod laws;

pub use holders::{holder, is_parent, is_used, path_holder};
pub use laws::{fitting_edits_keep_valid, removals_keep_valid};
