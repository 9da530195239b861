//! Steps of the table, one after another: nothing that a pass has seen is ever unseen by a later turn, of whatever pass. So no
//! number falls from one caller to another whose turn comes later.
#![tactic(auto)]

mod laws;

pub use laws::{bins_stay, logs_only_grow, numbers_never_fall, steps_are_made};
