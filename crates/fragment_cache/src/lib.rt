//! Where parts of pages, and whole ones, are kept: three bins of bounded size; and the law that what is sound and fresh is
//! shown.
#![tactic(auto)]

mod bins;
mod laws;
mod threads;

pub use bins::Bins;
pub use laws::{fresh_is_shown, made_again, shown_is_determined, sound_entries_stay, states_agree};
pub use threads::bins_go_between_threads;
