//! What is shown of what is kept of pages, and which blocks are left out of the page that is kept for whoever views it.
#![tactic(auto)]

mod laws;
mod lazy;

pub use laws::{every_plan_shows, frames_are_filled, kept_is_whole};
pub use lazy::is_lazy;
