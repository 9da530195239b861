//! The targets of a site: under which targets its pages stand, and which of them a visitor without a session gets.
#![tactic(auto)]

mod canonical;
mod gathered;
mod laws;
mod once;
mod open;
#[cfg(test)]
mod tests;

pub use gathered::{targets, targets_text};
pub use laws::{every_page_shows, statuses_follow_access, targets_mean};
