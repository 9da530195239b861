//! Where a site's states come from and its edits go, and what is kept of its pages, as one caller sees it.
#![tactic(auto)]

mod house;

pub use house::{House, moves_follow_one_another, what_was_seen_stays};
