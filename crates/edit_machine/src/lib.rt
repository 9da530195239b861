//! What becomes of an edit on a state: whether it is accepted, with what is to be kept of it, or refused, and why.
#![tactic(auto)]

mod causes;
mod comments;
mod config;
mod fields;
mod judging;
mod nodes;
mod permission;
mod sessions;
mod terms;
mod users;

pub use judging::judge;
