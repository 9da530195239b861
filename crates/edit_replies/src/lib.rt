//! What is answered to edits: the texts of replies.
#![tactic(auto)]

mod done;
mod fixed;
mod json;
mod refused;
mod room;

pub use done::done_text;
pub use fixed::keeper_text;
pub use refused::{bad_json_text, media_text, refused_text};
