//! Comments, as pages show them: which of them a viewer may view, and which answer which.
#![tactic(auto)]

mod laws;
mod reader;

pub use laws::views_are_decided;
pub use reader::{CommentReader, is_reply_to};
