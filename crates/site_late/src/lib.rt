//! Pages that are written before all of them is made, and texts that lie in pieces.
#![tactic(auto)]

mod heads;
mod late;
mod parts;
mod pieces;

pub use heads::{head_of, media_of};
pub use late::{Sent, late_reply};
pub use pieces::{WriteFault, hand_on, write_page, write_parts, write_text};
